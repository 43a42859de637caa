ghost use Rattle.std.specs.Prelude.{◌≡◌, ◌<◌, ◌^◌, Some};
ghost use Rattle.pb_values.specs.Cells.{TellsTrap};
ghost use Rattle.pb_taskgraph.specs.Plans.{IsSmall};
ghost use Rattle.pb_cells.specs.Words.{kind_at, kind_mark, mark_of, outcome_in, trap_in, trap_word, word_of};

use pb_values::{Kind, Outcome, Trap};

/// A place is below this on each axis.
const SIDE: u64 = 1 << 23;

/// The number of a rule is below this.
const RULES: u64 = 32;

fn kind_mark(kind: Kind) -> u64
    ensures { result ≡ kind_mark kind }
{
    match kind {
        Kind::Overflow => 2,
        Kind::DivideByZero => 3,
        Kind::OutOfView => 4,
        Kind::LoopLimit => 5,
        Kind::BadShape => 6,
        Kind::DepthEnded => 7,
    }
}

fn kind_at(mark: u64) -> Kind
    ensures { result ≡ kind_at mark }
{
    match mark {
        2 => Kind::Overflow,
        3 => Kind::DivideByZero,
        4 => Kind::OutOfView,
        5 => Kind::LoopLimit,
        6 => Kind::BadShape,
        _ => Kind::DepthEnded,
    }
}

/// The transform, the rule and the place of a trap as one word.
#[tactic(auto, unfolding(crate::specs::Words::trap_word))]
fn trap_word(trap: &Trap) -> u64
    requires transform { trap.now.transform < 64 }
    requires rule { trap.now.rule < 32 }
    requires x { trap.now.x < 2 ^ 23 }
    requires y { trap.now.y < 2 ^ 23 }
    ensures { result ≡ trap_word trap.now }
{
    ((trap.transform as u64 * RULES + trap.rule as u64) * SIDE + trap.y) * SIDE + trap.x
}

#[tactic(auto, unfolding(crate::specs::Words::trap_in))]
fn trap_in(kind: Kind, word: u64) -> Trap
    ensures { result ≡ trap_in kind word }
{
    let maker = word / SIDE / SIDE;
    Trap {
        kind,
        transform: (maker / RULES) as u32,
        rule: (maker % RULES) as u32,
        x: word % SIDE,
        y: word / SIDE % SIDE,
    }
}

/// The mark and the word of an outcome.
#[tactic(auto, unfolding(crate::specs::Words::mark_of, crate::specs::Words::word_of))]
pub(crate) fn pack(v: Outcome) -> (u64, u64)
    requires { IsSmall v }
    ensures { result ≡ (mark_of v, word_of v) }
{
    match v {
        Outcome::Value(number) => (1, number.cast_unsigned()),
        Outcome::Trapped(trap) => (kind_mark(trap.kind), trap_word(&trap)),
    }
}

/// The outcome with this mark and this word.
#[tactic(auto, unfolding(crate::specs::Words::outcome_in))]
pub(crate) fn unpack(mark: u64, word: u64) -> Outcome
    ensures { result ≡ outcome_in mark word }
{
    if mark == 1 {
        Outcome::Value(word.cast_signed())
    } else {
        Outcome::Trapped(trap_in(kind_at(mark), word))
    }
}

/// The trap of an outcome; none where it is a number.
pub(crate) fn trap_of(outcome: Outcome) -> Option<Trap>
    ensures { TellsTrap (Some outcome) result }
{
    match outcome {
        Outcome::Value(_) => None,
        Outcome::Trapped(trap) => Some(trap),
    }
}
