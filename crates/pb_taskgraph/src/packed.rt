ghost use Rattle.std.specs.Prelude.{◌≡◌, ◌<◌, ◌≤◌, ◌^◌, unsigned_abs};
ghost use Rattle.pb_taskgraph.specs.Packed.{kind_at, trap_by, trap_in};

use pb_values::{Kind, Trap};

/// A place is below this on each axis.
const SIDE: u64 = 8_388_608;

fn kind_number(kind: Kind) -> u64
    ensures kind { kind_at result ≡ kind }
    ensures few { result ≤ 5 }
{
    match kind {
        Kind::Overflow => 0,
        Kind::DivideByZero => 1,
        Kind::OutOfView => 2,
        Kind::LoopLimit => 3,
        Kind::BadShape => 4,
        Kind::DepthEnded => 5,
    }
}

fn kind_at(number: u64) -> Kind
    ensures { result ≡ kind_at number }
{
    match number {
        0 => Kind::Overflow,
        1 => Kind::DivideByZero,
        2 => Kind::OutOfView,
        3 => Kind::LoopLimit,
        4 => Kind::BadShape,
        _ => Kind::DepthEnded,
    }
}

/// Who made a trap as one number: its kind, the transform and the rule.
fn maker_of(trap: &Trap) -> u64
    requires transform { trap.now.transform < 64 }
    requires rule { trap.now.rule < 32 }
    ensures trap { trap_by result trap.now.x trap.now.y ≡ trap.now }
    ensures small { result < 2 ^ 14 }
{
    (kind_number(trap.kind) * 64 + trap.transform as u64) * 32 + trap.rule as u64
}

/// A trap as one word.
pub(crate) fn word_of(trap: &Trap) -> i64
    requires transform { trap.now.transform < 64 }
    requires rule { trap.now.rule < 32 }
    requires x { trap.now.x < 2 ^ 23 }
    requires y { trap.now.y < 2 ^ 23 }
    ensures { trap_in (unsigned_abs result) ≡ trap.now }
{
    ((maker_of(trap) * SIDE + trap.x) * SIDE + trap.y) as i64
}

#[tactic(auto, unfolding(crate::specs::Packed::trap_by))]
fn trap_by(maker: u64, x: u64, y: u64) -> Trap
    ensures { result ≡ trap_by maker x y }
{
    Trap {
        kind: kind_at(maker / 32 / 64),
        transform: (maker / 32 % 64) as u32,
        rule: (maker % 32) as u32,
        x,
        y,
    }
}

/// The trap that a word stands for.
#[tactic(auto, unfolding(crate::specs::Packed::trap_in))]
pub(crate) fn trap_in(word: u64) -> Trap
    ensures { result ≡ trap_in word }
{
    trap_by(word / SIDE / SIDE, word / SIDE % SIDE, word % SIDE)
}
