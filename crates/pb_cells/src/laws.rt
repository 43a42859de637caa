ghost use Rattle.std.specs.Prelude.{◌≡◌, ◌<◌, ◌≤◌, ◌↔◌, true, [], ◌∷◌, ℕ, List, length};
ghost use Rattle.std.specs.List.{Contains};
ghost use mathlib.Core.Option.{some};
ghost use lib.ListN.{get_elem?};
ghost use Rattle.atomic_table.specs.Table.{State, keeps, stepped};
ghost use Rattle.pb_values.specs.declared.outcome.Outcome.{Outcome};
ghost use Rattle.pb_taskgraph.specs.Graphs.{EachOnce, before_of, cells_of};
ghost use Rattle.pb_taskgraph.specs.Plans.{IsPlan, IsSmall, Plan, outcome_at};
ghost use Rattle.pb_core.specs.Listed.{WritesInOrder};
ghost use Rattle.pb_core.specs.Snapshots.{IsSoundSnapshot, Snapshot};
ghost use Rattle.pb_cells.specs.declared.view.View.{View};
ghost use Rattle.pb_cells.specs.Banks.{bank_of, count_at, value_at};
ghost use Rattle.pb_cells.specs.Openings.{IsFirst};
ghost use Rattle.pb_cells.specs.Shown.{AreFiled, EverySeat, GoesOn, HasTurn, IsOpened, IsTurn, KnowsBefore, OnTask, OneSeat, OthersKeep, SaysFiled, SaysFinished, SaysStored, SeatWith, ShowsIt, SomeSeat};
ghost use Rattle.pb_cells.specs.Steps.{IsNext};
ghost use Rattle.pb_cells.specs.Stories.{FitsLeft, Holds};
ghost use Rattle.pb_cells.specs.Views.{first_view};
ghost use Rattle.pb_cells.specs.Words.{mark_of, outcome_in, word_of};

/// A law: the mark and the word of an outcome give it back.
pub fn a_written_pair_gives_its_outcome_back()
    ensures { (v : Outcome) → IsSmall v → outcome_in (mark_of v) (word_of v) ≡ v }
{}

/// A law: the rule of the table can be met. The first words and one seat, which holds the turns of the tasks without
/// predecessors, meet it.
pub fn the_first_words_meet_the_rule()
    ensures { (p : Plan) (words : List ℕ) → IsPlan p → IsFirst p words → Holds p (record { words = words; homes = []; views = first_view p ∷ [] }) }
{}

/// A law: wherever the rule holds, the words and the views show a sound snapshot, in which the written cells of each task are
/// the first of its own order.
pub fn the_words_and_views_show_a_sound_snapshot()
    ensures { (p : Plan) (s : State (Unit {0}) View) → Holds p s → (q : Snapshot) × IsSoundSnapshot p q × WritesInOrder p q × ShowsIt p (bank_of p.graph s.words) s.views q }
{}

/// A law: a task that waits for no release and isn't finished has its turn in just one view, and no other task has a turn.
pub fn each_turn_is_in_one_view()
    ensures one { (p : Plan) (s : State (Unit {0}) View) (t : ℕ) → Holds p s → t < length p.graph.tasks → (bank_of p.graph s.words).count t ≡ 0
        → ((n : ℕ) → SomeSeat s.views (SaysFinished t n) → ⊥) → OneSeat s.views (HasTurn t) }
    ensures no_other { (p : Plan) (s : State (Unit {0}) View) (t id : ℕ) → Holds p s → SeatWith s.views (HasTurn t) id → IsTurn p (bank_of p.graph s.words) s.views t }
{}

/// A law: a task that a view has opened waits for no release and has a predecessor, no other view has opened it, and this one
/// has opened it once.
pub fn each_task_is_opened_at_most_once()
    ensures one { (p : Plan) (s : State (Unit {0}) View) (t id : ℕ) → Holds p s → SeatWith s.views (λ v. Contains v.opened t) id → IsOpened p (bank_of p.graph s.words) s.views id t }
    ensures once { (p : Plan) (s : State (Unit {0}) View) → Holds p s → EverySeat s.views (λ v. EachOnce v.opened) }
{}

/// A law: whatever step of a seat changes the count of a task that waits for releases, it leaves 0 just where the seat says then that
/// it has opened the task, and what a Job says that its last release has left is 0 just there. Whatever steps a Job and new seats
/// then take, it still says so. A task that waits for no release and has predecessors is opened by just one view, which knows of a
/// predecessor that has released it.
pub fn a_task_is_opened_just_where_its_count_becomes_0()
    ensures step { (p : Plan) (s : State (Unit {0}) View) (t n id : ℕ) (v w : View) → Holds p s → t < length p.graph.tasks → 0 < (bank_of p.graph s.words).count t → get_elem? s.views id ≡ some v
        → Holds p (stepped s (count_at p.graph t) n id [] w keeps) → (n ≡ 0) ↔ Contains w.opened t }
    ensures kept { (p : Plan) (s later : State (Unit {0}) View) (t id : ℕ) (v w : View) → Holds p s → Holds p later → OthersKeep id s.views later.views → get_elem? s.views id ≡ some v → get_elem? later.views id ≡ some w
        → GoesOn v w → Contains v.opened t → (bank_of p.graph later.words).count t ≡ 0 → Contains w.opened t }
    ensures left { (p : Plan) (s : State (Unit {0}) View) → Holds p s → EverySeat s.views (λ v. FitsLeft v.job v.opened) }
    ensures one { (p : Plan) (s : State (Unit {0}) View) (t : ℕ) → Holds p s → t < length p.graph.tasks → (bank_of p.graph s.words).count t ≡ 0 → 0 < length (before_of p.graph t)
        → OneSeat s.views (λ v. Contains v.opened t) }
    ensures by { (p : Plan) (s : State (Unit {0}) View) (t id : ℕ) → Holds p s → SeatWith s.views (λ v. Contains v.opened t) id → SeatWith s.views (KnowsBefore p t) id }
{}

/// A law: whatever step of a seat stores a value of a written cell, it is the value that stands there. So no step changes one.
pub fn a_written_value_stays()
    ensures { (p : Plan) (s : State (Unit {0}) View) (c n id : ℕ) (w : View) → Holds p s → c < p.graph.cells → 0 < (bank_of p.graph s.words).mark c
        → Holds p (stepped s (value_at p.graph c) n id [] w keeps) → n ≡ (bank_of p.graph s.words).value c }
{}

/// A law: a cell isn't written before its turn. The next cell of a task that a view has begun isn't written, and where the view
/// says that its value is stored, this is the solution's; of a task that has no turn and isn't finished no cell is written.
pub fn a_cell_is_written_in_its_turn()
    ensures next { (p : Plan) (s : State (Unit {0}) View) (c id : ℕ) → Holds p s → SeatWith s.views (λ v. IsNext p v.job c) id → (bank_of p.graph s.words).mark c ≡ 0 }
    ensures stored { (p : Plan) (s : State (Unit {0}) View) (c id : ℕ) → Holds p s → SeatWith s.views (λ v. IsNext p v.job c × OnTask (λ j. j.stored ≡ true) v.job) id
        → (bank_of p.graph s.words).value c ≡ word_of (outcome_at p.solution c) }
    ensures idle { (p : Plan) (s : State (Unit {0}) View) (t c : ℕ) → Holds p s → t < length p.graph.tasks → Contains (cells_of p.graph t) c
        → (SomeSeat s.views (HasTurn t) → ⊥) → ((n : ℕ) → SomeSeat s.views (SaysFinished t n) → ⊥) → (bank_of p.graph s.words).mark c ≡ 0 }
{}

/// A law: what the words tell of finish numbers. A number that a view says is stored is the one that was drawn; the filed count
/// is that of the tasks that views say are filed, each of which is finished with its number stored; where all tasks are filed, each is finished with the number that is stored; and
/// what a view has seen is at most the filed count.
pub fn the_filed_count_tells_whose_numbers_are_stored()
    ensures stored { (p : Plan) (s : State (Unit {0}) View) (t n : ℕ) → Holds p s → SomeSeat s.views (SaysStored t n) → (bank_of p.graph s.words).number t ≡ n }
    ensures filed { (p : Plan) (s : State (Unit {0}) View) → Holds p s → (tasks : List ℕ) × AreFiled s.views tasks × ((bank_of p.graph s.words).filed ≡ length tasks) }
    ensures kept { (p : Plan) (s : State (Unit {0}) View) (t : ℕ) → Holds p s → SomeSeat s.views (SaysFiled t) → SomeSeat s.views (SaysStored t ((bank_of p.graph s.words).number t)) }
    ensures all { (p : Plan) (s : State (Unit {0}) View) (t : ℕ) → Holds p s → (bank_of p.graph s.words).filed ≡ length p.graph.tasks → t < length p.graph.tasks
        → SomeSeat s.views (SaysFinished t ((bank_of p.graph s.words).number t)) }
    ensures seen { (p : Plan) (s : State (Unit {0}) View) → Holds p s → EverySeat s.views (λ v. v.seen ≤ (bank_of p.graph s.words).filed) }
{}
