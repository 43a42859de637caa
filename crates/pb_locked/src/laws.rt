ghost use Rattle.std.specs.Prelude.{◌≡◌, ◌<◌, ◌≤◌, ◌⊎◌, ℕ, None, length};
ghost use Rattle.pb_taskgraph.specs.Plans.{IsPlan, Plan};
ghost use Rattle.pb_core.specs.States.{State, first_state};
ghost use Rattle.pb_core.specs.Events.{AllEnabled, all_happen};
ghost use Rattle.pb_locked.specs.Boards.{HasBegun, IsBoard, IsReady, completed_by, taken_from};

/// A law: the state before any event is a board.
pub fn a_board_begins()
    ensures { (p : Plan) (hands : ℕ) → IsPlan p → 1 ≤ hands → hands ≤ 64 → IsBoard p (first_state p hands) }
{}

/// A law: in a board any hand can take a ready task, which it has then begun, and that leaves a board.
pub fn a_ready_task_can_be_taken()
    ensures enabled { (p : Plan) (s : State) (hand t : ℕ) → IsPlan p → IsBoard p s → IsReady p s t → AllEnabled p s (taken_from (s.holder t) hand t) }
    ensures board { (p : Plan) (s : State) (hand t : ℕ) → IsPlan p → IsBoard p s → IsReady p s t → IsBoard p (all_happen p s (taken_from (s.holder t) hand t)) }
    ensures begun { (p : Plan) (s : State) (hand t : ℕ) → IsPlan p → IsBoard p s → IsReady p s t → HasBegun (all_happen p s (taken_from (s.holder t) hand t)) hand t }
{}

/// A law: in a board a hand can complete a task that it has begun, and that leaves a board.
pub fn a_begun_task_can_be_completed()
    ensures enabled { (p : Plan) (s : State) (hand t : ℕ) → IsPlan p → IsBoard p s → HasBegun s hand t → AllEnabled p s (completed_by p hand t) }
    ensures board { (p : Plan) (s : State) (hand t : ℕ) → IsPlan p → IsBoard p s → HasBegun s hand t → IsBoard p (all_happen p s (completed_by p hand t)) }
{}

/// A law: in a board with an unfinished task some task is ready or begun.
pub fn a_board_goes_on()
    ensures { (p : Plan) (s : State) (t : ℕ) → IsPlan p → IsBoard p s → t < length p.graph.tasks → s.number t ≡ None
        → ((u : ℕ) × IsReady p s u) ⊎ ((hand : ℕ) × ((u : ℕ) × HasBegun s hand u)) }
{}
