ghost use Rattle.std.specs.Prelude.{◌≡◌, ◌<◌, ℕ, List, Option, Some, length, slice_get, slice_index, take};
ghost use Rattle.std.specs.List.{range_with_len};
ghost use Rattle.pb_values.specs.declared.outcome.Outcome.{Outcome};
ghost use Rattle.pb_values.specs.Cells.{Turn};
ghost use Rattle.pb_taskgraph.specs.Graphs.{GraphValue, IsGraph};
ghost use Rattle.pb_taskgraph.specs.Orders.{IsLawful};
ghost use Rattle.pb_taskgraph.specs.Plans.{IsPlan, Plan, outcome_at};
ghost use Rattle.pb_taskgraph.specs.Runs.{TellsInputs, turn_of, told_after};
ghost use Rattle.pb_taskgraph.specs.Turns.{Begins, MayRead, after_some};

/// A law: 0, 1, 2 and so on is a lawful order of the tasks.
pub fn tasks_by_number_are_in_lawful_order()
    ensures { (g : GraphValue) → IsGraph g → IsLawful g (range_with_len 0 (length g.tasks)) }
{}

/// A law: where tasks are run one after another in a lawful order, each can begin when its turn comes, and afterwards each
/// cell has the solution's outcome.
pub fn a_run_in_lawful_order_gives_the_solution()
    ensures begins { (p : Plan) (order : List ℕ) (told : ℕ → Option Outcome) → IsPlan p → IsLawful p.graph order → TellsInputs p told
        → (i : ℕ) → i < length order → Begins p (slice_index order i) (turn_of p (slice_index order i) (told_after p (take i order) told)) }
    ensures solution { (p : Plan) (order : List ℕ) (told : ℕ → Option Outcome) → IsPlan p → IsLawful p.graph order → TellsInputs p told
        → (c : ℕ) → c < p.graph.cells → told_after p order told c ≡ Some (outcome_at p.solution c) }
{}

/// A law: while a task is run, what it may read is told with the solution's outcome, and the next cell of its order is the
/// first that is still to be written.
pub fn a_task_is_told_what_it_may_read()
    ensures reads { (p : Plan) (t k c : ℕ) (start : Turn) → Begins p t start → MayRead p t k c → (after_some k start).outcomes c ≡ Some (outcome_at p.solution c) }
    ensures writes { (p : Plan) (t k c : ℕ) (start : Turn) → Begins p t start → slice_get (p.order t) k ≡ Some c
        → slice_get (after_some k start).left 0 ≡ Some (c, outcome_at p.solution c) }
{}
