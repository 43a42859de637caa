ghost use Rattle.std.specs.Prelude.{◌≡◌, ℕ, List, None, Some, map, slice_get};
ghost use Rattle.std.specs.List.{All, Contains};
ghost use Rattle.pb_program.specs.Configs.{ConfigValue};
ghost use Rattle.pb_program.specs.Trees.{ProgTransform};
ghost use Rattle.pb_model.specs.Calls.{Outcomes, cell_reads};
ghost use Rattle.pb_model.specs.Cells.{Cell};
ghost use Rattle.pb_check.specs.Orders.{AnalysisValue};
ghost use Rattle.pb_runs.specs.Handed.{JobValue};
ghost use Rattle.pb_taskgraph.specs.Graphs.{TaskValue};
ghost use Rattle.pb_taskgraph.specs.Plans.{IsPlan, IsSmall};
ghost use Rattle.pb_taskgraph.specs.Turns.{MayRead};
ghost use Rattle.pb_walk.specs.declared.stop.Stop.{Stop};
ghost use Rattle.pb_runs.specs.Handed.{stop_cell, stops_of};
ghost use Rattle.pb_recursion.specs.Depths.{sides_of_matrix};
ghost use Rattle.pb_runs.specs.Laws.{IsEntered};
ghost use Rattle.pb_runs.specs.Matrices.{run_matrices};
ghost use Rattle.pb_runs.specs.Right.{no_plans, source_number};
ghost use Rattle.pb_runs.specs.Steps.{Copied, Instance, by_copy, by_job, copied_stops, number_at};
ghost use Rattle.pb_runs.specs.Unrolled.{unrolled_run};
ghost use Rattle.pb_run_plan.specs.RunTasks.{AreTasksOf, IsWithinLimits, plan_of_run};

/// A law: a run within the limits is a plan: its tasks are a graph, it has a small outcome for each cell, and each task writes its
/// own cells, each once.
pub fn a_run_of_calls_is_a_plan()
    ensures { (p : List ProgTransform) (found : List AnalysisValue) (config : ConfigValue) (grain depth number : ℕ) (ins : List Outcomes) (tasks : List TaskValue) → IsEntered p found config number ins → All (λ (m : Outcomes). All IsSmall m.cells) ins
        → IsWithinLimits (run_matrices p found config grain depth number ins) (unrolled_run p found config grain depth number (map sides_of_matrix ins)).steps
        → AreTasksOf (unrolled_run p found config grain depth number (map sides_of_matrix ins)).steps tasks
        → IsPlan (plan_of_run ins (run_matrices p found config grain depth number ins) (unrolled_run p found config grain depth number (map sides_of_matrix ins)).steps tasks) }
{}

/// A law: when a task makes a cell, it may read what the cell's chosen rule reads, or the source of a copy; and a task that makes all
/// cells of a rule at once, or copies, may read that before it makes any.
pub fn a_task_of_a_run_may_read_what_it_needs()
    ensures one { (p : List ProgTransform) (found : List AnalysisValue) (config : ConfigValue) (grain depth number : ℕ) (ins : List Outcomes) (tasks : List TaskValue) → IsEntered p found config number ins
        → AreTasksOf (unrolled_run p found config grain depth number (map sides_of_matrix ins)).steps tasks
        → (k : ℕ) (i : Instance) (job : JobValue) → slice_get (unrolled_run p found config grain depth number (map sides_of_matrix ins)).steps k ≡ Some (by_job i job) → job.rule ≡ None
        → (n : ℕ) (s : Stop) → slice_get (stops_of i.found.nodes i.found.order.layers job) n ≡ Some s → (d : Cell) → Contains (cell_reads config no_plans i.number i.transform i.sizes (stop_cell s)) d
        → MayRead (plan_of_run ins (run_matrices p found config grain depth number ins) (unrolled_run p found config grain depth number (map sides_of_matrix ins)).steps tasks) k n (number_at i d) }
    ensures all { (p : List ProgTransform) (found : List AnalysisValue) (config : ConfigValue) (grain depth number : ℕ) (ins : List Outcomes) (tasks : List TaskValue) → IsEntered p found config number ins
        → AreTasksOf (unrolled_run p found config grain depth number (map sides_of_matrix ins)).steps tasks
        → (k : ℕ) (i : Instance) (job : JobValue) (rule : ℕ) → slice_get (unrolled_run p found config grain depth number (map sides_of_matrix ins)).steps k ≡ Some (by_job i job) → job.rule ≡ Some rule
        → (n : ℕ) (s : Stop) → slice_get (stops_of i.found.nodes i.found.order.layers job) n ≡ Some s → (d : Cell) → Contains (cell_reads config no_plans i.number i.transform i.sizes (stop_cell s)) d
        → MayRead (plan_of_run ins (run_matrices p found config grain depth number ins) (unrolled_run p found config grain depth number (map sides_of_matrix ins)).steps tasks) k 0 (number_at i d) }
    ensures copied { (p : List ProgTransform) (found : List AnalysisValue) (config : ConfigValue) (grain depth number : ℕ) (ins : List Outcomes) (tasks : List TaskValue) → IsEntered p found config number ins
        → AreTasksOf (unrolled_run p found config grain depth number (map sides_of_matrix ins)).steps tasks
        → (k : ℕ) (i : Instance) (c : Copied) → slice_get (unrolled_run p found config grain depth number (map sides_of_matrix ins)).steps k ≡ Some (by_copy i c)
        → (s : Stop) → Contains (copied_stops i c) s
        → MayRead (plan_of_run ins (run_matrices p found config grain depth number ins) (unrolled_run p found config grain depth number (map sides_of_matrix ins)).steps tasks) k 0 (source_number c s) }
{}
