ghost use Rattle.std.specs.Prelude.{◌≡◌, ℕ, List, [], Some, map, slice_get};
ghost use Rattle.std.specs.List.{flat_map};
ghost use Rattle.pb_values.specs.Cells.{Turn};
ghost use Rattle.pb_values.specs.declared.view.View.{View};
ghost use Rattle.pb_program.specs.Trees.{ProgTransform, bare_prog};
ghost use Rattle.pb_check.specs.Accepting.{AcceptedValue};
ghost use Rattle.pb_check.specs.Orders.{AnalysisValue};
ghost use Rattle.pb_taskgraph.specs.Graphs.{TaskValue};
ghost use Rattle.pb_taskgraph.specs.Turns.{Begins};
ghost use Rattle.pb_plan.specs.Boxes.{spot_of};
ghost use Rattle.pb_views.specs.Seats.{seat_cells};
ghost use Rattle.pb_walk.specs.Walks.{walk_of};
ghost use Rattle.pb_steps.specs.Runs.{UnrolledValue};
ghost use Rattle.pb_steps.specs.Stands.{AreViewsOf};
ghost use Rattle.pb_steps.specs.Values.{CopiedValue, FailedValue, InstanceValue};
ghost use Rattle.pb_steps.specs.declared.step.Step.TheVariants as step;
ghost use Rattle.pb_frame.specs.Frames.{JobValue};
ghost use Rattle.pb_jobs.specs.Instances.{InstanceValue as Seen, IsReady, of_sizes, of_transform};
ghost use Rattle.pb_jobs.specs.Jobs.{CanBeMade};
ghost use Rattle.pb_jobs.specs.Shown.{AreRuleWindows};
ghost use Rattle.pb_run_work.specs.Seen.{IsSeenAs, job_as};
ghost use Rattle.pb_run_graph.specs.Handed.{AreTasksOf};
ghost use Rattle.pb_run_graph.specs.Linking.{CanBeLinked};
ghost use Rattle.pb_run_work.specs.Copies.{IsCopy};
ghost use Rattle.pb_run_work.specs.Planned.{plan_for, steps_for};
ghost use Rattle.pb_run_work.specs.Traps.{AreNumbers, IsLeft};

/// A law: when the turn of the task of a call that can't be made begins, its trap can be written into the cells of the matrices of
/// its targets, and these are all that is left to be written.
pub fn a_task_of_a_run_that_traps_can_be_run()
    ensures left { (a : AcceptedValue) (u : UnrolledValue) (inputs : ℕ) (c : CanBeLinked a u inputs) (tasks : List TaskValue) → AreTasksOf (steps_for c) tasks
        → (k : ℕ) (start : Turn) → Begins (plan_for c tasks) k start → (f : FailedValue) → slice_get u.steps k ≡ Some (step.Trap f) → IsLeft f.trap (flat_map seat_cells f.seats) start }
    ensures numbers { (a : AcceptedValue) (u : UnrolledValue) (inputs : ℕ) (c : CanBeLinked a u inputs) (tasks : List TaskValue) → AreTasksOf (steps_for c) tasks
        → (k : ℕ) (start : Turn) → Begins (plan_for c tasks) k start → (f : FailedValue) → slice_get u.steps k ≡ Some (step.Trap f) → AreNumbers (flat_map seat_cells f.seats) }
{}

/// A law: when the turn of the task of a copy begins, the source of each of its cells is told with the outcome of the cell, over
/// views of the matrices of the copy's instance.
pub fn a_task_of_a_run_that_copies_can_be_run()
    ensures { (a : AcceptedValue) (u : UnrolledValue) (inputs : ℕ) (c : CanBeLinked a u inputs) (tasks : List TaskValue) → AreTasksOf (steps_for c) tasks
        → (k : ℕ) (start : Turn) → Begins (plan_for c tasks) k start → (x : CopiedValue) → slice_get u.steps k ≡ Some (step.Copy x)
        → (v : InstanceValue) → slice_get u.instances x.instance ≡ Some v → (t : ProgTransform) → slice_get (bare_prog a.program) v.transform ≡ Some t
        → (found : AnalysisValue) → slice_get a.found v.transform ≡ Some found → (views : List View) → AreViewsOf t.matrices v.seats views
        → IsCopy views x.corner x.source (walk_of [] (map (spot_of found.nodes) x.parts)) start }
{}

/// A law: rules can be run over the instances of a run.
pub fn an_instance_of_a_run_is_ready()
    ensures { (a : AcceptedValue) (u : UnrolledValue) (inputs : ℕ) → CanBeLinked a u inputs → (m : ℕ) (v : InstanceValue) → slice_get u.instances m ≡ Some v
        → (seen : Seen) → IsSeenAs a.program v seen → AreRuleWindows (of_sizes seen) (of_transform seen).rules seen.windows → IsReady seen }
{}

/// A law: when the turn of the task of a job begins, its cells can be made.
pub fn a_task_of_a_run_that_computes_can_be_run()
    ensures { (a : AcceptedValue) (u : UnrolledValue) (inputs : ℕ) (c : CanBeLinked a u inputs) (tasks : List TaskValue) → AreTasksOf (steps_for c) tasks
        → (k : ℕ) (start : Turn) → Begins (plan_for c tasks) k start → (m j : ℕ) → slice_get u.steps k ≡ Some (step.Job m j)
        → (v : InstanceValue) → slice_get u.instances m ≡ Some v → (job : JobValue) → slice_get v.jobs j ≡ Some job
        → (found : AnalysisValue) → slice_get a.found v.transform ≡ Some found → (seen : Seen) → IsSeenAs a.program v seen → CanBeMade seen (job_as found job) start }
{}
