ghost use Rattle.std.specs.Prelude.{ℕ, List};
ghost use Rattle.pb_values.specs.declared.view.View.{View};
ghost use Rattle.pb_program.specs.Configs.{ConfigValue, IsValid};
ghost use Rattle.pb_program.specs.Trees.{ProgTransform};
ghost use Rattle.pb_check.specs.Orders.{AnalysisValue};
ghost use Rattle.pb_frame.specs.Choices.{IsInstance};
ghost use Rattle.pb_taskgraph.specs.Graphs.{IsGraph, TaskValue};
ghost use Rattle.pb_plan.specs.Made.{jobs_for};
ghost use Rattle.pb_views.specs.Layouts.{AreInARow};
ghost use Rattle.pb_plan.specs.Tasks.{AreTasks, IsWithinLimits, graph_of};

/// A law: the tasks of an instance within the limits of a run, over its matrices one after the other, are a graph of tasks:
/// each cell that rules make is a cell of one task, once, and every link goes to a smaller number and stands at both ends.
pub fn the_tasks_of_an_instance_are_a_graph()
    ensures { (config : ConfigValue) (number : ℕ) (t : ProgTransform) (a : AnalysisValue) (sizes : List ℕ) (grain : ℕ) (i : IsInstance number t a sizes) → IsValid i.program config
        → (views : List View) → AreInARow 0 sizes t.matrices views
        → (tasks : List TaskValue) → AreTasks t a.nodes sizes views (jobs_for config number t a sizes grain) tasks
        → IsWithinLimits t a.nodes sizes (jobs_for config number t a sizes grain)
        → IsGraph (graph_of t sizes tasks) }
{}
