ghost use Rattle.std.specs.Prelude.{◌≡◌, ℕ, List, None, Some, map, slice_get};
ghost use Rattle.std.specs.List.{All, Contains};
ghost use Rattle.pb_values.specs.declared.view.View.{View};
ghost use Rattle.pb_program.specs.Configs.{ConfigValue};
ghost use Rattle.pb_program.specs.Trees.{ProgRule, ProgTransform};
ghost use Rattle.pb_model.specs.Calls.{Outcomes, Plans, cell_equation, cell_reads};
ghost use Rattle.pb_model.specs.Cells.{Cell, reads};
ghost use Rattle.pb_model.specs.Chosen.{chosen_rule};
ghost use Rattle.pb_check.specs.Orders.{AnalysisValue};
ghost use Rattle.pb_check.specs.Ranked.{IsMadeCell};
ghost use Rattle.pb_frame.specs.Frames.{JobValue};
ghost use Rattle.pb_taskgraph.specs.Graphs.{TaskValue};
ghost use Rattle.pb_taskgraph.specs.Plans.{IsPlan, outcome_at};
ghost use Rattle.pb_taskgraph.specs.Turns.{MayRead};
ghost use Rattle.pb_plan.specs.Made.{jobs_for};
ghost use Rattle.pb_views.specs.Windows.{number_in};
ghost use Rattle.pb_walk.specs.declared.stop.Stop.{Stop};
ghost use Rattle.pb_solution.specs.Solutions.{IsRun, plan_of, stop_cell, stops_of};

/// A law: a run of an instance is a plan: its tasks are a graph, it has a small outcome for each cell, and each task writes its
/// own cells, each once.
pub fn a_run_is_a_plan()
    ensures { (config : ConfigValue) (plans : Plans) (number : ℕ) (t : ProgTransform) (a : AnalysisValue) (sizes : List ℕ) (grain : ℕ) (ins : List Outcomes) (views : List View) (tasks : List TaskValue)
        → IsRun config plans number t a sizes grain ins views tasks → IsPlan (plan_of config plans number t a sizes grain ins views tasks) }
{}

/// A law: the outcome of each cell that rules make is what its chosen rule makes of the outcomes of the cells that it reads.
pub fn each_outcome_is_its_rules()
    ensures { (config : ConfigValue) (plans : Plans) (number : ℕ) (t : ProgTransform) (a : AnalysisValue) (sizes : List ℕ) (grain : ℕ) (ins : List Outcomes) (views : List View) (tasks : List TaskValue)
        → IsRun config plans number t a sizes grain ins views tasks → (c : Cell) → IsMadeCell t sizes c
        → outcome_at (plan_of config plans number t a sizes grain ins views tasks).solution (number_in views c)
        ≡ cell_equation config plans number t sizes c (map (λ d. outcome_at (plan_of config plans number t a sizes grain ins views tasks).solution (number_in views d)) (cell_reads config plans number t sizes c)) }
{}

/// A law: when a task makes a cell, it may read what the cell's chosen rule reads; and if it makes all cells of a rule at once, it
/// may read that before it makes any.
pub fn a_task_may_read_what_its_rules_read()
    ensures one { (config : ConfigValue) (plans : Plans) (number : ℕ) (t : ProgTransform) (a : AnalysisValue) (sizes : List ℕ) (grain : ℕ) (ins : List Outcomes) (views : List View) (tasks : List TaskValue)
        → IsRun config plans number t a sizes grain ins views tasks → (j : ℕ) (job : JobValue) → slice_get (jobs_for config number t a sizes grain) j ≡ Some job → job.rule ≡ None
        → (k : ℕ) (s : Stop) → slice_get (stops_of a.nodes a.order.layers job) k ≡ Some s
        → (shown : Cell) → Contains (cell_reads config plans number t sizes (stop_cell s)) shown → MayRead (plan_of config plans number t a sizes grain ins views tasks) j k (number_in views shown) }
    ensures all { (config : ConfigValue) (plans : Plans) (number : ℕ) (t : ProgTransform) (a : AnalysisValue) (sizes : List ℕ) (grain : ℕ) (ins : List Outcomes) (views : List View) (tasks : List TaskValue)
        → IsRun config plans number t a sizes grain ins views tasks → (j rule : ℕ) (job : JobValue) → slice_get (jobs_for config number t a sizes grain) j ≡ Some job → job.rule ≡ Some rule
        → (k : ℕ) (s : Stop) → slice_get (stops_of a.nodes a.order.layers job) k ≡ Some s
        → (shown : Cell) → Contains (cell_reads config plans number t sizes (stop_cell s)) shown → MayRead (plan_of config plans number t a sizes grain ins views tasks) j 0 (number_in views shown) }
{}
