ghost use Rattle.std.specs.Prelude.{◌≡◌, ◌↔◌, ◌<◌, ◌≤◌, ℕ, List, None, Some, map, slice_get};
ghost use Rattle.std.specs.List.{All, AllZip, Contains};
ghost use Rattle.pb_links.specs.Links.{predecessors};
ghost use Rattle.pb_links.specs.declared.places.Spot.{Spot};
ghost use Rattle.pb_program.specs.Configs.{ConfigValue};
ghost use Rattle.pb_program.specs.Trees.{ProgTransform};
ghost use Rattle.pb_values.specs.declared.shape.TheConstants.{MOST_SIDE};
ghost use Rattle.pb_model.specs.Calls.{Outcomes, cell_reads};
ghost use Rattle.pb_model.specs.Cells.{Cell};
ghost use Rattle.pb_check.specs.Orders.{AnalysisValue};
ghost use Rattle.pb_frame.specs.Frames.{JobValue};
ghost use Rattle.pb_taskgraph.specs.Graphs.{EachOnce};
ghost use Rattle.pb_taskgraph.specs.Plans.{IsSmall};
ghost use Rattle.pb_walk.specs.declared.stop.Stop.{Stop};
ghost use Rattle.pb_solution.specs.Solutions.{outcomes_of, stop_cell, stops_of};
ghost use Rattle.pb_recursion.specs.Counts.{run_count};
ghost use Rattle.pb_recursion.specs.Depths.{call_at, sides_of_matrix};
ghost use Rattle.pb_runs.specs.Laws.{IsEntered, IsLinked, IsThere, MayUse};
ghost use Rattle.pb_runs.specs.Matrices.{run_matrices};
ghost use Rattle.pb_runs.specs.Placed.{IsPlaced, SpotCell, greatest_side, total};
ghost use Rattle.pb_runs.specs.Right.{IsRight, ReadsNumber, no_plans, source_number};
ghost use Rattle.pb_runs.specs.Steps.{Copied, Instance, Step, boxes_of, by_copy, by_job, cells_in, cells_of, copied_stops, number_at, parts_of, places_of};
ghost use Rattle.pb_runs.specs.Unrolled.{unrolled_run};

/// A law: the matrices that a run gives are those of its first call, and stand where the seats of the unrolled run say.
pub fn a_run_gives_what_its_call_means()
    ensures { (p : List ProgTransform) (found : List AnalysisValue) (config : ConfigValue) (grain depth number : ℕ) (ins : List Outcomes) → IsEntered p found config number ins
        → AllZip (IsPlaced (run_matrices p found config grain depth number ins)) (unrolled_run p found config grain depth number (map sides_of_matrix ins)).seats (call_at p config depth number ins) }
{}

/// A law: each step of a run is right: a cell that rules compute is what its chosen rule makes of the outcomes of what it reads, a
/// copied cell has the outcome of its source, and each cell of a call that can't be made has its trap.
pub fn each_step_is_right()
    ensures { (p : List ProgTransform) (found : List AnalysisValue) (config : ConfigValue) (grain depth number : ℕ) (ins : List Outcomes) → IsEntered p found config number ins
        → (k : ℕ) (s : Step) → slice_get (unrolled_run p found config grain depth number (map sides_of_matrix ins)).steps k ≡ Some s → IsRight config (run_matrices p found config grain depth number ins) s }
{}

/// A law: the steps of a run make all its cells but those that are given, each once.
pub fn each_cell_of_a_run_is_made_once()
    ensures once { (p : List ProgTransform) (found : List AnalysisValue) (config : ConfigValue) (grain depth number : ℕ) (ins : List Outcomes) → IsEntered p found config number ins
        → EachOnce (cells_in (unrolled_run p found config grain depth number (map sides_of_matrix ins)).steps) }
    ensures each { (p : List ProgTransform) (found : List AnalysisValue) (config : ConfigValue) (grain depth number : ℕ) (ins : List Outcomes) → IsEntered p found config number ins
        → (c : ℕ) → Contains (cells_in (unrolled_run p found config grain depth number (map sides_of_matrix ins)).steps) c ↔ ((total ins ≤ c) × (c < total (run_matrices p found config grain depth number ins))) }
{}

/// A law: each cell of a box of a step is given, or made by a step before it, or by the step itself.
pub fn what_a_step_reads_is_made_before()
    ensures { (p : List ProgTransform) (found : List AnalysisValue) (config : ConfigValue) (grain depth number : ℕ) (ins : List Outcomes) → IsEntered p found config number ins
        → (k : ℕ) (s : Step) → slice_get (unrolled_run p found config grain depth number (map sides_of_matrix ins)).steps k ≡ Some s → (b : Spot) → Contains (boxes_of s) b
        → (c : ℕ) → SpotCell (run_matrices p found config grain depth number ins) b c → IsThere ins (unrolled_run p found config grain depth number (map sides_of_matrix ins)).steps k c }
{}

/// A law: a run makes as many calls, and has as great a side and as many cells, as is counted by recursion over the sizes of its
/// calls, from the sides of its inputs alone.
pub fn a_run_is_counted_from_its_sides()
    ensures calls { (p : List ProgTransform) (found : List AnalysisValue) (config : ConfigValue) (grain depth number : ℕ) (ins : List Outcomes) → IsEntered p found config number ins
        → (unrolled_run p found config grain depth number (map sides_of_matrix ins)).next.calls ≡ (run_count p config depth number (map sides_of_matrix ins)).calls }
    ensures side { (p : List ProgTransform) (found : List AnalysisValue) (config : ConfigValue) (grain depth number : ℕ) (ins : List Outcomes) → IsEntered p found config number ins
        → greatest_side (run_matrices p found config grain depth number ins) ≡ (run_count p config depth number (map sides_of_matrix ins)).side }
    ensures cells { (p : List ProgTransform) (found : List AnalysisValue) (config : ConfigValue) (grain depth number : ℕ) (ins : List Outcomes) → IsEntered p found config number ins
        → total (run_matrices p found config grain depth number ins) ≡ (run_count p config depth number (map sides_of_matrix ins)).cells }
{}

/// A law: the cells that a step makes are those of its parts.
pub fn the_parts_of_a_step_have_its_cells()
    ensures { (p : List ProgTransform) (found : List AnalysisValue) (config : ConfigValue) (grain depth number : ℕ) (ins : List Outcomes) → IsEntered p found config number ins
        → (k : ℕ) (s : Step) → slice_get (unrolled_run p found config grain depth number (map sides_of_matrix ins)).steps k ≡ Some s
        → (c : ℕ) → Contains (cells_of s) c ↔ ((b : Spot) × Contains (parts_of s) b × SpotCell (run_matrices p found config grain depth number ins) b c) }
{}

/// A law: what a step reads lies in its boxes: what the chosen rules of the cells of a job read, and the sources of a copy.
pub fn what_a_step_reads_lies_in_its_boxes()
    ensures { (p : List ProgTransform) (found : List AnalysisValue) (config : ConfigValue) (grain depth number : ℕ) (ins : List Outcomes) → IsEntered p found config number ins
        → (k : ℕ) (s : Step) → slice_get (unrolled_run p found config grain depth number (map sides_of_matrix ins)).steps k ≡ Some s
        → (c : ℕ) → ReadsNumber config s c → (b : Spot) × Contains (boxes_of s) b × SpotCell (run_matrices p found config grain depth number ins) b c }
{}

/// A law: a step waits for earlier steps alone, where it waits for each other step of which a part meets one of its boxes.
pub fn a_step_waits_for_earlier_ones()
    ensures { (p : List ProgTransform) (found : List AnalysisValue) (config : ConfigValue) (grain depth number : ℕ) (ins : List Outcomes) → IsEntered p found config number ins
        → (k u : ℕ) → Contains (predecessors (map places_of (unrolled_run p found config grain depth number (map sides_of_matrix ins)).steps) k) u → u < k }
{}

/// A law: each cell of a box of a step is given, or made by a step for which it waits, or by the step itself.
pub fn what_a_step_reads_is_linked()
    ensures { (p : List ProgTransform) (found : List AnalysisValue) (config : ConfigValue) (grain depth number : ℕ) (ins : List Outcomes) → IsEntered p found config number ins
        → (k : ℕ) (s : Step) → slice_get (unrolled_run p found config grain depth number (map sides_of_matrix ins)).steps k ≡ Some s → (b : Spot) → Contains (boxes_of s) b
        → (c : ℕ) → SpotCell (run_matrices p found config grain depth number ins) b c → IsLinked ins (unrolled_run p found config grain depth number (map sides_of_matrix ins)).steps k c }
{}

/// A law: when a step makes a cell, it may read what the cell's chosen rule reads, or the source of a copy; and a step that makes all
/// cells of a rule at once, or copies, may read that before it makes any.
pub fn a_step_may_read_what_its_cells_read()
    ensures one { (p : List ProgTransform) (found : List AnalysisValue) (config : ConfigValue) (grain depth number : ℕ) (ins : List Outcomes) → IsEntered p found config number ins
        → (k : ℕ) (i : Instance) (job : JobValue) → slice_get (unrolled_run p found config grain depth number (map sides_of_matrix ins)).steps k ≡ Some (by_job i job) → job.rule ≡ None
        → (n : ℕ) (s : Stop) → slice_get (stops_of i.found.nodes i.found.order.layers job) n ≡ Some s → (d : Cell) → Contains (cell_reads config no_plans i.number i.transform i.sizes (stop_cell s)) d
        → MayUse ins (unrolled_run p found config grain depth number (map sides_of_matrix ins)).steps k n (number_at i d) }
    ensures all { (p : List ProgTransform) (found : List AnalysisValue) (config : ConfigValue) (grain depth number : ℕ) (ins : List Outcomes) → IsEntered p found config number ins
        → (k : ℕ) (i : Instance) (job : JobValue) (rule : ℕ) → slice_get (unrolled_run p found config grain depth number (map sides_of_matrix ins)).steps k ≡ Some (by_job i job) → job.rule ≡ Some rule
        → (n : ℕ) (s : Stop) → slice_get (stops_of i.found.nodes i.found.order.layers job) n ≡ Some s → (d : Cell) → Contains (cell_reads config no_plans i.number i.transform i.sizes (stop_cell s)) d
        → MayUse ins (unrolled_run p found config grain depth number (map sides_of_matrix ins)).steps k 0 (number_at i d) }
    ensures copied { (p : List ProgTransform) (found : List AnalysisValue) (config : ConfigValue) (grain depth number : ℕ) (ins : List Outcomes) → IsEntered p found config number ins
        → (k : ℕ) (i : Instance) (c : Copied) → slice_get (unrolled_run p found config grain depth number (map sides_of_matrix ins)).steps k ≡ Some (by_copy i c)
        → (s : Stop) → Contains (copied_stops i c) s → MayUse ins (unrolled_run p found config grain depth number (map sides_of_matrix ins)).steps k 0 (source_number c s) }
{}

/// A law: where no side passes its limit and what is given is small, each outcome of a run is a number of 64 bits, or the trap of a
/// transform, a rule and a place within their limits.
pub fn the_outcomes_of_a_run_are_small()
    ensures { (p : List ProgTransform) (found : List AnalysisValue) (config : ConfigValue) (grain depth number : ℕ) (ins : List Outcomes) → IsEntered p found config number ins
        → greatest_side (run_matrices p found config grain depth number ins) ≤ MOST_SIDE → All (λ (m : Outcomes). All IsSmall m.cells) ins
        → All IsSmall (outcomes_of (run_matrices p found config grain depth number ins)) }
{}
