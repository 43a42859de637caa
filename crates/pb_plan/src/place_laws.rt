ghost use Rattle.std.specs.Prelude.{◌≡◌, ◌<◌, ℕ, List, Some, map, slice_get};
ghost use Rattle.std.specs.List.{All, Contains};
ghost use Rattle.pb_linear.specs.Sizes.{sizes_of};
ghost use Rattle.pb_program.specs.Configs.{ConfigValue, IsValid};
ghost use Rattle.pb_program.specs.Trees.{ProgRule, ProgTransform};
ghost use Rattle.pb_model.specs.Cells.{Cell, ReadsCell};
ghost use Rattle.pb_model.specs.Chosen.{chosen_rule};
ghost use Rattle.pb_check.specs.Orders.{AnalysisValue};
ghost use Rattle.pb_check.specs.Ranked.{IsMadeCell};
ghost use Rattle.pb_frame.specs.Choices.{IsInstance};
ghost use Rattle.pb_frame.specs.Frames.{FrameValue, IsFrame, JobValue};
ghost use Rattle.pb_views.specs.Layouts.{HasShortSides};
ghost use Rattle.pb_links.specs.Links.{predecessors};
ghost use Rattle.pb_plan.specs.Boxes.{HasNodes, IsJob, places_of};
ghost use Rattle.pb_plan.specs.Made.{IsMadeBefore, IsMadeBy, jobs_for};

/// A law: what `pb_frame::frame` answers has the jobs of its instance.
pub fn a_frame_has_the_jobs_of_its_instance()
    ensures { (config : ConfigValue) (number : ℕ) (t : ProgTransform) (a : AnalysisValue) (grain : ℕ) (f : FrameValue) → IsFrame config number t a grain f
        → f.jobs ≡ jobs_for config number t a (sizes_of f.sizes) grain }
{}

/// A law: the places of the jobs of an instance can be found, if no side of its matrices is above the limit.
pub fn jobs_have_places()
    ensures jobs { (config : ConfigValue) (number : ℕ) (t : ProgTransform) (a : AnalysisValue) (sizes : List ℕ) (grain : ℕ) (i : IsInstance number t a sizes) → IsValid i.program config → All (HasShortSides sizes) t.matrices
        → All (λ (job : JobValue). IsJob t sizes job.rule job.parts) (jobs_for config number t a sizes grain) }
    ensures nodes { (config : ConfigValue) (number : ℕ) (t : ProgTransform) (a : AnalysisValue) (sizes : List ℕ) (grain : ℕ) (i : IsInstance number t a sizes) → IsValid i.program config → All (HasShortSides sizes) t.matrices
        → All (λ (job : JobValue). HasNodes a.nodes job.parts) (jobs_for config number t a sizes grain) }
{}

/// A law: each cell that rules make lies in one part of one job, which has the cell's chosen rule; and no other cell lies in any.
pub fn each_cell_is_made_once()
    ensures some { (config : ConfigValue) (number : ℕ) (t : ProgTransform) (a : AnalysisValue) (sizes : List ℕ) (grain : ℕ) (i : IsInstance number t a sizes) → IsValid i.program config
        → (c : Cell) → IsMadeCell t sizes c → (j : ℕ) × (k : ℕ) × IsMadeBy (jobs_for config number t a sizes grain) a.nodes c j k }
    ensures one { (config : ConfigValue) (number : ℕ) (t : ProgTransform) (a : AnalysisValue) (sizes : List ℕ) (grain : ℕ) → IsInstance number t a sizes
        → (c : Cell) (j k l m : ℕ) → IsMadeBy (jobs_for config number t a sizes grain) a.nodes c j k → IsMadeBy (jobs_for config number t a sizes grain) a.nodes c l m → (j ≡ l) × (k ≡ m) }
    ensures only { (config : ConfigValue) (number : ℕ) (t : ProgTransform) (a : AnalysisValue) (sizes : List ℕ) (grain : ℕ) → IsInstance number t a sizes
        → (c : Cell) (j k : ℕ) → IsMadeBy (jobs_for config number t a sizes grain) a.nodes c j k → IsMadeCell t sizes c }
    ensures rule { (config : ConfigValue) (number : ℕ) (t : ProgTransform) (a : AnalysisValue) (sizes : List ℕ) (grain : ℕ) → IsInstance number t a sizes
        → (c : Cell) (j k : ℕ) (m : IsMadeBy (jobs_for config number t a sizes grain) a.nodes c j k) → chosen_rule config number t sizes c ≡ m.part.rule }
{}

/// A law: what makes a part of what a job reads stands before it.
pub fn predecessors_stand_before()
    ensures { (config : ConfigValue) (number : ℕ) (t : ProgTransform) (a : AnalysisValue) (sizes : List ℕ) (grain : ℕ) (i : IsInstance number t a sizes) → IsValid i.program config
        → (j u : ℕ) → Contains (predecessors (map (places_of t a.nodes sizes) (jobs_for config number t a sizes grain)) j) u → u < j }
{}

/// A law: each cell that a cell's chosen rule reads, of a matrix that rules make, is made by a predecessor of the cell's job;
/// or by that job itself, where it makes its cells one by one, and then its rank is below the cell's.
pub fn what_is_read_is_made_before()
    ensures { (config : ConfigValue) (number : ℕ) (t : ProgTransform) (a : AnalysisValue) (sizes : List ℕ) (grain : ℕ) (i : IsInstance number t a sizes) → IsValid i.program config
        → (c shown : Cell) (j k : ℕ) → IsMadeBy (jobs_for config number t a sizes grain) a.nodes c j k
        → (rule : ProgRule) → slice_get t.rules (chosen_rule config number t sizes c) ≡ Some rule → ReadsCell t.matrices sizes c rule shown → IsMadeCell t sizes shown
        → IsMadeBefore t a sizes (jobs_for config number t a sizes grain) c shown j }
{}
