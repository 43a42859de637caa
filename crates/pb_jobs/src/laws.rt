ghost use Rattle.std.specs.Prelude.{◌≡◌, ℕ, List, Some, slice_get};
ghost use Rattle.pb_program.specs.Trees.{ProgRule, ProgTransform, bare_prog};
ghost use Rattle.pb_program.specs.declared.rule.RuleKind.TheVariants as kind;
ghost use Rattle.pb_values.specs.Cells.{Turn};
ghost use Rattle.pb_taskgraph.specs.Plans.{Plan};
ghost use Rattle.pb_taskgraph.specs.Turns.{Begins};
ghost use Rattle.pb_walk.specs.declared.stop.Stop.{Stop};
ghost use Rattle.pb_jobs.specs.Instances.{InstanceValue, IsReady, of_sizes, of_transform};
ghost use Rattle.pb_jobs.specs.Jobs.{IsBlock, IsWhole, JobValue};
ghost use Rattle.pb_jobs.specs.Outputs.{CanGive};
ghost use Rattle.pb_jobs.specs.Rooms.{Grows, HasNeed, HasRoomForJob};
ghost use Rattle.pb_jobs.specs.Tasks.{IsBlockTask, IsWholeTask};
ghost use Rattle.pb_jobs.specs.declared.room.Rooms.{Rooms};

/// A law: how much room a rule for single cells needs can be told, and that of a rule that makes all its cells at once, where its
/// outputs lie within their matrices.
pub fn each_rule_has_a_need()
    ensures alone { (v : InstanceValue) (k : ℕ) (rule : ProgRule) → IsReady v → slice_get (of_transform v).rules k ≡ Some rule → rule.kind ≡ kind.Cell → HasNeed (bare_prog v.program) v.number (of_sizes v) k }
    ensures together { (v : InstanceValue) (k : ℕ) → IsReady v → CanGive v k → HasNeed (bare_prog v.program) v.number (of_sizes v) k }
{}

/// A law: where there is room for a job, there is still room for it with more.
pub fn a_job_has_room_where_there_is_more()
    ensures { (p : List ProgTransform) (t : ℕ) (sizes : List ℕ) (old new : Rooms) (job : JobValue) → Grows old new → HasRoomForJob p t sizes old job → HasRoomForJob p t sizes new job }
{}

/// A law: when the turn of a task of a plan begins, its cells can be made, if the plan's solution says of each what its rule gives
/// of the solution's outcomes, and the task may read what the rule reads.
pub fn a_task_of_a_plan_can_be_made()
    ensures alone { (v : InstanceValue) (p : Plan) (task : ℕ) (start : Turn) (rules : List ℕ) (stops : List Stop) → Begins p task start → IsBlockTask v p task rules stops → IsBlock v rules stops start }
    ensures together { (v : InstanceValue) (p : Plan) (task : ℕ) (start : Turn) (rule : ℕ) (stops : List Stop) → Begins p task start → IsWholeTask v p task rule stops → IsWhole v rule stops start }
{}
