ghost use Rattle.std.specs.Prelude.{◌≡◌, ◌<◌, Some, length, slice_get};
ghost use Rattle.pb_graph.specs.Layerings.{steps_at};
ghost use Rattle.pb_check.specs.Orders.{AnalysisValue};
ghost use Rattle.pb_program.specs.Transforms.{TransformValue};
ghost use Rattle.pb_taskgraph.specs.Turns.{after_all};
ghost use Rattle.pb_jobs.specs.Rooms.{rooms_of};
ghost use Rattle.pb_run_work.specs.Seen.{CanRunJob};

use crate::drawn::{Pieces, Sight};
use pb_check::Accepted;
use pb_frame::Job;
use pb_jobs::{Instance as Seen, Job as Made, RunScratch, run_job};
use pb_linear::Step;
use pb_program::Transform;
use pb_steps::Instance;
use pb_taskgraph::CellPort;

/// The transform with this number.
fn transform_at(a: &Accepted, t: u32) -> &Transform
    requires { t < length a.now.program.transforms }
    ensures { slice_get a.now.program.transforms t ≡ Some result.now }
{
    &a.prog().transforms[t as usize]
}

/// The list by which the cells of a layer of a transform are made.
fn steps_at(a: &Accepted, t: u32, layer: u32) -> &[Step]
    requires there { t < length a.now.found }
    requires layer { (x : AnalysisValue) → slice_get a.now.found t ≡ Some x → layer < length x.order.layers }
    ensures { (x : AnalysisValue) → slice_get a.now.found t ≡ Some x → result.now ≡ steps_at x.order.layers layer }
{
    let order = a.analyses()[t as usize].order();
    let layer = &order.layers[layer as usize];
    &layer.steps
}

/// Makes the cells of a job of an instance of a run.
pub fn run_job_of<C: CellPort>(
    a: &Accepted,
    here: &Instance,
    job: &Job,
    sight: &Sight,
    pieces: &Pieces,
    port: &mut C,
    scratch: &mut RunScratch,
)
    requires can { CanRunJob a.now here.now job.now sight.now pieces.now (rooms_of scratch.old) (C.turn port.old) }
    ensures written { C.turn port.new ≡ after_all (C.turn port.old) }
    ensures room { rooms_of scratch.new ≡ rooms_of scratch.old }
{
    let seen = Seen {
        program: a.prog(),
        number: here.transform,
        transform: transform_at(a, here.transform),
        sizes: &here.sizes,
        views: &sight.views,
        windows: &sight.windows,
    };
    let made = Made {
        parts: &pieces.parts,
        rule: job.rule,
        rules: &pieces.rules,
        steps: steps_at(a, here.transform, job.layer),
    };
    run_job(&seen, &made, port, scratch);
}
