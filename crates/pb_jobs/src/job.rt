ghost use Rattle.std.specs.Prelude.{◌≡◌};
ghost use Rattle.pb_program.specs.Trees.{bare_prog};
ghost use Rattle.pb_taskgraph.specs.Turns.{after_all};
ghost use Rattle.pb_jobs.specs.Instances.{IsReady, of_sizes};
ghost use Rattle.pb_jobs.specs.Jobs.{CanBeMade};
ghost use Rattle.pb_jobs.specs.Rooms.{HasRoomForJob, rooms_of};

use crate::instance::Instance;
use crate::scratch::RunScratch;
use pb_linear::Step;
use pb_links::Spot;
use pb_taskgraph::CellPort;
use std::marker::Model;

/// The rectangles that are made together, in matrices of an instance. A rule that makes all cells at once is `rule`. Where there
/// is none, each rectangle has a rule of its own, which makes its cells one by one, and the cells of all rectangles are made in
/// the order of `steps`. Where there is one, `rules` and `steps` play no part, and the cells go by their numbers.
#[derive(Drop)]
pub struct Job<'a> {
    pub parts: &'a [Spot],
    pub rule: Option<u32>,
    pub rules: &'a [u32],
    pub steps: &'a [Step],
}

impl<'a> Model for Job<'a> {
    ghost use Rattle.pb_jobs.specs.Jobs.{JobValue};

    ghost Value = { JobValue };

    ghost view = { λ j. record { parts = j.parts.now; rule = j.rule; rules = j.rules.now; steps = j.steps.now } };
}

/// Makes the cells of a job that can be made, one after another, where there is room for it. It takes no memory.
pub fn run_job<C: CellPort>(instance: &Instance, job: &Job, port: &mut C, scratch: &mut RunScratch)
    requires ready { IsReady instance.now }
    requires can { CanBeMade instance.now job.now (C.turn port.old) }
    requires room { HasRoomForJob (bare_prog instance.now.program) instance.now.number (of_sizes instance.now) (rooms_of scratch.old) job.now }
    ensures written { C.turn port.new ≡ after_all (C.turn port.old) }
    ensures room { rooms_of scratch.new ≡ rooms_of scratch.old }
{
    match job.rule {
        None => instance.run_block(job.parts, job.rules, job.steps, port, scratch),
        Some(rule) => instance.run_whole(job.parts, rule, port, scratch),
    }
}
