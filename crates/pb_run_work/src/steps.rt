ghost use Rattle.std.specs.Prelude.{◌≡◌, IfOk};
ghost use Rattle.pb_taskgraph.specs.Turns.{after_all};
ghost use Rattle.pb_jobs.specs.Rooms.{rooms_of};
ghost use Rattle.pb_run_work.specs.Steps.{CanRunStep};

use crate::copies::run_copy;
use crate::drawn::{Pieces, Sight};
use crate::jobs::run_job_of;
use crate::traps::run_trap;
use pb_check::Accepted;
use pb_jobs::{Rooms, RunScratch};
use pb_steps::{Instance, Step};
use pb_taskgraph::CellPort;
use pb_walk::Walk;
use std::alloc::{AllocError, Global};

/// Room that the steps of a run use, one after another: for jobs, and for the places of copies.
#[derive(Drop)]
pub struct StepScratch {
    pub jobs: RunScratch,
    pub copies: Walk,
}

impl StepScratch {
    /// As much room as this.
    pub fn new(alloc: Global, rooms: Rooms) -> Result<StepScratch, AllocError>
        ensures jobs { IfOk result (λ s. rooms_of s.jobs ≡ rooms) }
        ensures copies { IfOk result (λ s. s.copies.room ≡ rooms.pieces) }
    {
        Ok(StepScratch {
            jobs: RunScratch::new(alloc, rooms)?,
            copies: Walk::with_room(alloc, rooms.pieces)?,
        })
    }
}

/// Makes the cells of a step of a run, over its instances and what is held of them. It takes no memory.
pub fn run_step<C: CellPort>(
    a: &Accepted,
    instances: &[Instance],
    step: &Step,
    sights: &[Sight],
    pieces: &Pieces,
    port: &mut C,
    scratch: &mut StepScratch,
)
    requires can { CanRunStep a.now instances.now sights.now pieces.now (rooms_of scratch.old.jobs) scratch.old.copies.room (C.turn port.old) step.now }
    ensures written { C.turn port.new ≡ after_all (C.turn port.old) }
    ensures jobs { rooms_of scratch.new.jobs ≡ rooms_of scratch.old.jobs }
    ensures copies { scratch.new.copies.room ≡ scratch.old.copies.room }
{
    match step {
        Step::Job { instance, job } => {
            let here = &instances[*instance as usize];
            let sight = &sights[*instance as usize];
            let own = &here.jobs[*job as usize];
            run_job_of(a, here, own, sight, pieces, port, &mut scratch.jobs);
        }
        Step::Copy(copied) => {
            let sight = &sights[copied.instance as usize];
            run_copy(
                &sight.views,
                &pieces.parts,
                copied.corner,
                &copied.source,
                port,
                &mut scratch.copies,
            );
        }
        Step::Trap(failed) => run_trap(&failed.seats, failed.trap, port),
    }
}
