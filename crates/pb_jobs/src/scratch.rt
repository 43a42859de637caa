ghost use Rattle.std.specs.Prelude.{◌≡◌, IfOk};
ghost use Rattle.pb_jobs.specs.Rooms.{rooms_of};

use crate::room::Rooms;
use crate::shown::Shown;
use pb_eval::{Scratch, Sum, Terms};
use pb_walk::Walk;
use std::alloc::{AllocError, Global};

/// Room that rules use, one after another: for the views of a rule's reads, for its locals and outputs, for the terms of its formula,
/// and for a sum in their place.
#[derive(Drop)]
pub(crate) struct RuleScratch {
    pub(crate) shown: Shown,
    pub(crate) body: Scratch,
    pub(crate) terms: Terms,
    pub(crate) sum: Sum,
}

/// Room that jobs use, one after another: for the places of a job, and for its rules.
#[derive(Drop)]
pub struct RunScratch {
    pub(crate) walk: Walk,
    pub(crate) rule: RuleScratch,
}

impl RunScratch {
    /// As much room as this.
    pub fn new(alloc: Global, rooms: Rooms) -> Result<RunScratch, AllocError>
        ensures { IfOk result (λ s. rooms_of s ≡ rooms) }
    {
        Ok(RunScratch {
            walk: Walk::with_room(alloc, rooms.pieces)?,
            rule: RuleScratch {
                shown: Shown::new(alloc)?,
                body: Scratch::new(alloc, rooms.locals, rooms.outs)?,
                terms: Terms::new(alloc)?,
                sum: Sum::new(alloc)?,
            },
        })
    }
}
