use std::alloc::AllocError;

/// A step of a run on several hands. A hand starts a task that it holds, writes the cells of the task, and finishes it; then
/// it releases the task's successors, one by one. A hand may also give a task that it holds to another.
#[derive(Clone, Copy, Debug, PartialEq, Eq)]
pub enum Event {
    Start { hand: u32, task: u32 },
    Write { hand: u32, cell: u64 },
    Finish { hand: u32, task: u32 },
    Release { hand: u32, task: u32, next: u32 },
    Give { giver: u32, taker: u32, task: u32 },
}

/// An event isn't enabled: its condition fails.
#[derive(Clone, Copy, Debug, PartialEq, Eq)]
pub struct NotEnabled;

/// Why a list of events can't happen: the event at this place isn't enabled in its turn, or there is no memory.
#[derive(Clone, Copy, Debug, PartialEq, Eq)]
pub enum EventsRefusal {
    NotEnabled { at: u64 },
    Memory,
}

impl From<AllocError> for EventsRefusal {
    ghost use Rattle.std.specs.Prelude.{◌≡◌};
    ghost use Rattle.pb_core.specs.declared.event.EventsRefusal.TheVariants.{Memory};

    ghost from_gives = { λ _ e. e ≡ Memory };

    fn from(_error: AllocError) -> EventsRefusal {
        EventsRefusal::Memory
    }
}
