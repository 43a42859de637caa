//! In: a work, a number of hands, and events: a hand starts a task, writes its cells, finishes it, releases its successors,
//! or gives a task that it holds to another. Out: what the tasks and the cells have come to, or that an event isn't enabled.
//!
//! The theorem is on every list of enabled events: `a_cell_is_written_once_and_right_and_after_what_it_reads`. With the other
//! laws it is the design of a pool: what is seen between events is a sound snapshot, some hand can go on until all tasks are
//! finished, and there are few events. `Core` is the machine that the laws speak of.
#![tactic(auto)]

mod event;
mod events;
mod first;
mod laws;
mod learned;
mod links;
mod machine;
mod progress;
mod steps;
mod wholes;

pub use event::{Event, EventsRefusal, NotEnabled};
pub use events::run_events;
pub use laws::{
    a_cell_is_written_once_and_right_and_after_what_it_reads, a_state_shows_a_sound_snapshot,
    an_enabled_event_keeps_a_state_sound, some_hand_can_go_on,
    the_listed_events_show_a_sound_snapshot, there_are_few_events,
};
pub use machine::Core;
pub use progress::Progress;
