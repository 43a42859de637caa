//! In: a work and a number of hands. Out: `Cells`, one table of words, a `Job` for each task that waits for nothing, and the
//! `Hand`s. Threads that share the table run the tasks: who has a Job reads cells and writes those of its task, or has a work do so
//! through the Job's port; then it finishes the task and releases its successors. The release that makes a successor's count 0
//! gives a Job of it, and no other release does. Once a Hand has seen all tasks filed, `close` gives the outcomes of all cells and the
//! order of the tasks.
//!
//! The theorem is the rule of the table, `Holds`: between any two atomic steps of any threads, its words and what the Jobs and
//! the Hands know tell a state of the machine of `pb_core`, with the solution's outcomes. The laws say what follows from it.
#![tactic(auto)]

mod cells;
mod close;
mod deal;
mod first;
mod laws;
mod names;
mod port;
mod seats;
mod steps;
mod view;
mod words;

pub use cells::Cells;
pub use laws::{
    a_cell_is_written_in_its_turn, a_task_is_opened_just_where_its_count_becomes_0,
    a_written_pair_gives_its_outcome_back, a_written_value_stays, each_task_is_opened_at_most_once,
    each_turn_is_in_one_view, the_filed_count_tells_whose_numbers_are_stored,
    the_first_words_meet_the_rule, the_words_and_views_show_a_sound_snapshot,
};
pub use names::NamesTable;
pub use port::JobPort;
pub use seats::{Hand, Job};
pub use steps::CellsRule;
pub use view::{TaskView, View};
