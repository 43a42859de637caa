//! The stealing crew: the tasks of a work are run by many threads, each with a deque of its own, over one table of cells.
//!
//! In: a work, a number of workers, and a gate that each passes before it runs a task. Out: the outcomes of all cells, and the
//! tasks in the order in which they were finished. The theorem is `run_steal`: the outcomes are the work's solution, and the order is lawful.
//! `Crew::turn` is what a worker does again and again: its contract says which task it ran and what that has opened, or, where
//! it took none, whether all tasks were filed. A turn waits for nobody but the gate, and after `Crew::new` nothing takes memory.
#![tactic(auto)]

mod crew;
mod deal;
mod deque;
mod hand;
mod log;
mod run;
mod runner;
mod source;
mod take;
mod ticket;
mod turn;

pub use crew::Crew;
pub use hand::CrewHand;
pub use run::{run_crew, run_steal};
pub use turn::Turn;
