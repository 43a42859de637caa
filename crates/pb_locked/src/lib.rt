//! The pool under one lock: the tasks of a work are run by many threads, which share a machine of the work.
//!
//! In: a work, a number of workers, and a gate that each passes before it runs a task. Out: the outcomes of all cells, and the
//! order in which the tasks were finished. The theorem is `run_locked`: the outcomes are the work's solution, and the order is
//! lawful. `Board` is the value of the lock: what a worker does with it are events of the machine of `pb_core`.
#![tactic(auto)]

mod board;
mod complete;
mod finished;
mod job;
mod laws;
mod places;
mod pool;
mod ports;
mod ready;

pub use board::Board;
pub use laws::{
    a_begun_task_can_be_completed, a_board_begins, a_board_goes_on, a_ready_task_can_be_taken,
};
pub use pool::run_locked;
