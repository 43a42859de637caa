//! The graph of the tasks of an unrolled run with plans, one for each step.
//!
//! In: an accepted program, and a run of one of its transforms, unrolled to steps: jobs of instances, copies, and calls that can't be
//! made. Out: the graph of its tasks, where each waits for the others of which a part meets what it reads; or that there are too many
//! tasks or links. The theorem is `graph_of`; `run_links` gives the links alone, and visits no cell.
#![tactic(auto)]

mod graph;
mod instances;
mod parts;
mod places;
mod spots;
mod tasks;

pub use graph::{graph_of, run_links};
pub use pb_steps::unroll;
