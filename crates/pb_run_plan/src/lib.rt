//! The tasks of a run with plans, one for each step, and the plan of `pb_taskgraph` that they stand for.
//!
//! In: definitions alone. The steps of a run, with the matrices that they fill; tasks whose parts show the cells of the steps' parts,
//! and whose links are those of the steps. The theorems are laws. Within the limits of a run the tasks are a graph with a small
//! outcome for each cell, and each task has an order of its own cells (`a_run_of_calls_is_a_plan`); and when a task makes a cell, it
//! may read what the cell's rule reads, or what it copies (`a_task_of_a_run_may_read_what_it_needs`).
#![tactic(auto)]

mod laws;

pub use laws::{a_run_of_calls_is_a_plan, a_task_of_a_run_may_read_what_it_needs};
