//! In: the tasks of a run, each with its cells, its predecessors and its successors; and a work, which says how a task makes
//! its cells. Out: the graph of the tasks; the outcomes of all cells, and the order in which the tasks were run; and the bytes
//! of the run's trace.
//!
//! The theorem is `run_serial`: tasks that are run by number give the work's solution. `Work` is the contract that all ways
//! of running tasks share. The law `a_run_in_lawful_order_gives_the_solution` says the same of any lawful order. `trace` gives just
//! the bytes of its definition.
#![tactic(auto)]

mod gate;
mod graph;
mod laws;
mod limits;
mod names;
mod outcomes;
mod owners;
mod packed;
mod port;
mod serial;
mod task;
mod trace_part;
mod traces;
mod work;

pub use gate::{Gate, OpenGate};
pub use graph::TaskGraph;
pub use laws::{
    a_run_in_lawful_order_gives_the_solution, a_task_is_told_what_it_may_read,
    tasks_by_number_are_in_lawful_order,
};
pub use limits::{MOST_CELLS, MOST_LINKS, MOST_TASKS};
pub use names::NamesWork;
pub use outcomes::Outcomes;
pub use port::CellPort;
pub use serial::{Finished, run_serial};
pub use task::{Part, Task, TaskKind};
pub use traces::trace;
pub use work::Work;
