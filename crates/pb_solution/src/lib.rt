//! What a run of an instance means, and what its tasks may rely on.
//!
//! In: definitions alone. An instance of an accepted program, the matrices that are given to it, and its tasks. Out: a plan of
//! `pb_taskgraph`, whose solution is the outcomes of the instance's call. The theorems are laws: it is a plan
//! (`a_run_is_a_plan`), each cell's outcome is what its rule makes of the outcomes of what it reads
//! (`each_outcome_is_its_rules`), and a task may read these when it makes the cell (`a_task_may_read_what_its_rules_read`).
#![tactic(auto)]

mod laws;

pub use laws::{a_run_is_a_plan, a_task_may_read_what_its_rules_read, each_outcome_is_its_rules};
