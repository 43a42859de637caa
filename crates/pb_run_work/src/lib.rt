//! Runs with plans: the work that a pool does, made from a program, a configuration and the matrices that are given.
//!
//! In: an accepted program, a valid configuration, the number of a transform, the matrices that are given to it, how deep plans may
//! call, and the grain. Out: a `Run`, a work of `pb_taskgraph` whose solution is the outcomes of all its calls, and whose tasks make
//! them; or why there is none. The theorems are `unroll` and the clauses of `Work`. Below it stands `run_step`: a step of an unrolled
//! run, which is a job of an instance, a copy, or a call that can't be made, is made through a port; and laws say that this can be done
//! when the turn of its task begins.
//!
//! Only `unroll` and `StepScratch::new`, which `scratch` calls, take memory.
#![tactic(auto)]

mod copies;
mod drawn;
mod inputs;
mod jobs;
mod laws;
mod pieces;
mod run;
mod seats;
mod sights;
mod steps;
mod traps;
mod unrolled;
mod work;

pub use copies::run_copy;
pub use drawn::{Pieces, Sight};
pub use jobs::run_job_of;
pub use laws::{
    a_task_of_a_run_that_computes_can_be_run, a_task_of_a_run_that_copies_can_be_run,
    a_task_of_a_run_that_traps_can_be_run, an_instance_of_a_run_is_ready,
};
pub use run::Run;
pub use steps::{StepScratch, run_step};
pub use traps::run_trap;
pub use unrolled::unroll;
