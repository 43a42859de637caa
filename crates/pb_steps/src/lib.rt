//! A run, unrolled: the instances of its calls with where their matrices stand, and its steps in order, each of which makes cells.
//!
//! In: an accepted program, a valid configuration, how deep plans may call, a transform, the sides of the matrices that are given to it,
//! and the least side of a block. Out: instances, steps, and how many calls, matrices and cells are met. The theorem is `unroll`: they are
//! those of the run's definition.
#![tactic(auto)]

mod copies;
mod failed;
mod instance;
mod met;
mod names;
mod seats;
mod step;
mod unrolling;

pub use instance::Instance;
pub use met::Met;
pub use pb_counts::check_counts;
pub use seats::views_of;
pub use step::{Copied, Failed, Step, Target};
pub use unrolling::{Unrolled, unroll};
