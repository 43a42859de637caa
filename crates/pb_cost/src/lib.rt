//! The cost of a configuration at a size: how many cells the equations of a run read and write.
//!
//! In: an accepted program, a valid configuration, the number of a transform, and a size. Out: the cost, or none where the
//! configuration is unfit at this size. The theorem is `cost`.
#![tactic(auto)]

mod at_size;
mod calls;
mod entered;
mod given;
mod instance;
mod known;
mod limits;
mod recursion;

pub use at_size::{COST_DEPTH, COST_GRAIN, cost};
