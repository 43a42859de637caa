//! What the equations of one instance of a transform cost: how many cells they read and write.
//!
//! In: an accepted program, a valid configuration, the number of a transform, sizes in range, and what the instance makes. Out: a
//! number. No cell is visited: along the rows of a part the cells that a view shows are summed in closed form. The theorem is
//! `instance_cost`.
#![tactic(auto)]

mod extent;
mod extents;
mod instance;
mod parts;
mod views;

pub use instance::instance_cost;
