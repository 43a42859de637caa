//! A line on a matrix: its name, its sides, its least and its greatest cell, and the sum of all.
//!
//! In: a name and a matrix. Out: the line. The theorem is `summary`: the bytes of the definition, where the sum is exact for every
//! matrix; with the law `the_ends_are_cells`.
#![tactic(auto)]

mod cells;
mod laws;
mod line;

pub use laws::the_ends_are_cells;
pub use line::summary;
