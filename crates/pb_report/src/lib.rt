//! The report of an accepted program: its segments, what they read of each other, and where rules are chosen.
//!
//! In: a program, and what is found of each of its transforms. Out: the lines of the report. The theorem: `report` gives the bytes
//! of the definition.
#![tactic(auto)]

mod edges;
mod program;
mod segments;
mod sets;
mod transform;

pub use program::{report, report_of};
pub use transform::write_transform;
