//! The lines on `err` for programs that are refused.
//!
//! In: a refusal, and what it names by numbers: the transforms of the program, and where they have no order the segments. Out: its
//! line, with the line's end. The theorem: `refusal_line` gives the bytes of the definition.
#![tactic(auto)]

mod area;
mod line;
mod names;
mod segments;
mod text;

pub use area::write_segment;
pub use line::{refusal_line, write_rule};
pub use names::{write_axis, write_matrix, write_transform};
