//! What holds of the calls of an accepted program: all cells of a segment have one chosen rule, what a rule reads lies inside
//! the matrices, and each cell of a call is what its chosen rule makes of the cells that it reads.
//!
//! Laws alone: they lead from what acceptance found, segments and their order, to the meaning of a call, which knows neither.
//! The theorem: `a_call_is_settled`.
#![tactic(auto)]

mod laws;

pub use laws::{
    a_call_is_settled, a_rule_reads_inside_its_matrices, the_cells_of_a_segment_have_one_choice,
};
