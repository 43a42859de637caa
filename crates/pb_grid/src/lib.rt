//! Comes in: the boxes of the rules that write a matrix, its sides, and the sizes in range. Goes out: the matrix cut into
//! segments at the bounds of the boxes, each with the rules that may make its cells, or why it can't be cut so. All of it
//! holds for all sizes in range at once.
//!
//! The theorem is `grid` with the laws `a_place_is_in_one_segment`, `a_segment_has_the_rules_of_its_places` and
//! `a_rule_is_at_a_place_exactly_where_it_may_make_the_cell`.
#![tactic(auto)]

mod axis;
mod crossing;
mod cuts;
mod forms;
mod gaps;
mod laws;
mod matrix;
mod refusal;
mod segments;

pub use laws::{
    a_matrix_has_one_answer, a_place_is_in_one_segment,
    a_rule_is_at_a_place_exactly_where_it_may_make_the_cell, a_segment_has_the_rules_of_its_places,
};
pub use matrix::grid;
pub use refusal::GridRefusal;
pub use segments::Segment;
