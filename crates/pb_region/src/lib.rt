//! Comes in: a well-formed program and the numbers of a transform and of a rule. Goes out: the first side of a matrix that
//! is negative at some sizes (`check_dims`); the box of each output of a rule, or why it has none (`conditions`); the
//! cells that a rule reads of matrices that rules make (`read_boxes`). All of it holds for all sizes in range at once.
//!
//! The theorem is `conditions` with the laws `a_box_is_its_conditions` and `a_wide_box_is_its_area`: a place is inside a box
//! exactly where the rule's conditions with a rule variable hold, or where it lies in the area of the output.
#![tactic(auto)]

mod bounds;
mod boxes;
mod dims;
mod ends;
mod forms;
mod gap;
mod laws;
mod overlap;
mod place;
mod reads;
mod rule;

pub use dims::check_dims;
pub use laws::{
    a_box_is_its_conditions, a_condition_is_its_gap, a_read_is_within_its_matrix,
    a_rule_has_one_answer, a_wide_box_is_its_area, an_unguarded_box_needs_no_guard,
    bounds_are_small, ends_are_those_of_the_area, ends_of_reads_are_small, sides_have_one_answer,
};
pub use reads::read_boxes;
pub use rule::conditions;
