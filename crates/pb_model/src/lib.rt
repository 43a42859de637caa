//! What a program means, cell by cell: the cells that a rule reads, the rules that may make a cell, the one of them that a
//! configuration chooses, what a body computes, and the outcomes of the cells of a call.
//!
//! Definitions and laws alone, over the plain program: no bound is collected, no matrix is cut, nothing here computes when
//! a program runs. The theorem: `a_call_is_what_its_rules_say`, with the laws beside it.
#![tactic(auto)]

mod laws;

pub use laws::{
    a_call_is_what_its_rules_say, a_chosen_rule_is_lawful, a_lawful_rule_can_make_the_cell,
    a_rule_gives_numbers_of_64_bits, a_rule_reads_what_its_views_show,
};
