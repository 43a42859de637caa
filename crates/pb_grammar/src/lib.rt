//! How tokens are read against the grammar, one at a time, and what follows: laws, no code that runs.
//!
//! `specs/Want.antt` has what is still wanted of the tokens to come, `specs/Reading.antt` what a token does to it. The laws:
//! a list of tokens has at most one tree; it is a program in which nothing is too many, or has one place of bad syntax, or
//! one first item too many; and an accepted tree is within the limits.
#![tactic(auto)]

mod laws;

pub use laws::{a_list_has_one_tree, an_accepted_tree_is_within_limits, tokens_have_one_answer};
