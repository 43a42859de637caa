//! The tree of a program's tokens.
//!
//! In: the tokens of a text. Out: the tree that they spell by the grammar, or the first token at which they begin no
//! program, or the first item that is too many. One pass from left to right with one token of lookahead; it recurses into
//! brackets, of which at most 32 are open, and into the five levels of an expression between them.
#![tactic(auto)]

mod decl;
mod refused;
mod rule;
mod transform;
mod view;

pub use pb_grammar::{
    a_list_has_one_tree, an_accepted_tree_is_within_limits, tokens_have_one_answer,
};
pub use transform::parse;
