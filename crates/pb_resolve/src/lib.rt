//! Names of a program, each with what it names.
//!
//! In: the tree of a program text, within the limits. Out: the program with each name resolved, or the first fault of its
//! names in the order of the text. The theorem: `resolve` answers the one program that the tree is, exactly where no name
//! in it has a fault.
#![tactic(auto)]

mod decl;
mod expression;
mod header;
mod local;
mod outputs;
mod program;
mod reads;
mod rule;
mod scope;
mod sizes;
mod statement;
mod sum;
mod transform;
mod view;

pub use pb_names::a_tree_has_one_answer;
pub use pb_program::Prog;
pub use program::resolve;
