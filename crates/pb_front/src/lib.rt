//! The front end: the tree of a program text.
//!
//! In: the bytes of a text. Out: its tree, or why it is refused. A text has one of the two. The canonical text of a tree
//! that was read is read as the same tree, places aside, where it isn't too long.
#![tactic(auto)]

mod laws;
mod read;

pub use laws::{
    a_canonical_text_is_read, a_text_has_one_reading, a_tree_that_is_read_is_within_limits,
};
pub use read::read_text;
