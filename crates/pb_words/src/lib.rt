//! The words of a command line.
//!
//! In: the words after the program's name. Out: the command with its options and the place of the first of its
//! other words, exactly where the words are in the grammar; a line has at most one reading. Nothing takes memory.
//! `specs/Files.antt` says which of its other words name files.
#![tactic(auto)]

mod ask;
mod laws;
mod line;
mod options;
mod values;

pub use ask::{Ask, Pool};
pub use laws::{a_line_has_one_reading, words_are_inside_or_not};
pub use line::read_words;
