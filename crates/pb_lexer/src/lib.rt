//! The tokens of a program text.
//!
//! In: the bytes of a text. Out: its tokens with their places, or the first byte that begins no token, blank or
//! comment. A text has at most one list of tokens. One pass from left to right.
#![tactic(auto)]

mod bytes;
mod laws;
mod piece;
mod read;

pub use laws::{a_text_has_one_fault, a_text_has_one_list, tokens_are_lexemes};
pub use pb_syntax::MOST_BYTES;
pub use read::tokens;
