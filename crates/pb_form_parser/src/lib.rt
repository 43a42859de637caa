//! The parser of forms, over a cursor of tokens.
//!
//! In: the tokens that are left. Out: the next token, a form or the dimensions of a matrix, or a fault. Each function
//! promises `Leads` (`specs/Leads.antt`): whatever is wanted afterwards, reading from where it began is reading from where
//! it ended.
#![tactic(auto)]

mod after;
mod begin;
mod cursor;
mod dimensions;
mod fault;
mod forms;

pub use after::{then, without};
pub use begin::begin_name;
pub use cursor::{Cursor, name_in, number_in};
pub use dimensions::{counted_dims, dims};
pub use fault::Fault;
pub use forms::{form, small};
