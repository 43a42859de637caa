//! The parser of rule bodies: expressions and statements.
//!
//! In: a cursor over the tokens that are left. Out: the statements of a body, or a fault. Each function promises `Leads`, as
//! those of `pb_form_parser` do: whatever is wanted afterwards, reading from where it began is reading from where it ended.
//! Where statements are read, their number so far is told too (`LeadsCounted` in `specs/Bodies.antt`).
#![tactic(auto)]

mod bracket;
mod expression;
mod make;
mod statement;

pub use pb_form_parser::{Cursor, Fault, begin_name, counted_dims, form, name_in, small};
pub use statement::statements;
