//! The syntax of programs: tokens, the tree that they spell, and why a text is refused.
//!
//! `specs/` says which tokens a text has, which tree which tokens spell, and which items of a tree are too many. Nothing
//! here reads or prints: the lexer, the parser and the printer stand on these definitions.
#![tactic(auto)]

mod kind;
mod laws;
mod limits;
mod refusal;
pub mod sign;
mod token;
mod tree;

pub use kind::{TokenKind, is_kind, kind_of, word_kind};
pub use laws::{signs_are_those_listed, the_limits_are_these};
pub use limits::{
    MOST_ARGUMENTS, MOST_BYTES, MOST_CONDITIONS, MOST_MATRICES, MOST_MINIMUMS, MOST_NESTING,
    MOST_NUMBER, MOST_RULES, MOST_SIZES, MOST_STATEMENTS, MOST_TARGETS, MOST_TERMS,
    MOST_TRANSFORMS, MOST_VALUE, MOST_VIEWS,
};
pub use pb_values::Name;
pub use refusal::{Item, Refusal, Segments};
pub use token::{Token, TokenWhat};
pub use tree::{
    CondText, DeclText, ExprText, FormText, Level, MarkText, Operator, Relation, RuleText,
    StmtText, TermText, Text, TransformText, UnarySign, UseText, ViewText,
};
