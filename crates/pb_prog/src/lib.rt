//! A program's data, its canonical text, and the text of forms.
//!
//! In: a program's tree, data of `pb_syntax`, which is named again here; a form over sizes. Out: the bytes of the
//! canonical text; the form as refusals print it.
//! `specs/Spelling.antt` says which tokens a tree has, `specs/Canonical.antt` how tokens are laid out.
#![tactic(auto)]

mod form;
mod print;

pub use form::print_form;
pub use pb_syntax::{
    CondText, DeclText, ExprText, FormText, Item, Level, MarkText, Name, Operator, Refusal,
    Relation, RuleText, StmtText, TermText, Text, Token, TokenKind, TokenWhat, TransformText,
    UnarySign, UseText, ViewText, kind_of, signs_are_those_listed,
};
pub use print::print_text;
