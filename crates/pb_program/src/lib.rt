//! The data of a program whose names are resolved: what `pb_resolve` answers, and every later phase reads.
//!
//! `specs/` says when a program is well formed, which conditions a rule has, and where it applies. Nothing here computes.
#![tactic(auto)]

mod config;
mod expression;
mod meaning;
mod plan;
mod rule;
mod statement;
mod transform;
mod view;

pub use config::{Config, Entry, Selector, Site};
pub use expression::Expr;
pub use meaning::{Called, Callee, Function, Meaning, Named};
pub use plan::{Plan, PlanCall, Slot};
pub use rule::{Body, Rule, RuleKind};
pub use statement::{LocalForm, LocalTerm, Stmt};
pub use transform::{Decl, Prog, Transform};
pub use view::{Cond, Coordinate, Read, ReadView};
