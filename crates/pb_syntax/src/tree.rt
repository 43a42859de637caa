mod expression;
mod form;
mod rule;
mod statement;
mod transform;
mod view;

pub use expression::{ExprText, Level, Operator, Relation, UnarySign};
pub use form::{DeclText, FormText, TermText};
pub use rule::RuleText;
pub use statement::StmtText;
pub use transform::{Text, TransformText};
pub use view::{CondText, MarkText, UseText, ViewText};
