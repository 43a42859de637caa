//! What the expressions and the statements of a body come to, in a scratch.
//!
//! In: a body, a scene (the sizes, the rule variables, the reads as views), a reader that tells their cells, and a scratch where
//! the outputs are laid. Out: the numbers of the locals and of the outputs, in the scratch, or the kind of a trap. The theorem is
//! `Scene::statements`: they are just what the statements leave. Of an expression, `Scene::value` gives just its value.
#![tactic(auto)]

mod cell;
mod code;
mod expression;
mod laying;
mod machine;
mod port;
mod products;
mod scene;
mod scratch;
mod shown;
mod sides;
mod spot;
mod statement;
mod sums;
mod translate;
mod turns;

pub use expression::named_view;
pub use port::{NamesTurn, Port};
pub use scene::Scene;
pub use scratch::Scratch;
pub use sides::{Sides, lowest, view_sides};
