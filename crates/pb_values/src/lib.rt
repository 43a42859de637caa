//! Outcomes of cells, shapes and views of matrices, names of a text and the checked arithmetic of bodies.
//!
//! In: whole numbers of 64 bits. Out: the exact number of an operation, or the kind of its trap. A view taken from another
//! shows the same cells.
#![tactic(auto)]

mod arithmetic;
mod name;
mod outcome;
mod reader;
mod rect;
mod shape;
mod view;

pub use arithmetic::{abs, add, div, mul, neg, rem, sub};
pub use name::Name;
pub use outcome::{Kind, Outcome, Trap};
pub use reader::CellReader;
pub use rect::Rect;
pub use shape::{MOST_SIDE, Shape};
pub use view::View;
