//! Linear forms over the sizes of a transform, with bounds that are exact for all sizes at once.
//!
//! In: forms (a constant, and multiples of size variables, of their halves, thirds and quarters),
//! ranges of sizes up to `SIZE_TOP`, areas of places. Out: values, sums and multiples, worst values
//! over an area, and the greatest value over all sizes in range. The theorem: `Form::most` and
//! `Form::everywhere_le0` answer for every sizes in range, though they look at no more than 24
//! values of each variable.
#![tactic(auto)]

mod boxes;
mod combine;
mod form;
mod most;
mod sizes;
mod vform;

pub use boxes::{ReadBox, RuleBox, Sign, Step};
pub use form::{Form, OverLimit};
pub use sizes::{Ranges, SIZE_TOP, Sizes};
pub use vform::{SymBox, VForm};
