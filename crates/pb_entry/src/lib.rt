//! Entering a run of an accepted program.
//!
//! In: the name of a transform and how many matrices are given; then these matrices. Out: the transform's number, or why there
//! is none; and the sizes of the transform, or why the matrices don't fit it. Nothing here takes memory.
//!
//! The theorems: `enter` with the law `a_name_has_one_answer`, and `bind_sizes` with the law `inputs_have_one_answer`.
#![tactic(auto)]

mod dims;
mod laws;
mod named;
mod range;
mod refusal;
mod sides;
mod sizes;
mod standing;
mod values;

pub use laws::{a_name_has_one_answer, bound_inputs_fit_their_matrices, inputs_have_one_answer};
pub use named::enter;
pub use refusal::{Count, RunRefusal};
pub use sizes::bind_sizes;
