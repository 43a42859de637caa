//! Sums of products of two numbers that change by the same step from place to place, without a loop over the places.
//!
//! In: two arithmetic progressions, and how many places. Out: a number. The theorem is `sum_of_products`.
#![tactic(auto)]

mod progression;
mod sums;

pub use progression::Progression;
pub use sums::sum_of_products;
