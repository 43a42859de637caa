//! What the runs of the demonstration make.
//!
//! In: definitions alone. The programs of the rolling sum and of the product, valid configurations, and rows and square matrices of
//! small numbers (`Sums`). The theorems are laws. Each cell of a rolling sum is the sum of the numbers up to it, whatever rules a
//! configuration chooses, and none is trapped (`a_rolling_sum_is_made`). No cell of a product is trapped by the rules that the
//! configuration of the demonstration chooses (`a_product_traps_no_cell`).
#![tactic(auto)]

mod laws;

pub use laws::{a_product_traps_no_cell, a_rolling_sum_is_made};
