//! The tuner: it finds a configuration from small sizes to large ones, by the costs that a judge answers.
//!
//! In: a program with its sites, the largest size, and a judge. Out: a configuration, and the journal of all that was asked
//! with the answers; or where the judge failed. The theorem: `tune` answers a configuration that is valid for the program
//! and tuned, which the journal shows; where the judge tells its costs, there is just one such answer
//! (`told_costs_have_a_tuning`, `told_costs_have_one_tuning`).
#![tactic(auto)]

mod asking;
mod candidates;
mod copies;
mod fault;
mod journal;
mod judge;
mod laws;
mod selection;
mod tuning;

pub use fault::TuneFault;
pub use journal::{Asked, Journal};
pub use judge::{Cost, Judge};
pub use laws::{told_costs_have_a_tuning, told_costs_have_one_tuning};
pub use tuning::tune;
