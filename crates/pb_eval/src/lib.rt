//! How a computing rule is run for a cell.
//!
//! In: a rule of a well-formed program, sizes, a cell, its reads as views, and a reader that tells their cells. Out: the numbers
//! of the rule's outputs, or a trap. The theorem is `run_body`: it is just what the rule gives. It takes no memory: a `Scratch`
//! has the room, and `locals_room` and `outs_room` say how much.
#![tactic(auto)]

mod body;
mod cells;
mod chain;
mod formula;
mod laws;
mod moving;
mod place;
mod room;
mod run;
mod sum;
mod terms;
mod traps;

pub use body::run_body;
pub use formula::{formula_of, run_formula, run_sum, run_terms};
pub use laws::{a_computing_rule_can_be_run, a_rule_for_regions_means_the_same_at_each_cell};
pub use moving::{Along, Moving};
pub use pb_statements::Scratch;
pub use room::{locals_room, outs_room};
pub use sum::Sum;
pub use terms::Terms;
