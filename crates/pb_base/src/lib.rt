//! Definitions and laws that name nothing of the language: several crates above stand on them.
//!
//! What links lead to, as definitions with lemmas; and systems of equations, whose cells are given or have an equation over
//! the cells that they read. In: nothing that runs. The theorem: enough rounds of a system know each cell, and what they
//! know is all that obeys the equations. Proofs of other crates cite the lemmas of `proofs/`, which hold over any types.
#![tactic(auto)]

mod systems;

pub use systems::{alone, enough, fixed, made_right, solution};
