//! What a program with plans means: matrices that a plan makes call by call, calls at a depth, and what a run counts.
//!
//! In: definitions alone. A program, a configuration, a transform by its number with the matrices that are given to it, and how
//! many calls deep its plans may call. Out: the matrices that the call makes; and how many calls and cells the run has, with its
//! greatest side. The theorem: at each depth every cell of a call is what its chosen rule makes of the cells that it reads in the
//! same call (`each_cell_is_its_rules_equation`).
#![tactic(auto)]

mod laws;

pub use laws::{
    a_fitting_call_is_given, a_plan_passes_on_what_is_there, each_cell_is_its_rules_equation,
    given_matrices_can_enter,
};
