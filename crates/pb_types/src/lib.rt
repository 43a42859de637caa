//! Comes in: a program whose names are resolved. Goes out: nothing where its types are right, else the least place at which
//! they aren't.
//!
//! The theorem is the contract of `check_types`: `specs/Types.antt` lists the places at which a rule of types is broken.
#![tactic(auto)]

mod call;
mod check;
mod expression;
mod known;
mod laws;
mod least;
mod loops;
mod plan;
mod sort;
mod statement;
mod views;

pub use check::check_types;
pub use laws::{plans_are_sound, types_dont_depend_on_places, types_have_one_answer};
