//! Names of a program: as definitions, what each part of a tree is resolved to and what is wrong with its names; the laws
//! of these; and the parts with which `pb_resolve` builds.
//!
//! In: trees, names, resolved expressions and statements. Out: maps of names in order of declaration; resolved expressions
//! and statements; the calls of a plan. The theorem: a tree is one program, which is well formed, or is refused for one
//! fault, the first in the text.
#![tactic(auto)]

mod binders;
mod fault;
mod kind;
mod laws;
pub mod make;
pub mod make_statement;
mod matrices;
mod names;
mod parts;
mod plan;

pub use binders::Binders;
pub use fault::{Fault, refusal};
pub use kind::some_plans;
pub use laws::{
    a_faultless_tree_is_well_formed, a_tree_has_one_answer, faults_stand_in_order,
    names_dont_depend_on_places,
};
pub use matrices::{Matrices, Matrix};
pub use names::Names;
pub use parts::{
    alone, copy_name, count_of, function_of, is_row, is_single, is_size, kind_by, priority_of,
    ranges,
};
pub use plan::calls;
