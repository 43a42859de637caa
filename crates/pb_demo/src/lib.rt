//! The two programs that the demonstration runs, with their configurations and matrices: none is ever refused.
//!
//! In: definitions alone. The texts and the matrices of `pb_gen`, and beside them the names of the transforms and the texts of the
//! configurations (`Demonstrations`). The theorems are laws: both texts are accepted (`both_texts_are_accepted`), both configurations are
//! valid (`both_configurations_are_valid`), and matrices of any size fit (`drawn_matrices_fit`). They are found by computing in
//! the logic what the phases find: the text is read by the definitions of reading, and whether a form is at most 0 at all sizes by the
//! few sizes that can tell.
#![tactic(auto)]

mod laws;

pub use laws::{both_configurations_are_valid, both_texts_are_accepted, drawn_matrices_fit};
