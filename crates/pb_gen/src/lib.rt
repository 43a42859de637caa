//! The two programs of the demonstration, and inputs of any size for them that are drawn from a seed.
//!
//! In: which program, a seed and a size. Out: the text of the program, or the matrices that it is run on: the cells of
//! all of them are one stream of random words, cut into pieces. The theorem is `example`, with the laws
//! `examples_share_one_stream` and `the_cells_of_an_example_are_small`.
#![tactic(auto)]

mod laws;
mod matrices;
mod texts;

pub use laws::{examples_share_one_stream, the_cells_of_an_example_are_small};
pub use matrices::example;
pub use texts::text;
