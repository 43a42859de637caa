//! The text of a matrix: reading it, with the place of its first fault, and writing it.
//!
//! In: the bytes of a file, or a shape and its cells. Out: the matrix that the bytes spell or their first fault, or
//! the text of the cells. What is written is read as the same matrix.
#![tactic(auto)]

mod buffered;
mod header;
mod laws;
mod matrix;
mod numbers;
mod quick;
mod read;
mod words;
mod write;

pub use header::MAX_CELLS;
pub use laws::{the_limit_of_cells_is_this, written_is_read};
pub use matrix::{Matrix, MatrixRefusal};
pub use read::read_matrix;
pub use write::write_matrix;
