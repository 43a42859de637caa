//! The views of a rule at fixed sizes, as views of the cells of a run.
//!
//! In: a view as a rule declares it, the sizes of an instance, and the matrix that it is of, as a view of cells. Out: for each
//! value of the rule variables the cells that it shows. The theorem is `Window::show`: just the cells that the meaning of the
//! rule reads, in their order. And where a matrix of a call stands in a run, with what views show of it, views of views included
//! (`Seat::part`, `Seat::view`).
#![tactic(auto)]

mod coordinate;
mod hull;
mod laws;
mod layout;
mod line;
mod seat;
mod window;

pub use laws::{a_window_shows_what_is_read, what_a_part_reads_lies_in_its_box};
pub use layout::{lay_out, shape_of};
pub use line::Line;
pub use seat::Seat;
pub use window::Window;
