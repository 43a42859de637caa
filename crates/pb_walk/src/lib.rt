//! The places of a task in its own order.
//!
//! In: a list of steps, and the rectangles of the task's parts. Out: their places, one after another, in the order of the list, and
//! where they are equal in it by the numbers of their cells. The theorem: a `Walk` gives the places of the definition, one by one
//! (`next`) or some in a line at once (`stretch`), and the laws say what these are.
#![tactic(auto)]

mod course;
mod cursor;
mod laws;
mod numbers;
mod places;
mod stop;
mod stretch;
mod walk;

pub use laws::{a_walk_rises, each_place_is_walked_once, there_is_one_walk};
pub use stop::Stop;
pub use stretch::Stretch;
pub use walk::Walk;
