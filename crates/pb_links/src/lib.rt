//! In: for each task of a run the rectangles that it makes, and those that it reads. Out: the predecessors and the successors
//! of each task: a task waits for those that make a part of what it reads.
//!
//! The theorem is `links`: the lists are exactly these, in rising order, or there are more links than are allowed.
#![tactic(auto)]

mod before;
mod index;
mod laws;
mod numbers;
mod owners;
mod places;
mod refusal;
mod tasks;
mod turned;

pub use laws::{
    a_predecessor_makes_what_is_read, links_are_of_other_tasks, links_mirror, links_stand_once,
};
pub use numbers::{Links, Numbers};
pub use places::{Places, Spot};
pub use refusal::LinksRefusal;
pub use tasks::links;
