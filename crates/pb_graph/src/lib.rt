//! The segments of a transform as the nodes of a graph, in which a segment is linked to those that its rules read.
//!
//! Comes in: the segments of all matrices that rules make, what the rules read of these matrices, and the ranges of sizes.
//! Goes out: layers of segments, with a direction for each, such that every cell that a rule may read for a cell is in a
//! lower layer or comes before it in the layer's direction; or the first segments that lead to each other, by reading or by
//! a rule that makes cells of both, where no direction serves what they read of each other.
//!
//! The theorem is `order`: it answers layers exactly where an order exists, memory aside.
#![tactic(auto)]

mod alike;
mod cuts;
mod edges;
mod joining;
mod laws;
mod layering;
mod node;
mod ordering;
mod readers;
mod refusal;
mod rows;
mod seen;
mod standing;

pub use laws::{
    a_layering_handles_each_read, choices_have_one_answer, what_is_read_has_a_smaller_rank,
};
pub use layering::{Edge, Layer, Layering};
pub use node::Node;
pub use ordering::order;
pub use pb_linear::{ReadBox, Sign, Step};
pub use refusal::GraphRefusal;
