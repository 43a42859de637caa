//! Comes in: the number of nodes, pairs of nodes that must share a layer, and edges, each with the lists that serve it. Goes
//! out: the layer of each node and the list of each layer, such that an edge goes to a lower layer or stays and is served; or
//! the nodes of the first strong component that no list serves.
//!
//! The theorem is `layers_of` with the laws `a_used_order_is_an_order` and `nodes_have_one_answer`: it answers layers exactly
//! where an order exists, memory aside.
#![tactic(auto)]

mod components;
mod graph;
mod keys;
mod laws;
mod layers;
mod link;
mod lists;
mod order;
mod reach;
mod refusal;
mod walk;

pub use laws::{a_used_order_is_an_order, nodes_have_one_answer};
pub use layers::{Layer, Layers};
pub use link::{Edge, LISTS, Link};
pub use order::layers_of;
pub use refusal::LayersRefusal;
