//! What one instance of a transform makes at its sizes.
//!
//! In: an accepted program, a valid configuration, the number of a transform, sizes in range, and the grain. Out: each segment
//! that has a cell, with the rule that is chosen for its cells; and what is made at once, layer by layer: the rules that make
//! more than a cell, and the blocks of cells that are made one by one. The theorem is `frame`, with the laws
//! `a_part_has_the_rule_of_its_cells`, `each_cell_lies_in_one_part` and `blocks_reach_each_place`.
#![tactic(auto)]

mod blocks;
mod choice;
mod guard;
mod job;
mod laws;
mod layers;
mod lists;
mod part;
mod parts;
mod tasks;
mod wides;

pub use blocks::cut_by;
pub use job::Job;
pub use laws::{
    a_part_has_the_rule_of_its_cells, blocks_reach_each_place, each_cell_lies_in_one_part,
};
pub use part::FramePart;
pub use parts::has_place;
pub use tasks::{FrameTasks, frame};
