//! An instance of a transform as the tasks of a run: which cells each makes and reads and which links it has, over the matrices
//! one after the other in a row of cells.
//!
//! In: an accepted program, a valid configuration, the number of a transform, sizes in range, and the grain. Out: the frame of
//! the instance, its matrices as views of cells, the rectangles that each job makes and reads, and the graph of its tasks, one
//! for each job; or that there are too many tasks or links.
//!
//! The theorems are `places` and `plan`. The laws say that each cell is made once, and what is read is made before it
//! (`each_cell_is_made_once`, `predecessors_stand_before`, `what_is_read_is_made_before`), and that what `pb_taskgraph` asks of the
//! tasks that a pool runs holds of these (`the_tasks_of_an_instance_are_a_graph`).
#![tactic(auto)]

mod boxes;
mod jobs;
mod laid;
mod laws;
mod place_laws;
mod planned;
mod refusal;
mod tasks;

pub use boxes::view_boxes;
pub use jobs::{job_places, places};
pub use laid::{Laid, instance};
pub use laws::the_tasks_of_an_instance_are_a_graph;
pub use place_laws::{
    a_frame_has_the_jobs_of_its_instance, each_cell_is_made_once, jobs_have_places,
    predecessors_stand_before, what_is_read_is_made_before,
};
pub use planned::{Planned, plan};
pub use refusal::PlanRefusal;
