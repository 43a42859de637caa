//! How the cells of a job are made.
//!
//! In: an instance of a transform, that is a program, the number of the transform, sizes, and its matrices as views of cells; a
//! job, that is the rectangles that it makes, with their rules; and a port, which tells what has been made, and takes the cells
//! of the job one after another. Out: all that the port still has to be given, has been given. The theorem is `run_job`. It
//! knows no run: what it asks for is said of the port's turn alone, so it serves any run with any number of instances.
//!
//! Only `rule_windows` and `RunScratch::new` take memory.
#![tactic(auto)]

mod advance;
mod block;
mod cells;
mod formulas;
mod instance;
mod job;
mod laws;
mod lines;
mod making;
mod outputs;
mod room;
mod scratch;
mod shown;
mod stretches;
mod wholes;
mod windows;

pub use instance::Instance;
pub use job::{Job, run_job};
pub use laws::{
    a_job_has_room_where_there_is_more, a_task_of_a_plan_can_be_made, each_rule_has_a_need,
};
pub use room::{Rooms, job_rooms};
pub use scratch::RunScratch;
pub use windows::{Windows, rule_windows};
