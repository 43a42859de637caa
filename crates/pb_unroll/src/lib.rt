//! The answer of a run, once its tasks have been run.
//!
//! In: a run of a transform, with all calls of its plans, and the outcomes of all its cells. Out: the first trapped cell of its first
//! call, with the trap; and the matrices that this call gives, or their texts. The theorems are `first_trapped`, `result_matrices` and
//! `results_text`.
//! What a command needs before that is handed on from the crates below: the transform of a name (`enter`), and the run of a
//! transform with matrices (`unroll`); and the cost of a configuration (`cost`).
#![tactic(auto)]

mod places;
mod results;
mod texts;
mod trapped;

pub use pb_cost::cost;
pub use pb_entry::{Count, RunRefusal, enter};
pub use pb_run_work::{Run, unroll};
pub use results::{result_matrices, results_text};
pub use trapped::{TrappedCell, first_trapped};
