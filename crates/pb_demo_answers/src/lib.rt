//! That neither run of the demonstration is too large or trapped.
//!
//! In: definitions alone. The two programs and their matrices (`pb_gen`), with the configurations and names beside them (`pb_demo`). The
//! theorems are laws: a run's calls, sides, cells, tasks and links are within their limits (`a_demonstration_is_within_limits`), and
//! none of its cells is trapped (`a_demonstration_traps_no_cell`). Tasks and links are counted along the calls of the product: a
//! call of one row has at most 16 tasks, which read the inputs alone, and each halving adds two copies.
#![tactic(auto)]

mod laws;

pub use laws::{a_demonstration_is_within_limits, a_demonstration_traps_no_cell};
