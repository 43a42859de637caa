//! How many calls and cells a run has, and its greatest side, before anything is made.
//!
//! In: an accepted program, a valid configuration, a transform, its sizes, and how deep plans may call. Out: which of the calls, the
//! sides and the cells first passes its limit, if one does (`check_counts`). The parts of such a count: the sizes that matrices bind
//! (`bind`), whether they fit (`can_enter`, `fits`), at which sizes a call enters its transform (`sizes_of_call`), the sides of what
//! a plan names (`sides_of_slot`), and tallies: calls, greatest side and cells, none above `TALLY_TOP` (`Tally`, `of_matrices`,
//! `own_count`, `failed_call`).
//!
//! Each different call (a transform, its sizes and its depth) is looked at once, and remembered with what it counts. Nothing is
//! looked at after more calls are counted than a run may have.
//!
//! The theorems: each call answers exactly what the meaning of runs with calls says, with the laws `tallies_add_up` and
//! `a_tally_tells_each_limit`.
#![tactic(auto)]

mod binding;
mod calls;
mod count;
mod failed;
mod fitted;
mod fitting;
mod gathered;
mod laws;
mod limits;
mod matrices;
mod memo;
mod sides;
mod standing;
mod tally;

pub use binding::bind;
pub use count::MOST_CALLS;
pub use failed::failed_call;
pub use fitted::{sides_of_slots, sizes_of_call};
pub use fitting::{can_enter, fits};
pub use laws::{a_tally_tells_each_limit, a_well_formed_transform_is_callable, tallies_add_up};
pub use limits::check_counts;
pub use matrices::{of_decls, of_matrices, own_count};
pub use sides::{sides_of_decl, sides_of_slot, sides_of_view};
pub use tally::{TALLY_TOP, Tally};
