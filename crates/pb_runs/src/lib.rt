//! What a run with plans is made of: the steps of all its calls, the matrices that they fill, and what each step may rely on.
//!
//! In: definitions alone. An accepted program with what is found of its transforms, a valid configuration, a transform with the
//! matrices that are given to it, and how many calls deep its plans may call. Out: a list of steps, each of which makes some cells
//! by computing rules, as copies of others, or as traps of a call that can't be made; and where each matrix stands among the cells
//! of the run, also one that is a view of another. The theorems are laws. What the first call gives stands where its seats say
//! (`a_run_gives_what_its_call_means`). Each step makes its cells as their rules say (`each_step_is_right`), and each cell is made
//! once (`each_cell_of_a_run_is_made_once`), in a part of its step (`the_parts_of_a_step_have_its_cells`). What a step reads lies in
//! its boxes (`what_a_step_reads_lies_in_its_boxes`), and each cell of a box is given, or made by an earlier step or by the step
//! itself (`what_a_step_reads_is_made_before`). Where the maker is another step, the step waits for it
//! (`what_a_step_reads_is_linked`), and it waits for earlier steps alone (`a_step_waits_for_earlier_ones`). How many calls and cells
//! there are, and how long the longest side is, follows from the sides of the inputs (`a_run_is_counted_from_its_sides`).
#![tactic(auto)]

mod laws;

pub use laws::{
    a_run_gives_what_its_call_means, a_run_is_counted_from_its_sides,
    a_step_may_read_what_its_cells_read, a_step_waits_for_earlier_ones,
    each_cell_of_a_run_is_made_once, each_step_is_right, the_outcomes_of_a_run_are_small,
    the_parts_of_a_step_have_its_cells, what_a_step_reads_is_linked,
    what_a_step_reads_is_made_before,
};
