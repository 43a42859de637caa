//! The phases that judge a program, one after the other, and what they find of it.
//!
//! In: the text of a program, or a program whose names are resolved. Out: the program with the segments of each transform
//! and the order in which they are made, where every phase accepts it; else why the first that finds a fault refuses it.
//! The theorem: a program is accepted or refused for one reason, places play no part in which of the two, the rules that
//! may make a cell are among those of its one segment (`Accepted::covered`), and whatever rule a valid configuration
//! chooses, each cell that it reads of a matrix that rules make has a smaller rank (`Accepted::ranked`,
//! `no_cell_waits_for_itself`).
#![tactic(auto)]

mod accepted;
mod bounds;
mod cuts;
mod laws;
mod named;
mod orders;
mod phases;
mod segments;
mod sites;

pub use accepted::{Accepted, accept};
pub use laws::{
    a_program_is_sound_or_refused, a_text_has_one_answer, each_cell_has_a_lawful_rule,
    no_cell_waits_for_itself, soundness_doesnt_depend_on_places,
    the_segment_of_a_cell_has_its_lawful_rules,
};
pub use named::named_segments;
pub use orders::Analysis;
pub use phases::judge;
pub use sites::sites_of;
