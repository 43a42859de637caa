//! Configurations: reading their text, with the line of its first fault, writing it, what one chooses, and one more level.
//!
//! In: the bytes of a file, or a configuration, and the program that it is for. Out: the configuration or the first
//! fault; its text; the rule that is chosen; the extended configuration. The theorem: `read_config` gives just what the
//! text says, and what is printed of a valid configuration is read as it, by the law `printed_is_read`.
#![tactic(auto)]

mod choice;
mod chosen;
mod entries;
mod extension;
mod laws;
mod lines;
mod parts;
mod print;
mod read;
mod refusal;
mod site;

pub use chosen::choose;
pub use extension::extend;
pub use laws::{an_extension_chooses_from_its_size, printed_is_read};
pub use print::print_config;
pub use read::read_config;
pub use refusal::ConfigRefusal;
