//! The outside of the program: where it takes its files from, and where it puts its bytes.
//!
//! In: a file's name with the most bytes that it may have; a piece to put. Out: the file's bytes or why
//! there are none, and how much of the piece was put. `Shelf` and `Sink` say it once for all who
//! implement them: in memory, where the content is told, and over the real files and streams, where it
//! isn't and only the causes hold. A shelf that notes the names that it is asked stands before another one.
#![tactic(auto)]

mod file_shelf;
mod mem_shelf;
mod mem_sink;
mod noting_shelf;
mod shelf;
mod sink;
mod std_sink;

pub use file_shelf::FileShelf;
pub use mem_shelf::MemShelf;
pub use mem_sink::MemSink;
pub use noting_shelf::NotingShelf;
pub use shelf::{FILE_LIMIT, Shelf, Take, the_limit_of_files_is_this};
pub use sink::{Refused, Sink};
pub use std_sink::StdSink;
