//! The lines on `err` for configurations and runs that are refused, and for a run that is trapped.
//!
//! In: a refusal, or a trapped cell with its trap, and the transforms of the program, whose names the line tells. Out: the line,
//! with its end. The theorem: `config_line`, `run_line` and `trap_line` give the bytes of their definitions.
#![tactic(auto)]

mod config;
mod laws;
mod names;
mod run;
mod text;
mod trap;

pub use config::config_line;
pub use laws::the_limits_of_counts_are_these;
pub use run::run_line;
pub use trap::trap_line;
