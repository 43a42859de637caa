//! The top call: from the words of the command line and the files of a shelf to the bytes on two sinks.
//!
//! In: words, a shelf, two sinks. Out: the status, and the text of the answer on one of the sinks. The one
//! theorem is the clause `ends` of `pb_command`, and `pb_alone` has the same where it answers: `specs/Ends.antt` says how
//! a call ends, over `specs/Answer.antt`, which says what words and files have for an answer, by the steps of
//! `specs/Steps.antt`, `specs/Check.antt`, `specs/Runs.antt`, `specs/Tunes.antt` and `specs/Demos.antt`. By a law each command has the
//! statuses of `specs/Statuses.antt` alone.
//! `reply` names the statuses and the lines on `err`, `work` dispatches, `command` writes.
#![tactic(auto)]

mod check;
mod command;
mod demo;
mod files;
mod finish;
mod judge;
mod laws;
mod phases;
mod pools;
mod prepare;
mod put;
mod reply;
mod run;
mod steps;
mod tune;
mod work;

pub use command::{pb_alone, pb_command};
pub use laws::{
    a_checked_text_stays, a_command_has_its_statuses, faultless_calls_answer, one_reply,
    the_least_fault_of_names_is_told,
};
