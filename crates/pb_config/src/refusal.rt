use std::alloc::{AllocError, AllocFailed};
use thiserror::Error;

/// The first fault of a text that is no configuration of a program, with the number of its line, from 1. `Memory`:
/// memory ran out.
#[derive(Debug, Drop, Error)]
pub enum ConfigRefusal {
    #[error("line {line} isn't of the form")]
    BadLine { line: u64 },
    #[error("line {line} names no such place")]
    UnknownPlace { line: u64 },
    #[error("line {line} has a rule that isn't in its set")]
    NotInSet { line: u64 },
    #[error("line {line} has cutoffs that don't rise")]
    CutoffsNotRising { line: u64 },
    #[error("line {line} has the site of an earlier line")]
    Twice { line: u64 },
    #[error("out of memory")]
    Memory,
}

impl From<AllocError> for ConfigRefusal {
    ghost use Rattle.std.specs.Prelude.{◌≡◌};
    ghost use Rattle.pb_config.specs.declared.refusal.ConfigRefusal.TheVariants.{Memory};

    ghost from_gives = { λ _ e. e ≡ Memory };

    fn from(_error: AllocError) -> ConfigRefusal {
        ConfigRefusal::Memory
    }
}

impl<T: Drop> From<AllocFailed<T>> for ConfigRefusal {
    ghost use Rattle.std.specs.Prelude.{◌≡◌};
    ghost use Rattle.pb_config.specs.declared.refusal.ConfigRefusal.TheVariants.{Memory};

    ghost from_gives = { λ _ e. e ≡ Memory };

    fn from(_error: AllocFailed<T>) -> ConfigRefusal {
        ConfigRefusal::Memory
    }
}
