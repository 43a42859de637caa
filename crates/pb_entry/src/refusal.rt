use std::alloc::{AllocError, AllocFailed};

/// What is counted of a run: its calls, its greatest side, its cells, its tasks, and the links between them.
#[derive(Clone, Copy, Debug, PartialEq, Eq)]
pub enum Count {
    Calls,
    Side,
    Cells,
    Tasks,
    Links,
}

/// Why a run can't be entered.
#[derive(Clone, Copy, Debug, PartialEq, Eq)]
pub enum RunRefusal {
    /// No transform has the name.
    UnknownTransform,
    /// The transform takes another number of matrices.
    WrongCount {
        wanted: u32,
        given: u32,
    },
    /// The matrix with this number has another width (`axis` 0), height (1), or number of dimensions (2).
    BadShape {
        matrix: u32,
        axis: u8,
        wanted: u64,
        found: u64,
    },
    /// The value of a size variable is below its least value or above the greatest.
    SizeOutOfRange {
        size: u32,
        value: u64,
    },
    /// A count of the run passes its limit.
    TooLarge {
        what: Count,
    },
    Memory,
}

impl From<AllocError> for RunRefusal {
    ghost use Rattle.std.specs.Prelude.{◌≡◌};
    ghost use Rattle.pb_entry.specs.declared.refusal.RunRefusal.TheVariants.{Memory};

    ghost from_gives = { λ _ e. e ≡ Memory };

    fn from(_error: AllocError) -> RunRefusal {
        RunRefusal::Memory
    }
}

impl<T: Drop> From<AllocFailed<T>> for RunRefusal {
    ghost use Rattle.std.specs.Prelude.{◌≡◌};
    ghost use Rattle.pb_entry.specs.declared.refusal.RunRefusal.TheVariants.{Memory};

    ghost from_gives = { λ _ e. e ≡ Memory };

    fn from(_error: AllocFailed<T>) -> RunRefusal {
        RunRefusal::Memory
    }
}
