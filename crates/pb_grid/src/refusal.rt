use pb_linear::{Form, Sizes, SymBox};
use std::alloc::{AllocError, AllocFailed};

/// Why a matrix can't be cut into segments. `axis` is 0 for x and 1 for y.
#[derive(Clone, Copy, PartialEq, Eq, Debug)]
pub enum GridRefusal {
    /// Neither of two cuts is at most the other at all sizes; `over` are the sizes at which the first is above the second
    /// by the most, and `under` those at which the second is above the first.
    Crossing {
        axis: u8,
        first: Form,
        second: Form,
        over: Sizes,
        under: Sizes,
    },
    /// There are more than 32 cuts on an axis, or more than 256 segments.
    TooManySegments,
    /// No unguarded rule makes the cells of this segment.
    Uncovered {
        area: SymBox,
    },
    Memory,
}

impl From<AllocError> for GridRefusal {
    ghost use Rattle.std.specs.Prelude.{◌≡◌};
    ghost use Rattle.pb_grid.specs.declared.refusal.GridRefusal.TheVariants.{Memory};

    ghost from_gives = { λ _ e. e ≡ Memory };

    fn from(_error: AllocError) -> GridRefusal {
        GridRefusal::Memory
    }
}

impl<T: Drop> From<AllocFailed<T>> for GridRefusal {
    ghost use Rattle.std.specs.Prelude.{◌≡◌};
    ghost use Rattle.pb_grid.specs.declared.refusal.GridRefusal.TheVariants.{Memory};

    ghost from_gives = { λ _ e. e ≡ Memory };

    fn from(_error: AllocFailed<T>) -> GridRefusal {
        GridRefusal::Memory
    }
}
