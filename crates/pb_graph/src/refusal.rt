use std::alloc::{AllocError, AllocFailed};

/// Why segments have no order.
#[derive(Debug, Drop)]
pub enum GraphRefusal {
    /// No list serves all that the segments of these numbers read of each other, which lead round to each other; the numbers
    /// rise. They are the first such by their least number.
    NoOrder { segments: Vec<u32> },
    Memory,
}

impl From<AllocError> for GraphRefusal {
    ghost use Rattle.std.specs.Prelude.{◌≡◌};
    ghost use Rattle.pb_graph.specs.declared.refusal.GraphRefusal.TheVariants.{Memory};

    ghost from_gives = { λ _ e. e ≡ Memory };

    fn from(_error: AllocError) -> GraphRefusal {
        GraphRefusal::Memory
    }
}

impl<T: Drop> From<AllocFailed<T>> for GraphRefusal {
    ghost use Rattle.std.specs.Prelude.{◌≡◌};
    ghost use Rattle.pb_graph.specs.declared.refusal.GraphRefusal.TheVariants.{Memory};

    ghost from_gives = { λ _ e. e ≡ Memory };

    fn from(_error: AllocFailed<T>) -> GraphRefusal {
        GraphRefusal::Memory
    }
}
