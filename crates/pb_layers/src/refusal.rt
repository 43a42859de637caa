use std::alloc::{AllocError, AllocFailed};

/// Why nodes have no layers.
#[derive(Debug, Drop)]
pub enum LayersRefusal {
    /// No list serves all edges inside the strong component of these nodes, which are in rising order. It is the first such
    /// component by its least node.
    NoOrder { nodes: Vec<u32> },
    Memory,
}

impl From<AllocError> for LayersRefusal {
    ghost use Rattle.std.specs.Prelude.{◌≡◌};
    ghost use Rattle.pb_layers.specs.declared.refusal.LayersRefusal.TheVariants.{Memory};

    ghost from_gives = { λ _ e. e ≡ Memory };

    fn from(_error: AllocError) -> LayersRefusal {
        LayersRefusal::Memory
    }
}

impl<T: Drop> From<AllocFailed<T>> for LayersRefusal {
    ghost use Rattle.std.specs.Prelude.{◌≡◌};
    ghost use Rattle.pb_layers.specs.declared.refusal.LayersRefusal.TheVariants.{Memory};

    ghost from_gives = { λ _ e. e ≡ Memory };

    fn from(_error: AllocFailed<T>) -> LayersRefusal {
        LayersRefusal::Memory
    }
}
