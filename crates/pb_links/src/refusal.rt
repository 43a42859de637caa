use std::alloc::{AllocError, AllocFailed};

/// Why tasks have no links.
#[derive(Clone, Copy, Debug, PartialEq, Eq)]
pub enum LinksRefusal {
    /// There are more links than are allowed.
    TooMany,
    Memory,
}

impl From<AllocError> for LinksRefusal {
    ghost use Rattle.std.specs.Prelude.{◌≡◌};
    ghost use Rattle.pb_links.specs.declared.refusal.LinksRefusal.TheVariants.{Memory};

    ghost from_gives = { λ _ e. e ≡ Memory };

    fn from(_error: AllocError) -> LinksRefusal {
        LinksRefusal::Memory
    }
}

impl<T: Drop> From<AllocFailed<T>> for LinksRefusal {
    ghost use Rattle.std.specs.Prelude.{◌≡◌};
    ghost use Rattle.pb_links.specs.declared.refusal.LinksRefusal.TheVariants.{Memory};

    ghost from_gives = { λ _ e. e ≡ Memory };

    fn from(_error: AllocFailed<T>) -> LinksRefusal {
        LinksRefusal::Memory
    }
}
