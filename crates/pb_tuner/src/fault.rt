use std::alloc::{AllocError, AllocFailed};

/// Why nothing was found. `JudgeFault`: the judge failed at this size, after so many answers. `Memory`: memory ran out.
#[derive(Debug, Drop)]
pub enum TuneFault {
    JudgeFault { size: u64, asked: u64 },
    Memory,
}

impl From<AllocError> for TuneFault {
    ghost use Rattle.std.specs.Prelude.{◌≡◌};
    ghost use Rattle.pb_tuner.specs.declared.fault.TuneFault.TheVariants.{Memory};

    ghost from_gives = { λ _ e. e ≡ Memory };

    fn from(_error: AllocError) -> TuneFault {
        TuneFault::Memory
    }
}

impl<T: Drop> From<AllocFailed<T>> for TuneFault {
    ghost use Rattle.std.specs.Prelude.{◌≡◌};
    ghost use Rattle.pb_tuner.specs.declared.fault.TuneFault.TheVariants.{Memory};

    ghost from_gives = { λ _ e. e ≡ Memory };

    fn from(_error: AllocFailed<T>) -> TuneFault {
        TuneFault::Memory
    }
}
