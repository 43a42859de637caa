use pb_links::LinksRefusal;
use std::alloc::{AllocError, AllocFailed};

/// Why an instance has no plan.
#[derive(Clone, Copy, Debug, PartialEq, Eq)]
pub enum PlanRefusal {
    /// There are more tasks than `MOST_TASKS`.
    Tasks,
    /// There are more links than `MOST_LINKS`.
    Links,
    Memory,
}

impl From<AllocError> for PlanRefusal {
    ghost use Rattle.std.specs.Prelude.{◌≡◌};
    ghost use Rattle.pb_plan.specs.declared.refusal.PlanRefusal.TheVariants.{Memory};

    ghost from_gives = { λ _ e. e ≡ Memory };

    fn from(_error: AllocError) -> PlanRefusal {
        PlanRefusal::Memory
    }
}

impl<T: Drop> From<AllocFailed<T>> for PlanRefusal {
    ghost use Rattle.std.specs.Prelude.{◌≡◌};
    ghost use Rattle.pb_plan.specs.declared.refusal.PlanRefusal.TheVariants.{Memory};

    ghost from_gives = { λ _ e. e ≡ Memory };

    fn from(_error: AllocFailed<T>) -> PlanRefusal {
        PlanRefusal::Memory
    }
}

impl From<LinksRefusal> for PlanRefusal {
    ghost use Rattle.std.specs.Prelude.{◌≡◌};
    ghost use Rattle.pb_plan.specs.Planned.{of_links};

    ghost from_gives = { λ r e. e ≡ of_links r };

    fn from(refusal: LinksRefusal) -> PlanRefusal {
        match refusal {
            LinksRefusal::TooMany => PlanRefusal::Links,
            LinksRefusal::Memory => PlanRefusal::Memory,
        }
    }
}
