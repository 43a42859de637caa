ghost use Rattle.std.specs.Prelude.{◌≡◌};
ghost use Rattle.pb_names.specs.Transforms.{refusal_of};

use pb_syntax::Refusal;
use pb_values::Name;
use std::alloc::{AllocError, AllocFailed};

/// What is wrong with a name: it is there already; it isn't there; it is no size variable; or, by its place, it is a matrix
/// that a rule can't write so. `Memory`: memory ran out.
#[derive(Drop)]
pub enum Fault {
    Duplicate(Name),
    Unknown(Name),
    NotBound(Name),
    BadOutput(u32),
    Memory,
}

impl From<AllocError> for Fault {
    ghost use Rattle.std.specs.Prelude.{◌≡◌};
    ghost use Rattle.pb_names.specs.declared.fault.Fault.TheVariants.{Memory};

    ghost from_gives = { λ _ e. e ≡ Memory };

    fn from(_error: AllocError) -> Fault {
        Fault::Memory
    }
}

impl<T: Drop> From<AllocFailed<T>> for Fault {
    ghost use Rattle.std.specs.Prelude.{◌≡◌};
    ghost use Rattle.pb_names.specs.declared.fault.Fault.TheVariants.{Memory};

    ghost from_gives = { λ _ e. e ≡ Memory };

    fn from(_error: AllocFailed<T>) -> Fault {
        Fault::Memory
    }
}

/// The refusal of a fault.
pub fn refusal(fault: Fault) -> Refusal
    ensures { result ≡ refusal_of fault }
{
    match fault {
        Fault::Duplicate(name) => {
            let at = name.at();
            Refusal::DuplicateName { name, at }
        }
        Fault::Unknown(name) => {
            let at = name.at();
            Refusal::UnknownName { name, at }
        }
        Fault::NotBound(name) => {
            let at = name.at();
            Refusal::SizeNotBound { name, at }
        }
        Fault::BadOutput(at) => Refusal::BadOutput { at },
        Fault::Memory => Refusal::Memory,
    }
}
