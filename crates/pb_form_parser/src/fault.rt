use pb_syntax::Item;
use std::alloc::{AllocError, AllocFailed};

/// Why tokens have no tree, without what other refusals carry, since each function of the parser hands it on. `Memory`:
/// memory ran out.
#[derive(Clone, Copy)]
pub enum Fault {
    BadSyntax { at: u32 },
    OverLimit { what: Item, at: u32 },
    Memory,
}

impl From<AllocError> for Fault {
    ghost use Rattle.std.specs.Prelude.{◌≡◌};
    ghost use Rattle.pb_form_parser.specs.declared.fault.Fault.TheVariants.{Memory};

    ghost from_gives = { λ _ e. e ≡ Memory };

    fn from(_error: AllocError) -> Fault {
        Fault::Memory
    }
}

impl<T: Drop> From<AllocFailed<T>> for Fault {
    ghost use Rattle.std.specs.Prelude.{◌≡◌};
    ghost use Rattle.pb_form_parser.specs.declared.fault.Fault.TheVariants.{Memory};

    ghost from_gives = { λ _ e. e ≡ Memory };

    fn from(_error: AllocFailed<T>) -> Fault {
        Fault::Memory
    }
}
