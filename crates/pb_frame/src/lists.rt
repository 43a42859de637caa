ghost use Rattle.std.specs.Prelude.{◌≡◌, ◌++◌, [], ◌∷◌, OnOk, if◌then◌else◌, max};

use std::alloc::AllocError;

/// Adds a number that passes a test.
pub(crate) fn push_if(list: &mut Vec<u32>, number: u32, test: bool) -> Result<(), AllocError>
    ensures { OnOk result (list.new.items ≡ list.old.items ++ (if test then number ∷ [] else [])) }
{
    if test {
        list.push(number)?;
    }
    Ok(())
}

pub(crate) fn greater(a: u64, b: u64) -> u64
    ensures { result ≡ max a b }
{
    a.max(b)
}
