//! Accepted programs, and their sizes.
ghost use Rattle.std.specs.Prelude.{◌≡◌, ◌≤◌, IsTrue};
ghost use Rattle.std.specs.List.{All};
ghost use Rattle.pb_linear.specs.declared.sizes.TheConstants.{SIZE_TOP};
ghost use Rattle.pb_linear.specs.Sizes.{InRange, leasts_of, sizes_of};
ghost use Rattle.pb_program.specs.Trees.{bare_prog};
ghost use Rattle.pb_program.specs.WellFormed.{IsWellFormed};
ghost use Rattle.pb_check.specs.Ranked.{OfTransform};

use pb_check::{Accepted, accept};
use pb_linear::{SIZE_TOP, Sizes};
use pb_program::Prog;
use pb_syntax::Refusal;
use std::alloc::{AllocError, Global};

pub(crate) fn program(a: &Accepted) -> &Prog
    ensures same { result.now ≡ a.now.program }
    ensures well_formed { IsWellFormed (bare_prog result.now) }
{
    a.prog()
}

// Whether these are sizes of the transform, in range.
pub(crate) fn are_in_range(a: &Accepted, t: u32, s: &Sizes) -> bool
    ensures { IsTrue result → OfTransform a.now t (λ transform found. InRange (leasts_of transform.ranges) (sizes_of s.now)) }
{
    let Some(transform) = a.prog().transforms.get(t as usize) else {
        return false;
    };
    if a.analyses().get(t as usize).is_none() {
        return false;
    }
    transform.ranges.hold(s)
}

pub(crate) fn one(n: u64) -> Sizes {
    Sizes {
        count: 1,
        of: [n, 0, 0, 0, 0, 0, 0, 0],
    }
}

pub(crate) fn two(n: u64, m: u64) -> Sizes {
    Sizes {
        count: 2,
        of: [n, m, 0, 0, 0, 0, 0, 0],
    }
}

pub(crate) fn are_small(s: &Sizes) -> bool
    ensures { IsTrue result → All (λ size. size ≤ SIZE_TOP) s.now.of }
{
    s.of.iter().all(|size| *size <= SIZE_TOP)
}

// The program that a text is, which is accepted.
pub(crate) fn accepted(alloc: Global, text: &str) -> Result<Option<Accepted>, AllocError> {
    match accept(alloc, text.as_bytes()) {
        Ok(found) => Ok(Some(found)),
        Err(Refusal::Memory) => Err(AllocError),
        Err(_) => Ok(None),
    }
}
