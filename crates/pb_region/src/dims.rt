ghost use Rattle.std.specs.Prelude.{◌≡◌, ◌<◌, ◌≤◌, IfErr, IfSome, MatchOption, OnOk, length};
ghost use Rattle.pb_linear.specs.Form.{numbers};
ghost use Rattle.pb_linear.specs.Held.{AreHeld};
ghost use Rattle.pb_linear.specs.Sizes.{IsRanges, leasts_of};
ghost use Rattle.pb_syntax.specs.declared.limits.TheConstants.{MOST_MATRICES};
ghost use Rattle.pb_program.specs.Trees.{bare_prog, bare_transform};
ghost use Rattle.pb_program.specs.WellFormed.{IsWellFormed};
ghost use Rattle.pb_region.specs.Dims.{AreSides, AtTransform, HasNoNegative, HasTransform, HaveNoNegative, IsFirstAxis, IsFirstNegative, IsNegative, IsNeverNegative, IsRefused};
ghost use Rattle.pb_region.specs.Small.{IsSmallTransform};

use crate::forms::negative;
use crate::place::transform_at;
use pb_linear::{Form, Ranges, Sizes};
use pb_program::{Decl, Prog, Transform};
use pb_syntax::Refusal;

/// Whether each side of each matrix of transform `t` is at least 0 at all sizes in range: `NegativeDim` with the first
/// that isn't, in the order of the text, and the sizes that make its negative greatest. It takes no memory.
#[tactic(auto, using(crate::proofs::RuleLemmas::at_transform, crate::proofs::RuleLemmas::has_transform))]
pub fn check_dims(p: &Prog, t: u32) -> Result<(), Refusal>
    requires { IsWellFormed (bare_prog p.now) }
    ensures found { OnOk result (AtTransform (bare_prog p.now) t AreSides) }
    ensures refused { IfErr result (λ e. HasTransform (bare_prog p.now) t (λ transform. IsRefused t transform e)) }
{
    match transform_at(p, t) {
        Some(transform) => check_sides(transform, t),
        None => Ok(()),
    }
}

fn check_sides(transform: &Transform, t: u32) -> Result<(), Refusal>
    requires { IsSmallTransform (bare_transform transform.now) }
    ensures found { OnOk result (AreSides (bare_transform transform.now)) }
    ensures refused { IfErr result (IsRefused t (bare_transform transform.now)) }
{
    match negative_side(&transform.ranges, &transform.matrices) {
        Some(found) => Err(Refusal::NegativeDim {
            transform: t,
            matrix: found.matrix,
            axis: found.axis,
            sizes: found.sizes,
        }),
        None => Ok(()),
    }
}

/// A side that is negative at these sizes, by its matrix and its axis.
#[derive(Clone, Copy)]
struct NegativeSide {
    matrix: u32,
    axis: u8,
    sizes: Sizes,
}

/// The first side that is negative at some sizes.
fn negative_side(ranges: &Ranges, matrices: &[Decl]) -> Option<NegativeSide>
    requires ranges { IsRanges ranges.now }
    requires few { length matrices.now ≤ MOST_MATRICES }
    ensures { let leasts = leasts_of ranges.now in MatchOption result (HaveNoNegative leasts matrices.now) (λ f. IsFirstNegative leasts matrices.now f.matrix f.axis f.sizes) }
{
    for (number, matrix) in matrices.iter().enumerate() {
        if let Some((axis, sizes)) = negative_axis(ranges, matrix) {
            return Some(NegativeSide {
                matrix: number as u32,
                axis,
                sizes,
            });
        }
    }
    None
}

/// The first axis of a matrix whose side is negative at some sizes, with these.
fn negative_axis(ranges: &Ranges, matrix: &Decl) -> Option<(u8, Sizes)>
    requires { IsRanges ranges.now }
    ensures { let leasts = leasts_of ranges.now in MatchOption result (HasNoNegative leasts matrix.now) (λ f. IsFirstAxis leasts matrix.now f.0 f.1) }
{
    if let Some(sizes) = negative_sizes(ranges, &matrix.w) {
        return Some((0, sizes));
    }
    if matrix.dims == 1 {
        return None;
    }
    let sizes = negative_sizes(ranges, &matrix.h)?;
    Some((1, sizes))
}

/// Sizes as a refusal carries them: as many as the ranges are.
fn held(ranges: Ranges, sizes: Sizes) -> Sizes
    requires few { ranges.count ≤ 8 }
    requires counted { sizes.count ≡ ranges.count }
    ensures same { result ≡ sizes }
    ensures held { AreHeld (length (leasts_of ranges)) result }
{
    sizes
}

/// The sizes at which a side is negative, and its negative greatest.
fn negative_sizes(ranges: &Ranges, side: &Form) -> Option<Sizes>
    requires { IsRanges ranges.now }
    ensures { let leasts = leasts_of ranges.now in MatchOption result (IsNeverNegative leasts (numbers side.now)) (IsNegative leasts (numbers side.now)) }
{
    let (most, sizes) = negative(side).most(ranges);
    if 0 < most {
        Some(held(*ranges, sizes))
    } else {
        None
    }
}
