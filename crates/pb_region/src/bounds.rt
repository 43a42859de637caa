ghost use Rattle.std.specs.Prelude.{◌≡◌, ◌<◌, ◌^◌, ◌++◌, IfErr, IfOk, OnOk, map, option_map, negsuc, not, position, unsigned_abs};
ghost use Rattle.std.specs.List.{list_any};
ghost use Rattle.std.specs.Option.{option_to_list};
ghost use Rattle.pb_linear.specs.Form.{numbers};
ghost use Rattle.pb_linear.specs.Sizes.{IsRanges, leasts_of};
ghost use Rattle.pb_syntax.specs.declared.refusal.Refusal.TheVariants.{Memory};
ghost use Rattle.pb_region.specs.Boxes.{coefficient, from_one, is_box, is_guard, is_unit, bound, bounds};

use crate::forms::{negative, raised};
use crate::gap::Gap;
use pb_linear::{Form, Ranges};
use pb_syntax::Refusal;
use std::alloc::Global;

/// The axes of a matrix.
#[derive(Clone, Copy)]
pub(crate) enum Axis {
    X,
    Y,
}

/// The sides on which a bound keeps a rule variable.
#[derive(Clone, Copy)]
pub(crate) enum Side {
    Lower,
    Upper,
}

fn coefficient(axis: Axis, gap: &Gap) -> i64
    ensures { result ≡ coefficient axis gap.now }
{
    match axis {
        Axis::X => gap.form.x,
        Axis::Y => gap.form.y,
    }
}

fn is_unit(k: i64) -> bool
    ensures { result ≡ is_unit k }
{
    -1 <= k && k <= 1
}

/// Whether a condition bounds a box, or has no rule variable.
fn is_box(gap: &Gap) -> bool
    ensures { result ≡ is_box gap.now }
{
    let x = gap.form.x;
    let y = gap.form.y;
    !gap.quotient && ((is_unit(x) && y == 0) || (x == 0 && is_unit(y)))
}

/// The number of the first condition that bounds no box.
pub(crate) fn first_no_box(gaps: &[Gap]) -> Option<usize>
    ensures { result ≡ position (λ g. not (is_box g)) gaps.now }
{
    gaps.iter().position(|gap| !is_box(gap))
}

/// Whether a condition has no rule variable and isn't true at all sizes in range.
fn is_guard(ranges: &Ranges, gap: &Gap) -> bool
    requires { IsRanges ranges.now }
    ensures { result ≡ is_guard (leasts_of ranges.now) gap.now }
{
    gap.form.x == 0 && gap.form.y == 0 && !gap.form.rest.everywhere_le0(ranges)
}

pub(crate) fn is_guarded(ranges: &Ranges, gaps: &[Gap]) -> bool
    requires { IsRanges ranges.now }
    ensures { result ≡ list_any (is_guard (leasts_of ranges.now)) gaps.now }
{
    gaps.iter().any(|gap| is_guard(ranges, gap))
}

/// 1 minus a form.
fn from_one(form: &Form) -> Form
    requires { unsigned_abs form.now.constant < 2 ^ 26 }
    ensures { numbers result ≡ from_one (numbers form.now) }
{
    raised(&negative(form), 1)
}

/// The bound that a condition gives on an axis, if it gives one there.
fn bound(side: Side, axis: Axis, gap: &Gap) -> Option<Form>
    ensures { option_map numbers result ≡ bound side axis gap.now }
{
    let coefficient = coefficient(axis, gap);
    match side {
        Side::Lower if coefficient == -1 => Some(gap.form.rest),
        Side::Upper if coefficient == 1 => Some(from_one(&gap.form.rest)),
        _ => None,
    }
}

fn push_bound(bounds: &mut Vec<Form>, bound: Option<Form>) -> Result<(), Refusal>
    ensures found { OnOk result (map numbers bounds.new.items ≡ map numbers bounds.old.items ++ option_to_list (option_map numbers bound)) }
    ensures refused { IfErr result (λ e. e ≡ Memory) }
{
    if let Some(bound) = bound {
        bounds.push(bound)?;
    }
    Ok(())
}

/// The bounds on an axis, in the order of the conditions. An upper bound is exclusive.
#[tactic(auto, using(crate::proofs::BoundLemmas::bounds_more, crate::proofs::BoundLemmas::bounds_none))]
pub(crate) fn bounds(
    alloc: Global,
    side: Side,
    axis: Axis,
    gaps: &[Gap],
) -> Result<Vec<Form>, Refusal>
    ensures found { IfOk result (λ bs. map numbers bs.items ≡ bounds side axis gaps.now) }
    ensures refused { IfErr result (λ e. e ≡ Memory) }
{
    let mut bounds = Vec::new(alloc);
    for gap in gaps {
        push_bound(&mut bounds, bound(side, axis, gap))?;
    }
    Ok(bounds)
}
