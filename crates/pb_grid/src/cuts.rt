ghost use Rattle.std.specs.Prelude.{◌≡◌, ◌≤◌, ◌++◌, IfErr, IfOk, OnOk, filter, length};
ghost use Rattle.std.specs.List.{All, list_any, position_or_len};
ghost use Rattle.pb_linear.specs.Sizes.{IsRanges, leasts_of};
ghost use Rattle.pb_grid.specs.declared.refusal.GridRefusal.TheVariants.{Memory};
ghost use Rattle.pb_grid.specs.Cuts.{AreSmall, bounds_on, cuts, is_inner, IsSmallBox, le, listed, same};
ghost use Rattle.pb_grid.specs.Lists.{firsts, in_order, placed};

use crate::axis::{Axis, lower, upper};
use crate::forms::{are_same, is_at_most, zero};
use crate::refusal::GridRefusal;
use pb_linear::{Form, Ranges, RuleBox};
use std::alloc::Global;

/// Whether a bound is above 0 at some sizes and below the side at some.
fn is_inner(ranges: &Ranges, side: &Form, bound: &Form) -> bool
    requires ranges { IsRanges ranges.now }
    requires side { AreSmall side.now }
    requires bound { AreSmall bound.now }
    ensures { result ≡ is_inner (leasts_of ranges.now) side.now bound.now }
{
    !is_at_most(ranges, bound, &zero()) && !is_at_most(ranges, side, bound)
}

/// Adds the inner ones of these bounds at the end of a list.
fn push_inner(
    ranges: &Ranges,
    side: &Form,
    list: &mut Vec<Form>,
    bounds: &[Form],
) -> Result<(), GridRefusal>
    requires ranges { IsRanges ranges.now }
    requires side { AreSmall side.now }
    requires bounds { All AreSmall bounds.now }
    requires list { All AreSmall list.old.items }
    ensures found { OnOk result (list.new.items ≡ list.old.items ++ filter (is_inner (leasts_of ranges.now) side.now) bounds.now) }
    ensures small { OnOk result (All AreSmall list.new.items) }
    ensures refused { IfErr result (λ e. e ≡ Memory) }
{
    for bound in bounds {
        if !is_inner(ranges, side, bound) {
            continue;
        }
        list.push(*bound)?;
    }
    Ok(())
}

/// 0, the side, and the inner bounds of the boxes in their order.
fn listed(
    alloc: Global,
    ranges: &Ranges,
    axis: Axis,
    side: &Form,
    boxes: &[RuleBox],
) -> Result<Vec<Form>, GridRefusal>
    requires ranges { IsRanges ranges.now }
    requires side { AreSmall side.now }
    requires boxes { All IsSmallBox boxes.now }
    ensures found { IfOk result (λ fs. fs.items ≡ listed (leasts_of ranges.now) axis side.now boxes.now) }
    ensures small { IfOk result (λ fs. All AreSmall fs.items) }
    ensures refused { IfErr result (λ e. e ≡ Memory) }
{
    let mut list = Vec::new(alloc);
    list.push(zero())?;
    list.push(*side)?;
    for rule_box in boxes {
        push_inner(ranges, side, &mut list, lower(axis, rule_box))?;
        push_inner(ranges, side, &mut list, upper(axis, rule_box))?;
    }
    Ok(list)
}

/// Whether one of the cuts equals a form at all sizes in range.
fn is_known(ranges: &Ranges, cuts: &[Form], form: &Form) -> bool
    requires ranges { IsRanges ranges.now }
    requires cuts { All AreSmall cuts.now }
    requires form { AreSmall form.now }
    ensures { result ≡ list_any (λ cut. same (leasts_of ranges.now) cut form.now) cuts.now }
{
    for cut in cuts {
        if are_same(ranges, cut, form) {
            return true;
        }
    }
    false
}

/// Of equal forms the first.
fn firsts(alloc: Global, ranges: &Ranges, list: &[Form]) -> Result<Vec<Form>, GridRefusal>
    requires ranges { IsRanges ranges.now }
    requires list { All AreSmall list.now }
    ensures found { IfOk result (λ fs. fs.items ≡ firsts (same (leasts_of ranges.now)) list.now) }
    ensures small { IfOk result (λ fs. All AreSmall fs.items) }
    ensures refused { IfErr result (λ e. e ≡ Memory) }
{
    let mut cuts = Vec::new(alloc);
    for form in list {
        if is_known(ranges, &cuts, form) {
            continue;
        }
        cuts.push(*form)?;
    }
    Ok(cuts)
}

/// The cuts of an axis in the order of the boxes.
#[tactic(auto, unfolding(crate::specs::Cuts::cuts))]
pub(crate) fn cuts(
    alloc: Global,
    ranges: &Ranges,
    axis: Axis,
    side: &Form,
    boxes: &[RuleBox],
) -> Result<Vec<Form>, GridRefusal>
    requires ranges { IsRanges ranges.now }
    requires side { AreSmall side.now }
    requires boxes { All IsSmallBox boxes.now }
    ensures found { IfOk result (λ fs. fs.items ≡ cuts (leasts_of ranges.now) axis side.now boxes.now) }
    ensures small { IfOk result (λ fs. All AreSmall fs.items) }
    ensures refused { IfErr result (λ e. e ≡ Memory) }
{
    firsts(alloc, ranges, &listed(alloc, ranges, axis, side, boxes)?)
}

/// The number of cuts before the first that a form is at most.
fn place_of(ranges: &Ranges, cuts: &[Form], form: &Form) -> usize
    requires ranges { IsRanges ranges.now }
    requires cuts { All AreSmall cuts.now }
    requires form { AreSmall form.now }
    ensures found { result ≡ position_or_len (le (leasts_of ranges.now) form.now) cuts.now }
    ensures there { result ≤ length cuts.now }
{
    for (place, cut) in cuts.iter().enumerate() {
        if is_at_most(ranges, form, cut) {
            return place;
        }
    }
    cuts.len()
}

/// The cuts in order.
pub(crate) fn in_order(
    alloc: Global,
    ranges: &Ranges,
    cuts: &[Form],
) -> Result<Vec<Form>, GridRefusal>
    requires ranges { IsRanges ranges.now }
    requires cuts { All AreSmall cuts.now }
    ensures found { IfOk result (λ fs. fs.items ≡ in_order (le (leasts_of ranges.now)) cuts.now) }
    ensures small { IfOk result (λ fs. All AreSmall fs.items) }
    ensures refused { IfErr result (λ e. e ≡ Memory) }
{
    let mut ordered = Vec::new(alloc);
    for done in 0..cuts.len() {
        let cut = cuts[cuts.len() - 1 - done];
        ordered.insert(place_of(ranges, &ordered, &cut), cut)?;
    }
    Ok(ordered)
}
