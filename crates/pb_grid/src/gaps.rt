ghost use Rattle.std.specs.Prelude.{◌≡◌, IfErr, IfOk, map};
ghost use Rattle.std.specs.List.{All, list_all};
ghost use Rattle.pb_linear.specs.Sizes.{IsRanges, leasts_of};
ghost use Rattle.pb_grid.specs.declared.refusal.GridRefusal.TheVariants.{Memory};
ghost use Rattle.pb_grid.specs.Cuts.{AreSmall, IsSmallBox, le};
ghost use Rattle.pb_grid.specs.Gaps.{gap_of};
ghost use Rattle.pb_grid.specs.Lists.{neighbours};
ghost use Rattle.pb_grid.specs.Segments.{holds_on};

use crate::axis::{Axis, lower, upper};
use crate::forms::is_at_most;
use crate::refusal::GridRefusal;
use pb_linear::{Form, Ranges, RuleBox};
use std::alloc::Global;
use std::marker::Model;

/// What lies between two neighbouring cuts of an axis, and for each box whether it holds that.
#[derive(Drop)]
pub(crate) struct Gap {
    pub(crate) low: Form,
    pub(crate) high: Form,
    pub(crate) held: Vec<bool>,
}

impl Model for Gap {
    ghost use Rattle.pb_grid.specs.Gaps.{GapValue};

    ghost Value = { GapValue };

    ghost view = { λ g. record {
      low = g.low;
      high = g.high;
      held = g.held.items;
    } };
}

/// Whether each of these bounds is at most a cut at all sizes in range.
fn all_at_most(ranges: &Ranges, bounds: &[Form], cut: &Form) -> bool
    requires ranges { IsRanges ranges.now }
    requires bounds { All AreSmall bounds.now }
    requires cut { AreSmall cut.now }
    ensures { result ≡ list_all (λ f. le (leasts_of ranges.now) f cut.now) bounds.now }
{
    for bound in bounds {
        if !is_at_most(ranges, bound, cut) {
            return false;
        }
    }
    true
}

/// Whether each of these bounds is at least a cut at all sizes in range.
fn all_at_least(ranges: &Ranges, bounds: &[Form], cut: &Form) -> bool
    requires ranges { IsRanges ranges.now }
    requires bounds { All AreSmall bounds.now }
    requires cut { AreSmall cut.now }
    ensures { result ≡ list_all (λ f. le (leasts_of ranges.now) cut.now f) bounds.now }
{
    for bound in bounds {
        if !is_at_most(ranges, cut, bound) {
            return false;
        }
    }
    true
}

/// Whether a box holds what lies between two cuts.
fn holds_on(ranges: &Ranges, axis: Axis, low: &Form, high: &Form, rule_box: &RuleBox) -> bool
    requires ranges { IsRanges ranges.now }
    requires low { AreSmall low.now }
    requires high { AreSmall high.now }
    requires rule_box { IsSmallBox rule_box.now }
    ensures { result ≡ holds_on (leasts_of ranges.now) axis (low.now, high.now) rule_box.now }
{
    all_at_most(ranges, lower(axis, rule_box), low)
        && all_at_least(ranges, upper(axis, rule_box), high)
}

fn gap_between(
    alloc: Global,
    ranges: &Ranges,
    axis: Axis,
    low: &Form,
    high: &Form,
    boxes: &[RuleBox],
) -> Result<Gap, GridRefusal>
    requires ranges { IsRanges ranges.now }
    requires low { AreSmall low.now }
    requires high { AreSmall high.now }
    requires boxes { All IsSmallBox boxes.now }
    ensures found { IfOk result (λ g. g ≡ gap_of (leasts_of ranges.now) axis boxes.now (low.now, high.now)) }
    ensures refused { IfErr result (λ e. e ≡ Memory) }
{
    let mut held = Vec::new(alloc);
    for rule_box in boxes {
        held.push(holds_on(ranges, axis, low, high, rule_box))?;
    }
    Ok(Gap {
        low: *low,
        high: *high,
        held,
    })
}

/// What lies between each two neighbouring cuts of an axis.
pub(crate) fn gaps(
    alloc: Global,
    ranges: &Ranges,
    axis: Axis,
    cuts: &[Form],
    boxes: &[RuleBox],
) -> Result<Vec<Gap>, GridRefusal>
    requires ranges { IsRanges ranges.now }
    requires cuts { All AreSmall cuts.now }
    requires boxes { All IsSmallBox boxes.now }
    ensures found { IfOk result (λ gs. gs.items ≡ map (gap_of (leasts_of ranges.now) axis boxes.now) (neighbours cuts.now)) }
    ensures refused { IfErr result (λ e. e ≡ Memory) }
{
    let mut gaps = Vec::new(alloc);
    for next in 1..cuts.len() {
        gaps.push(gap_between(alloc, ranges, axis, &cuts[next - 1], &cuts[next], boxes)?)?;
    }
    Ok(gaps)
}
