ghost use Rattle.std.specs.Prelude.{◌≡◌, ◌≤◌, IfSome, MatchOption, None, length};
ghost use Rattle.std.specs.List.{All, find};
ghost use Rattle.pb_linear.specs.Held.{AreHeld};
ghost use Rattle.pb_linear.specs.Sizes.{IsRanges, leasts_of};
ghost use Rattle.pb_grid.specs.Crossings.{crossing, IsCrossingOn, IsFarthest};
ghost use Rattle.pb_grid.specs.Cuts.{AreSmall, crosses};

use crate::forms::{cross, difference};
use crate::refusal::GridRefusal;
use pb_linear::{Form, Ranges, Sizes};

/// The first of these cuts that crosses another.
fn crossing_with(ranges: &Ranges, first: &Form, later: &[Form]) -> Option<Form>
    requires ranges { IsRanges ranges.now }
    requires first { AreSmall first.now }
    requires later { All AreSmall later.now }
    ensures found { result ≡ find (crosses (leasts_of ranges.now) first.now) later.now }
    ensures small { IfSome result AreSmall }
{
    for second in later {
        if cross(ranges, first, second) {
            return Some(*second);
        }
    }
    None
}

/// The first two cuts that cross.
fn crossing(ranges: &Ranges, cuts: &[Form]) -> Option<(Form, Form)>
    requires ranges { IsRanges ranges.now }
    requires cuts { All AreSmall cuts.now }
    ensures found { result ≡ crossing (leasts_of ranges.now) cuts.now }
    ensures small { IfSome result (λ p. AreSmall p.0 × AreSmall p.1) }
{
    for (place, first) in cuts.iter().enumerate() {
        if let Some(second) = crossing_with(ranges, first, &cuts[place + 1..]) {
            return Some((*first, second));
        }
    }
    None
}

/// Sizes as a refusal carries them: as many as the ranges are.
fn held(ranges: Ranges, sizes: Sizes) -> Sizes
    requires few { ranges.count ≤ 8 }
    requires counted { sizes.count ≡ ranges.count }
    ensures same { result ≡ sizes }
    ensures held { AreHeld (length (leasts_of ranges)) result }
{
    sizes
}

/// The least sizes at which a form is above another by the most.
fn farthest(ranges: &Ranges, high: &Form, low: &Form) -> Sizes
    requires ranges { IsRanges ranges.now }
    requires high { AreSmall high.now }
    requires low { AreSmall low.now }
    ensures { IsFarthest (leasts_of ranges.now) high.now low.now result }
{
    held(*ranges, difference(high, low).most(ranges).1)
}

/// The refusal of the first two cuts that cross.
pub(crate) fn refused_crossing(ranges: &Ranges, axis: u8, cuts: &[Form]) -> Option<GridRefusal>
    requires ranges { IsRanges ranges.now }
    requires cuts { All AreSmall cuts.now }
    ensures { let leasts = leasts_of ranges.now in MatchOption result (crossing leasts cuts.now ≡ None) (IsCrossingOn leasts axis cuts.now) }
{
    let (first, second) = crossing(ranges, cuts)?;
    Some(GridRefusal::Crossing {
        axis,
        first,
        second,
        over: farthest(ranges, &first, &second),
        under: farthest(ranges, &second, &first),
    })
}
