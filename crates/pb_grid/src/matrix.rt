ghost use Rattle.std.specs.Prelude.{◌≡◌, ◌⊎◌, IfErr, IfOk, MatchOption, length, map};
ghost use Rattle.std.specs.List.{All};
ghost use Rattle.pb_linear.specs.Sizes.{IsRanges, leasts_of};
ghost use Rattle.pb_grid.specs.declared.refusal.GridRefusal.TheVariants.{Memory};
ghost use Rattle.pb_grid.specs.Crossings.{IsCrossingOn};
ghost use Rattle.pb_grid.specs.Cuts.{AreSmall, IsSmallBox, le};
ghost use Rattle.pb_grid.specs.Gaps.{gap_of, held_of};
ghost use Rattle.pb_grid.specs.Lists.{in_order, neighbours};
ghost use Rattle.pb_grid.specs.Segments.{areas};
ghost use Rattle.pb_grid.specs.Grids.{are_too_many, AreCuts, IsCutRefused, IsGrid, IsRefused, matrix_of};

use crate::axis::Axis;
use crate::crossing::refused_crossing;
use crate::cuts::{cuts, in_order};
use crate::gaps::{Gap, gaps};
use crate::refusal::GridRefusal;
use crate::segments::{Held, Segment, covered_segments, segments_held};
use pb_linear::{Form, Ranges, RuleBox};
use std::alloc::Global;

/// The most cuts of an axis, 0 and the side among them.
const MOST_CUTS: usize = 32;

/// The most segments of a matrix.
const MOST_SEGMENTS: usize = 256;

/// Cuts a matrix of this width and height at the bounds of the boxes of the rules that write it. The segments are numbered
/// by y and then by x; a matrix of one dimension has the height 1. `Crossing` on x comes before `Crossing` on y,
/// `TooManySegments` and `Uncovered`.
pub fn grid(
    alloc: Global,
    boxes: &[RuleBox],
    width: &Form,
    height: &Form,
    ranges: &Ranges,
) -> Result<Vec<Segment>, GridRefusal>
    requires ranges { IsRanges ranges.now }
    requires boxes { All IsSmallBox boxes.now }
    requires width { AreSmall width.now }
    requires height { AreSmall height.now }
    ensures found { IfOk result (λ ss. IsGrid (matrix_of ranges.now boxes.now width.now height.now) ss.items) }
    ensures refused { IfErr result (λ e. (e ≡ Memory) ⊎ IsRefused (matrix_of ranges.now boxes.now width.now height.now) e) }
{
    let xs = cuts(alloc, ranges, Axis::X, width, boxes)?;
    let ys = cuts(alloc, ranges, Axis::Y, height, boxes)?;
    if let Some(refusal) = refused(ranges, &xs, &ys) {
        return Err(refusal);
    }
    covered_segments(alloc, &held_areas(alloc, ranges, boxes, &xs, &ys)?)
}

/// What lies between each two neighbouring cuts of an axis, from 0 to the side.
fn ordered_gaps(
    alloc: Global,
    ranges: &Ranges,
    axis: Axis,
    cuts: &[Form],
    boxes: &[RuleBox],
) -> Result<Vec<Gap>, GridRefusal>
    requires ranges { IsRanges ranges.now }
    requires cuts { All AreSmall cuts.now }
    requires boxes { All IsSmallBox boxes.now }
    ensures found { let leasts = leasts_of ranges.now in IfOk result (λ gs. gs.items ≡ map (gap_of leasts axis boxes.now) (neighbours (in_order (le leasts) cuts.now))) }
    ensures refused { IfErr result (λ e. e ≡ Memory) }
{
    gaps(alloc, ranges, axis, &in_order(alloc, ranges, cuts)?, boxes)
}

/// The areas of the segments by y and then by x, each with the rules that have a box that holds it.
fn held_areas(
    alloc: Global,
    ranges: &Ranges,
    boxes: &[RuleBox],
    xs: &[Form],
    ys: &[Form],
) -> Result<Vec<Held>, GridRefusal>
    requires ranges { IsRanges ranges.now }
    requires boxes { All IsSmallBox boxes.now }
    requires xs { All AreSmall xs.now }
    requires ys { All AreSmall ys.now }
    ensures found { let leasts = leasts_of ranges.now in IfOk result (λ hs. hs.items ≡ map (held_of leasts boxes.now) (areas (in_order (le leasts) xs.now) (in_order (le leasts) ys.now))) }
    ensures refused { IfErr result (λ e. e ≡ Memory) }
{
    let xs = ordered_gaps(alloc, ranges, Axis::X, xs, boxes)?;
    let ys = ordered_gaps(alloc, ranges, Axis::Y, ys, boxes)?;
    segments_held(alloc, boxes, &xs, &ys)
}

/// Whether there are more than 32 cuts on an axis, or more than 256 segments.
fn are_too_many(xs: usize, ys: usize) -> bool
    ensures { result ≡ are_too_many xs ys }
{
    MOST_CUTS < xs || MOST_CUTS < ys || MOST_SEGMENTS < xs.saturating_sub(1) * ys.saturating_sub(1)
}

/// What these cuts are refused for.
fn refused(ranges: &Ranges, xs: &[Form], ys: &[Form]) -> Option<GridRefusal>
    requires ranges { IsRanges ranges.now }
    requires xs { All AreSmall xs.now }
    requires ys { All AreSmall ys.now }
    ensures { let leasts = leasts_of ranges.now in MatchOption result (AreCuts leasts xs.now ys.now) (IsCutRefused leasts xs.now ys.now) }
{
    if let Some(refusal) = refused_crossing(ranges, 0, xs) {
        return Some(refusal);
    }
    if let Some(refusal) = refused_crossing(ranges, 1, ys) {
        return Some(refusal);
    }
    if are_too_many(xs.len(), ys.len()) {
        return Some(GridRefusal::TooManySegments);
    }
    None
}
