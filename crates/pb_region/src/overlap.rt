ghost use Rattle.std.specs.Prelude.{◌≡◌, ℕ, ◌<◌, ◌≤◌, IsTrue, IsFalse, IfSome, MatchOption, length, false};
ghost use Rattle.std.specs.List.{All};
ghost use Rattle.pb_linear.specs.Form.{numbers};
ghost use Rattle.pb_linear.specs.Sizes.{IsRanges, leasts_of};
ghost use Rattle.pb_region.specs.Ends.{coordinate_of};
ghost use Rattle.pb_region.specs.Overlaps.{are_apart, are_separate, HasNoOverlap, is_before, IsFirst, IsFirstOverlap, overlap, overlap_at};
ghost use Rattle.pb_region.specs.Small.{AreSmall, AreSmallEnds, IsSmallDecl, IsSmallInterval, IsSmallRead};

use crate::ends::{Ends, Interval, ends_of};
use crate::forms::difference;
use pb_linear::{Ranges, VForm};
use pb_program::{Decl, Read};

/// Whether an end without rule variables is at most another at all sizes in range.
#[tactic(auto, using(crate::proofs::OverlapLemmas::before_by_difference))]
fn is_before(ranges: &Ranges, a: &VForm, b: &VForm) -> bool
    requires ranges { IsRanges ranges.now }
    requires a { AreSmall (numbers a.now.rest) }
    requires b { AreSmall (numbers b.now.rest) }
    ensures { result ≡ is_before (leasts_of ranges.now) (coordinate_of a.now) (coordinate_of b.now) }
{
    difference(&a.rest, &b.rest).everywhere_le0(ranges)
}

fn are_apart(ranges: &Ranges, a: &Interval, b: &Interval) -> bool
    requires ranges { IsRanges ranges.now }
    requires a { IsSmallInterval a.now }
    requires b { IsSmallInterval b.now }
    ensures { result ≡ are_apart (leasts_of ranges.now) a.now b.now }
{
    is_before(ranges, &a.high, &b.low) || is_before(ranges, &b.high, &a.low)
}

/// Whether some axis keeps them apart.
fn are_separate(ranges: &Ranges, a: &Ends, b: &Ends) -> bool
    requires ranges { IsRanges ranges.now }
    requires a { AreSmallEnds a.now }
    requires b { AreSmallEnds b.now }
    ensures { result ≡ are_separate (leasts_of ranges.now) a.now b.now }
{
    are_apart(ranges, &a.x, &b.x) || are_apart(ranges, &a.y, &b.y)
}

fn overlap(ranges: &Ranges, matrices: &[Decl], a: &Read, b: &Read) -> bool
    requires ranges { IsRanges ranges.now }
    requires matrices { All IsSmallDecl matrices.now }
    requires a { IsSmallRead a.now }
    requires b { IsSmallRead b.now }
    ensures { result ≡ overlap (leasts_of ranges.now) matrices.now a.now b.now }
{
    a.matrix == b.matrix && !are_separate(ranges, &ends_of(matrices, a), &ends_of(matrices, b))
}

/// Two outputs of a rule by their numbers, the first before the second.
#[tactic(auto, using(crate::proofs::OverlapLemmas::at_outputs))]
fn overlap_at(
    ranges: &Ranges,
    matrices: &[Decl],
    outs: &[Read],
    first: usize,
    second: usize,
) -> bool
    requires ranges { IsRanges ranges.now }
    requires matrices { All IsSmallDecl matrices.now }
    requires outs { All IsSmallRead outs.now }
    requires order { first < second }
    requires there { second < length outs.now }
    ensures { result ≡ overlap_at (leasts_of ranges.now) matrices.now outs.now first second }
{
    overlap(ranges, matrices, &outs[first], &outs[second])
}

/// The first output after this one that overlaps with it.
#[tactic(auto, using(crate::proofs::OverlapLemmas::not_in_order, crate::proofs::OverlapLemmas::not_there))]
fn overlap_after(ranges: &Ranges, matrices: &[Decl], outs: &[Read], first: usize) -> Option<usize>
    requires ranges { IsRanges ranges.now }
    requires matrices { All IsSmallDecl matrices.now }
    requires outs { All IsSmallRead outs.now }
    requires there { first < length outs.now }
    ensures found { let at = overlap_at (leasts_of ranges.now) matrices.now outs.now first in MatchOption result ((j : ℕ) → at j ≡ false) (IsFirst at) }
    ensures there { IfSome result (λ j. j < length outs.now) }
{
    for second in first + 1..outs.len() {
        if overlap_at(ranges, matrices, outs, first, second) {
            return Some(second);
        }
    }
    None
}

/// The first two outputs on one matrix that may overlap.
#[tactic(auto, using(crate::proofs::OverlapLemmas::not_in_order, crate::proofs::OverlapLemmas::not_there))]
pub(crate) fn first_overlap(
    ranges: &Ranges,
    matrices: &[Decl],
    outs: &[Read],
) -> Option<(usize, usize)>
    requires ranges { IsRanges ranges.now }
    requires matrices { All IsSmallDecl matrices.now }
    requires outs { All IsSmallRead outs.now }
    ensures found { let leasts = leasts_of ranges.now in MatchOption result (HasNoOverlap leasts matrices.now outs.now) (λ p. IsFirstOverlap leasts matrices.now outs.now p.0 p.1) }
    ensures there { IfSome result (λ p. (p.0 < length outs.now) × (p.1 < length outs.now)) }
{
    for first in 0..outs.len() {
        if let Some(second) = overlap_after(ranges, matrices, outs, first) {
            return Some((first, second));
        }
    }
    None
}
