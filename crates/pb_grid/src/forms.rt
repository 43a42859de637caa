ghost use Rattle.std.specs.Prelude.{◌≡◌, IsTrue};
ghost use Rattle.pb_linear.specs.Form.{HasNumbers, numbers};
ghost use Rattle.pb_linear.specs.Numbers.{difference};
ghost use Rattle.pb_linear.specs.Sizes.{IsRanges, leasts_of};
ghost use Rattle.pb_grid.specs.Cuts.{AreParallel, AreSmall, crosses, le, same, zero};

use pb_linear::{Form, Ranges};

/// The form 0.
pub(crate) fn zero() -> Form
    ensures zero { result ≡ zero }
    ensures small { AreSmall result }
{
    Form {
        constant: 0,
        whole: [0; 8],
        half: [0; 8],
        third: [0; 8],
        quarter: [0; 8],
    }
}

/// The difference of two forms.
#[tactic(auto, using(crate::proofs::FormLemmas::no_refusal))]
pub(crate) fn difference(left: &Form, right: &Form) -> Form
    requires left { AreSmall left.now }
    requires right { AreSmall right.now }
    ensures { HasNumbers (difference (numbers left.now) (numbers right.now)) result }
{
    match left.sub(right) {
        Ok(form) => form,
        Err(_) => unreachable!(),
    }
}

/// Whether two rows of coefficients are equal.
fn is_same_row(a: &[i64; 8], b: &[i64; 8]) -> bool
    ensures { IsTrue result → a.now ≡ b.now }
{
    a == b
}

/// Whether two forms differ by a constant.
fn are_parallel(a: &Form, b: &Form) -> bool
    ensures { IsTrue result → AreParallel a.now b.now }
{
    if !is_same_row(&a.whole, &b.whole) || !is_same_row(&a.half, &b.half) {
        return false;
    }
    is_same_row(&a.third, &b.third) && is_same_row(&a.quarter, &b.quarter)
}

/// Whether a form is at most another at all sizes in range.
#[tactic(auto, using(crate::proofs::FormLemmas::le_by_difference))]
pub(crate) fn is_at_most(ranges: &Ranges, a: &Form, b: &Form) -> bool
    requires ranges { IsRanges ranges.now }
    requires a { AreSmall a.now }
    requires b { AreSmall b.now }
    ensures { result ≡ le (leasts_of ranges.now) a.now b.now }
{
    if are_parallel(a, b) {
        return a.constant <= b.constant;
    }
    difference(a, b).everywhere_le0(ranges)
}

/// Whether two forms are equal at all sizes in range.
pub(crate) fn are_same(ranges: &Ranges, a: &Form, b: &Form) -> bool
    requires ranges { IsRanges ranges.now }
    requires a { AreSmall a.now }
    requires b { AreSmall b.now }
    ensures { result ≡ same (leasts_of ranges.now) a.now b.now }
{
    is_at_most(ranges, a, b) && is_at_most(ranges, b, a)
}

/// Whether each of two forms is above the other at some sizes in range.
pub(crate) fn cross(ranges: &Ranges, a: &Form, b: &Form) -> bool
    requires ranges { IsRanges ranges.now }
    requires a { AreSmall a.now }
    requires b { AreSmall b.now }
    ensures { result ≡ crosses (leasts_of ranges.now) a.now b.now }
{
    !is_at_most(ranges, a, b) && !is_at_most(ranges, b, a)
}
