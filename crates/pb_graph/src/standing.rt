ghost use Rattle.std.specs.Prelude.{◌≡◌, ◌^◌, ◌+◌, unsigned_abs, ◌≤◌, ◌-ℤ◌, List, ℕ};
ghost use Rattle.pb_linear.specs.Form.{HasNumbers, numbers, value};
ghost use Rattle.pb_linear.specs.Numbers.{difference};
ghost use Rattle.pb_linear.specs.Sizes.{IsRanges, leasts_of};
ghost use Rattle.pb_graph.specs.Edges.{apart, lower_end, span, upper_end};
ghost use Rattle.pb_graph.specs.Expressions.{holds, minus, of_form, of_vform};
ghost use Rattle.pb_graph.specs.Near.{AreNear, CanBeTaken, IsBounded};
ghost use Rattle.pb_graph.specs.Seen.{IsOwn, standing_at};
ghost use Rattle.pb_graph.specs.Small.{IsSmallArea, IsSmallRead};

use pb_linear::{Form, Ranges, ReadBox, Sign, SymBox, VForm};

/// One form minus another.
#[tactic(auto, using(crate::proofs::NearLemmas::difference_fits))]
fn difference(left: &VForm, right: &VForm) -> VForm
    requires { CanBeTaken left.now right.now }
    ensures x { result.x ≡ left.now.x -ℤ right.now.x }
    ensures y { result.y ≡ left.now.y -ℤ right.now.y }
    ensures rest { HasNumbers (difference (numbers left.now.rest) (numbers right.now.rest)) result.rest }
{
    VForm {
        x: left.x - right.x,
        y: left.y - right.y,
        rest: match left.rest.sub(&right.rest) {
            Ok(form) => form,
            Err(_) => unreachable!(),
        },
    }
}

/// Whether one form is at most another for each cell of an area, at all sizes in range.
#[tactic(auto, using(crate::proofs::WorstLemmas::worst_fits, crate::proofs::WorstLemmas::holds_by_worst))]
fn is_at_most(ranges: &Ranges, area: &SymBox, left: &VForm, right: &VForm) -> bool
    requires ranges { IsRanges ranges.now }
    requires area { IsSmallArea area.now }
    requires taken { CanBeTaken left.now right.now }
    ensures { result ≡ holds (leasts_of ranges.now) area.now (minus (of_vform left.now) (of_vform right.now)) }
{
    match difference(left, right).worst(area) {
        Ok(form) => form.everywhere_le0(ranges),
        Err(_) => unreachable!(),
    }
}

/// What is read on an axis: from this bound ..
pub(crate) fn low(axis: u8, read: &ReadBox) -> &VForm
    ensures is { of_vform result.now ≡ (span axis read.now).low }
    ensures small { IsSmallRead read.now → IsBounded 1 (2 ^ 24 + 2) result.now }
{
    if axis == 0 { &read.x0 } else { &read.y0 }
}

/// .. to before this one.
pub(crate) fn high(axis: u8, read: &ReadBox) -> &VForm
    ensures is { of_vform result.now ≡ (span axis read.now).high }
    ensures small { IsSmallRead read.now → IsBounded 1 (2 ^ 24 + 2) result.now }
{
    if axis == 0 { &read.x1 } else { &read.y1 }
}

/// The lower end of an area on an axis.
fn lower_end(axis: u8, area: &SymBox) -> VForm
    ensures is { of_vform result ≡ of_form (lower_end axis area.now) }
    ensures small { IsSmallArea area.now → IsBounded 0 (2 ^ 24 + 2) result }
{
    VForm {
        x: 0,
        y: 0,
        rest: if axis == 0 { area.x0 } else { area.y0 },
    }
}

/// The upper end.
fn upper_end(axis: u8, area: &SymBox) -> VForm
    ensures is { of_vform result ≡ of_form (upper_end axis area.now) }
    ensures small { IsSmallArea area.now → IsBounded 0 (2 ^ 24 + 2) result }
{
    VForm {
        x: 0,
        y: 0,
        rest: if axis == 0 { area.x1 } else { area.y1 },
    }
}

/// Whether all that a read shows the cells of an area ends before another area on an axis, or begins after it.
pub(crate) fn are_apart(
    ranges: &Ranges,
    area: &SymBox,
    read: &ReadBox,
    other: &SymBox,
    axis: u8,
) -> bool
    requires ranges { IsRanges ranges.now }
    requires area { IsSmallArea area.now }
    requires read { IsSmallRead read.now }
    requires other { IsSmallArea other.now }
    ensures { result ≡ apart (leasts_of ranges.now) area.now read.now other.now axis }
{
    is_at_most(ranges, area, high(axis, read), &lower_end(axis, other))
        || is_at_most(ranges, area, &upper_end(axis, other), low(axis, read))
}

/// 0 or 1 at all sizes.
fn number(constant: i64) -> Form
    requires { unsigned_abs constant ≤ 1 }
    ensures value { (sizes : List ℕ) → value result sizes ≡ constant }
    ensures near { AreNear 1 (numbers result) }
{
    Form {
        constant,
        whole: [0; 8],
        half: [0; 8],
        third: [0; 8],
        quarter: [0; 8],
    }
}

/// The coordinate on an axis, 0 or 1 further on.
fn own(axis: u8, further: i64) -> VForm
    requires { unsigned_abs further ≤ 1 }
    ensures is { IsOwn axis further result }
    ensures small { IsBounded 1 1 result }
{
    let rest = number(further);
    if axis == 0 {
        VForm { x: 1, y: 0, rest }
    } else {
        VForm { x: 0, y: 1, rest }
    }
}

/// Where all that a read shows the cells of an area stands, by a step.
#[derive(Clone, Copy)]
pub(crate) struct Standing {
    pub(crate) before: bool,
    pub(crate) at_or_before: bool,
}

#[tactic(auto, using(crate::proofs::WorstLemmas::before_plus, crate::proofs::WorstLemmas::at_plus, crate::proofs::WorstLemmas::before_minus, crate::proofs::WorstLemmas::at_minus))]
pub(crate) fn standing_at(
    ranges: &Ranges,
    area: &SymBox,
    read: &ReadBox,
    axis: u8,
    sign: Sign,
) -> Standing
    requires ranges { IsRanges ranges.now }
    requires area { IsSmallArea area.now }
    requires read { IsSmallRead read.now }
    ensures { result ≡ standing_at (leasts_of ranges.now) area.now read.now axis sign }
{
    match sign {
        Sign::Plus => Standing {
            before: is_at_most(ranges, area, high(axis, read), &own(axis, 0)),
            at_or_before: is_at_most(ranges, area, high(axis, read), &own(axis, 1)),
        },
        Sign::Minus => Standing {
            before: is_at_most(ranges, area, &own(axis, 1), low(axis, read)),
            at_or_before: is_at_most(ranges, area, &own(axis, 0), low(axis, read)),
        },
    }
}
