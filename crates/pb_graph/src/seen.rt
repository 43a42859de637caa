ghost use Rattle.std.specs.Prelude.{◌≡◌, map};
ghost use Rattle.pb_linear.specs.Sizes.{IsRanges, leasts_of};
ghost use Rattle.pb_graph.specs.Edges.{lists};
ghost use Rattle.pb_graph.specs.Seen.{all_at_by, all_before_by, fits_by, is_wide_by, mark_by, seen_at, serves_by, standing_by, steps_of};
ghost use Rattle.pb_graph.specs.Rows.{sides_by};
ghost use Rattle.pb_graph.specs.Small.{IsSmallArea, IsSmallRead};

use crate::standing::{Standing, standing_at};
use pb_linear::{Ranges, ReadBox, Sign, Step, SymBox};

/// What is known of a read by the cells of an area: whether it is of a rule that isn't for single cells, and where all that
/// is read stands.
#[derive(Clone, Copy)]
pub(crate) struct Seen {
    pub(crate) wide: bool,
    pub(crate) x_plus: Standing,
    pub(crate) x_minus: Standing,
    pub(crate) y_plus: Standing,
    pub(crate) y_minus: Standing,
}

#[tactic(auto, unfolding(crate::specs::Seen::seen_at))]
pub(crate) fn seen_at(ranges: &Ranges, area: &SymBox, read: &ReadBox) -> Seen
    requires ranges { IsRanges ranges.now }
    requires area { IsSmallArea area.now }
    requires read { IsSmallRead read.now }
    ensures { result ≡ seen_at (leasts_of ranges.now) area.now read.now }
{
    Seen {
        wide: read.wide,
        x_plus: standing_at(ranges, area, read, 0, Sign::Plus),
        x_minus: standing_at(ranges, area, read, 0, Sign::Minus),
        y_plus: standing_at(ranges, area, read, 1, Sign::Plus),
        y_minus: standing_at(ranges, area, read, 1, Sign::Minus),
    }
}

fn standing_by(seen: &Seen, axis: u8, sign: Sign) -> Standing
    ensures { result ≡ standing_by seen.now axis sign }
{
    match sign {
        Sign::Plus if axis == 0 => seen.x_plus,
        Sign::Plus => seen.y_plus,
        Sign::Minus if axis == 0 => seen.x_minus,
        Sign::Minus => seen.y_minus,
    }
}

/// A list of one step, or of two on different axes.
#[derive(Clone, Copy)]
pub(crate) struct StepList {
    pub(crate) first: Step,
    pub(crate) second: Option<Step>,
}

fn fits(seen: &Seen, list: &StepList) -> bool
    ensures { result ≡ fits_by seen.now (steps_of list.now) }
{
    let first = standing_by(seen, list.first.axis, list.first.sign);
    match list.second {
        None => first.before,
        Some(step) => {
            let second = standing_by(seen, step.axis, step.sign);
            first.before || (first.at_or_before && second.before)
        }
    }
}

const X_PLUS: Step = Step {
    axis: 0,
    sign: Sign::Plus,
};

const X_MINUS: Step = Step {
    axis: 0,
    sign: Sign::Minus,
};

const Y_PLUS: Step = Step {
    axis: 1,
    sign: Sign::Plus,
};

const Y_MINUS: Step = Step {
    axis: 1,
    sign: Sign::Minus,
};

/// The lists in the order in which they are tried.
pub(crate) const LISTS: [StepList; 12] = [
    StepList {
        first: X_PLUS,
        second: None,
    },
    StepList {
        first: X_MINUS,
        second: None,
    },
    StepList {
        first: Y_PLUS,
        second: None,
    },
    StepList {
        first: Y_MINUS,
        second: None,
    },
    StepList {
        first: X_PLUS,
        second: Some(Y_PLUS),
    },
    StepList {
        first: X_PLUS,
        second: Some(Y_MINUS),
    },
    StepList {
        first: X_MINUS,
        second: Some(Y_PLUS),
    },
    StepList {
        first: X_MINUS,
        second: Some(Y_MINUS),
    },
    StepList {
        first: Y_PLUS,
        second: Some(X_PLUS),
    },
    StepList {
        first: Y_PLUS,
        second: Some(X_MINUS),
    },
    StepList {
        first: Y_MINUS,
        second: Some(X_PLUS),
    },
    StepList {
        first: Y_MINUS,
        second: Some(X_MINUS),
    },
];

/// Whether a list serves all these reads.
fn serves(reads: &[Seen], list: &StepList) -> bool
    ensures { result ≡ serves_by reads.now (steps_of list.now) }
{
    reads.iter().all(|read| !read.wide && fits(read, list))
}

/// For each list whether it does.
pub(crate) fn serving(reads: &[Seen]) -> [bool; 12]
    ensures { result ≡ map (serves_by reads.now) lists }
{
    [
        serves(reads, &LISTS[0]),
        serves(reads, &LISTS[1]),
        serves(reads, &LISTS[2]),
        serves(reads, &LISTS[3]),
        serves(reads, &LISTS[4]),
        serves(reads, &LISTS[5]),
        serves(reads, &LISTS[6]),
        serves(reads, &LISTS[7]),
        serves(reads, &LISTS[8]),
        serves(reads, &LISTS[9]),
        serves(reads, &LISTS[10]),
        serves(reads, &LISTS[11]),
    ]
}

/// Whether all that is read stands at or before the cell by a sign.
pub(crate) fn all_at(reads: &[Seen], axis: u8, sign: Sign) -> bool
    ensures { result ≡ all_at_by reads.now axis sign }
{
    reads
        .iter()
        .all(|read| standing_by(read, axis, sign).at_or_before)
}

/// Whether all of it stands before the cell.
fn all_before(reads: &[Seen], axis: u8, sign: Sign) -> bool
    ensures { result ≡ all_before_by reads.now axis sign }
{
    reads
        .iter()
        .all(|read| standing_by(read, axis, sign).before)
}

/// Whether one of the reads is of a rule that isn't for single cells.
pub(crate) fn is_wide(reads: &[Seen]) -> bool
    ensures { result ≡ is_wide_by reads.now }
{
    reads.iter().any(|read| read.wide)
}

/// The mark of an axis: 0 to 5 for `=`, `<`, `>`, `<=`, `>=` and `*`.
#[tactic(auto, unfolding(crate::specs::Seen::mark_by))]
pub(crate) fn mark(reads: &[Seen], axis: u8) -> u8
    ensures { result ≡ mark_by reads.now axis }
{
    if is_wide(reads) {
        return 5;
    }
    let at_plus = all_at(reads, axis, Sign::Plus);
    let at_minus = all_at(reads, axis, Sign::Minus);
    if at_plus && at_minus {
        0
    } else if all_before(reads, axis, Sign::Plus) {
        1
    } else if all_before(reads, axis, Sign::Minus) {
        2
    } else if at_plus {
        3
    } else if at_minus {
        4
    } else {
        5
    }
}

/// Whether all that is read stands at or before the cell, by each sign.
#[derive(Clone, Copy)]
pub(crate) struct Sides {
    pub(crate) x_plus: bool,
    pub(crate) x_minus: bool,
    pub(crate) y_plus: bool,
    pub(crate) y_minus: bool,
}

/// The same of the edge between two segments, by their numbers.
#[derive(Clone, Copy)]
pub(crate) struct EdgeSides {
    pub(crate) reader: u32,
    pub(crate) source: u32,
    pub(crate) sides: Sides,
}

pub(crate) fn sides_by(reads: &[Seen]) -> Sides
    ensures { result ≡ sides_by reads.now }
{
    Sides {
        x_plus: all_at(reads, 0, Sign::Plus),
        x_minus: all_at(reads, 0, Sign::Minus),
        y_plus: all_at(reads, 1, Sign::Plus),
        y_minus: all_at(reads, 1, Sign::Minus),
    }
}
