use crate::tree::{FormText, Relation};
use pb_values::Name;

/// The mark before a rule.
#[derive(Clone, Copy, Debug)]
pub enum MarkText {
    Unmarked,
    Primary,
    Secondary,
    Priority(u64),
}

/// A view of a matrix under a name.
#[derive(Drop)]
pub struct UseText {
    pub matrix: Name,
    pub view: ViewText,
    pub bound: Name,
}

/// What a view shows: the whole matrix; the cell at one or two coordinates; a row; a column; the region between two
/// bounds, or between two corners.
#[derive(Drop)]
pub enum ViewText {
    Whole,
    Cell {
        x: FormText,
        y: Option<FormText>,
    },
    Row(FormText),
    Column(FormText),
    Between {
        low: FormText,
        high: FormText,
    },
    Region {
        x0: FormText,
        y0: FormText,
        x1: FormText,
        y1: FormText,
    },
}

/// A condition of a rule: its two sides, and a relation other than `!=`.
#[derive(Drop)]
pub struct CondText {
    pub left: FormText,
    pub relation: Relation,
    pub right: FormText,
}
