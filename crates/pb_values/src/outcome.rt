/// What went wrong in a cell's evaluation.
#[derive(Clone, Copy, Debug, PartialEq, Eq)]
pub enum Kind {
    Overflow,
    DivideByZero,
    OutOfView,
    LoopLimit,
    BadShape,
    DepthEnded,
}

/// A fault in a cell's evaluation: its kind, the transform and the rule that made it, by number, and
/// the place: the cell for a cell rule, else the lowest corner of the rule's first output.
#[derive(Clone, Copy, Debug, PartialEq, Eq)]
pub struct Trap {
    pub kind: Kind,
    pub transform: u32,
    pub rule: u32,
    pub x: u64,
    pub y: u64,
}

/// What a cell's evaluation gives: a number, or the trap that ended it.
#[derive(Clone, Copy, Debug, PartialEq, Eq)]
pub enum Outcome {
    Value(i64),
    Trapped(Trap),
}
