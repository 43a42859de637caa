use pb_values::Rect;

/// A segment that has a cell, by its number; a rectangle of its places, and the number of the rule that is chosen for them.
#[derive(Clone, Copy, Debug)]
pub struct FramePart {
    pub node: u32,
    pub rect: Rect,
    pub rule: u32,
}
