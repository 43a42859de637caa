/// A place of one of several rectangles: the number of the rectangle, the number of its matrix, and the place.
#[derive(Clone, Copy, Debug, PartialEq, Eq)]
pub struct Stop {
    pub piece: usize,
    pub base: u32,
    pub x: u64,
    pub y: u64,
}
