/// A number of dimensions, and a matrix's sides in cells: its width and its height. Where it comes from a
/// matrix, `dims` is 1 or 2, and with one dimension the height is 1.
#[derive(Clone, Copy, Debug, PartialEq, Eq)]
pub struct Shape {
    pub dims: u8,
    pub w: u64,
    pub h: u64,
}

/// The most cells of a side.
pub const MOST_SIDE: u64 = 4_194_304;

impl Shape {
    ghost use Rattle.std.specs.Prelude.{◌≡◌, ◌*◌, ◌≤◌};

    /// How many cells there are. Each side is at most `MOST_SIDE`.
    pub fn cells(&self) -> u64
        requires width { self.now.w ≤ MOST_SIDE }
        requires height { self.now.h ≤ MOST_SIDE }
        ensures { result ≡ self.now.w * self.now.h }
    {
        self.w * self.h
    }
}
