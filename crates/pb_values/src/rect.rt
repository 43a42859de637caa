/// The places from `x0` to before `x1`, and from `y0` to before `y1`; it may be empty.
#[derive(Clone, Copy, Debug, PartialEq, Eq)]
pub struct Rect {
    pub x0: u64,
    pub y0: u64,
    pub x1: u64,
    pub y1: u64,
}

impl Rect {
    ghost use Rattle.std.specs.Prelude.{◌↔◌, ℕ};
    ghost use Rattle.pb_values.specs.Views.{HasPlace};

    /// The places that lie in both; it may be empty.
    pub fn meet(&self, other: &Rect) -> Rect
        ensures { (x y : ℕ) → HasPlace result x y ↔ (HasPlace self.now x y × HasPlace other.now x y) }
    {
        Rect {
            x0: self.x0.max(other.x0),
            y0: self.y0.max(other.y0),
            x1: self.x1.min(other.x1),
            y1: self.y1.min(other.y1),
        }
    }
}
