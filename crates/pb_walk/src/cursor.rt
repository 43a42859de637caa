ghost use Rattle.std.specs.Prelude.{◌≡◌, false};
ghost use Rattle.pb_values.specs.Views.{HasPlace};

use pb_links::Spot;

/// A rectangle and the next of its places, unless there is none.
#[derive(Clone, Copy)]
pub(crate) struct Cursor {
    pub(crate) spot: Spot,
    pub(crate) x: u64,
    pub(crate) y: u64,
    pub(crate) done: bool,
    pub(crate) ghost inside: { done ≡ false → HasPlace spot.rect x y },
}
