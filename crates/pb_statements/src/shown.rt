ghost use Rattle.std.specs.Prelude.{◌≡◌, ◌<◌};
ghost use Rattle.pb_statements.specs.Places.{height_of, IsShown, number_at, width_of};

use crate::port::{NamesTurn, Port};
use crate::scratch::Scratch;
use crate::spot::Spot;
use pb_values::{CellReader, View};

/// What the name of a view stands for: a read, an output, or no view.
#[derive(Clone, Copy)]
pub(crate) enum Shown {
    Told(View),
    Kept(Spot),
    Nothing,
}

impl Shown {
    pub(crate) fn width(&self) -> u64
        ensures { result ≡ width_of self.now }
    {
        match self {
            Shown::Told(view) => view.shape.w,
            Shown::Kept(spot) => spot.width,
            Shown::Nothing => 0,
        }
    }

    pub(crate) fn height(&self) -> u64
        ensures { result ≡ height_of self.now }
    {
        match self {
            Shown::Told(view) => view.shape.h,
            Shown::Kept(spot) => spot.height,
            Shown::Nothing => 0,
        }
    }

    /// The number at a place inside.
    #[inline(always)]
    #[tactic(auto, using(crate::proofs::PlaceLemmas::place_below, crate::proofs::PlaceLemmas::place_small))]
    pub(crate) fn number<C: CellReader, N: NamesTurn>(
        &self,
        scratch: &Scratch,
        port: &mut Port<C, N>,
        x: u64,
        y: u64,
    ) -> i64
        requires shown { IsShown N.turn scratch.now.numbers.items self.now }
        requires across { x < width_of self.now }
        requires down { y < height_of self.now }
        ensures number { result ≡ number_at N.turn scratch.now.numbers.items self.now x y }
        ensures same_reference { port.new.reader.ghost_name ≡ port.old.reader.ghost_name }
    {
        match self {
            Shown::Told(view) => port.number(view.place(x, y)),
            Shown::Kept(spot) => scratch.numbers[(spot.first + (y * spot.width + x)) as usize],
            Shown::Nothing => 0,
        }
    }
}
