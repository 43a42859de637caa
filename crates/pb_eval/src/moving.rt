use std::marker::Model;

/// A cell that moves along a line: where it is at the first place, and how much further it is at each next one, modulo 2^64.
#[derive(Clone, Copy)]
pub struct Moving {
    pub from: u64,
    pub by: u64,
}

/// The first cells of reads at a place of a line, which is counted from 0.
#[derive(Drop)]
pub struct Along<'a> {
    pub cells: &'a [Moving],
    pub place: u64,
}

impl Moving {
    ghost use Rattle.std.specs.Prelude.{◌≡◌};
    ghost use Rattle.pb_eval.specs.Moving.{cell_at};

    /// Where it is at a place, which is counted from 0.
    #[inline(always)]
    pub fn at(&self, place: u64) -> u64
        ensures { result ≡ cell_at place self.now }
    {
        self.from.wrapping_add(place.wrapping_mul(self.by))
    }
}

impl<'a> Model for Along<'a> {
    ghost use Rattle.std.specs.Prelude.{ℕ, List};
    ghost use Rattle.pb_eval.specs.Moving.{cells_at};

    ghost Value = { List ℕ };

    ghost view = { λ a. cells_at a.cells.now a.place };
}

impl<'a> Along<'a> {
    ghost use Rattle.std.specs.Prelude.{◌≡◌, ◌<◌, length, slice_index};

    /// The first cell of the read with this number.
    #[inline(always)]
    pub(crate) fn cell(&self, k: u32) -> u64
        requires { k < length self.now }
        ensures { result ≡ slice_index self.now k }
    {
        let moving = self.cells[k as usize];
        moving.at(self.place)
    }
}
