ghost use Rattle.std.specs.Prelude.{◌≡◌, ◌<◌, pos};
ghost use Rattle.pb_model.specs.Bodies.{summed, view_of};
ghost use Rattle.pb_statements.specs.Places.{grid_shown, height_of, IsShown, number_at, row_of, width_of};
ghost use Rattle.pb_statements.specs.Stored.{bound, store_of};

use crate::port::{NamesTurn, Port};
use crate::scene::Scene;
use crate::scratch::Scratch;
use crate::shown::Shown;
use pb_numbers::{KindWord, plus};
use pb_program::Meaning;
use pb_values::CellReader;

impl Shown {
    /// A sum, and a row added to it.
    #[inline]
    #[tactic(auto, using(crate::proofs::SumLemmas::row_ok, crate::proofs::SumLemmas::row_err, crate::proofs::SumLemmas::row_end, crate::proofs::SumLemmas::row_start))]
    fn sum_row<C: CellReader, N: NamesTurn>(
        &self,
        scratch: &Scratch,
        port: &mut Port<C, N>,
        y: u64,
        before: i64,
    ) -> Result<i64, KindWord>
        requires shown { IsShown N.turn scratch.now.numbers.items self.now }
        requires down { y < height_of self.now }
        ensures sum { result ≡ summed before (row_of (number_at N.turn scratch.now.numbers.items self.now) (width_of self.now) y) }
        ensures same_reference { port.new.reader.ghost_name ≡ port.old.reader.ghost_name }
    {
        let mut total = before;
        for x in 0..self.width() {
            match plus(total, self.number(scratch, port, x, y)) {
                Ok(next) => total = next,
                Err(kind) => return Err(kind),
            }
        }
        Ok(total)
    }

    /// The sum of all cells.
    #[tactic(auto, using(crate::proofs::SumLemmas::rows_ok, crate::proofs::SumLemmas::rows_err, crate::proofs::SumLemmas::rows_end, crate::proofs::SumLemmas::rows_start, crate::proofs::SumLemmas::rows_none))]
    fn sum<C: CellReader, N: NamesTurn>(
        &self,
        scratch: &Scratch,
        port: &mut Port<C, N>,
    ) -> Result<i64, KindWord>
        requires { IsShown N.turn scratch.now.numbers.items self.now }
        ensures sum { result ≡ summed (pos 0) (grid_shown N.turn scratch.now.numbers.items self.now).cells }
        ensures same_reference { port.new.reader.ghost_name ≡ port.old.reader.ghost_name }
    {
        // A view without columns may have any number of rows.
        if self.width() == 0 {
            return Ok(0);
        }
        let mut total = 0;
        for y in 0..self.height() {
            match self.sum_row(scratch, port, y, total) {
                Ok(next) => total = next,
                Err(kind) => return Err(kind),
            }
        }
        Ok(total)
    }
}

impl<'a, N: NamesTurn> Scene<'a, N> {
    /// The sum of a view.
    pub fn sum<C: CellReader>(
        &self,
        what: Meaning,
        scratch: &Scratch,
        port: &mut Port<C, N>,
    ) -> Result<i64, KindWord>
        ensures sum { result ≡ summed (pos 0) (view_of (bound self.now scratch.now) (store_of scratch.now) what).cells }
        ensures same_reference { port.new.reader.ghost_name ≡ port.old.reader.ghost_name }
    {
        self.shown(scratch, what).sum(scratch, port)
    }
}
