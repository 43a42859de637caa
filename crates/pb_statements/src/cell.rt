ghost use Rattle.std.specs.Prelude.{◌≡◌, ◌<ℤ◌, IfSome, MatchOption, pos, slice_index_or};
ghost use Rattle.pb_model.specs.Bodies.{cell_in, number_of, view_of};
ghost use Rattle.pb_program.specs.declared.meaning.Meaning.TheVariants.{Read};
ghost use Rattle.pb_statements.specs.Places.{grid_shown, IsShown};
ghost use Rattle.pb_statements.specs.Stored.{bound, store_of};
ghost use Rattle.pb_statements.specs.declared.scratch.Scratch.{Scratch as Scratched};

use crate::port::{NamesTurn, Port};
use crate::scene::Scene;
use crate::scratch::Scratch;
use crate::shown::Shown;
use pb_numbers::KindWord;
use pb_program::Meaning;
use pb_values::{CellReader, Kind};

impl Shown {
    /// The number of the first cell; 0 where there is none.
    #[inline(always)]
    #[tactic(auto, using(crate::proofs::CellLemmas::first_there, crate::proofs::CellLemmas::first_none))]
    fn first<C: CellReader, N: NamesTurn>(&self, scratch: &Scratch, port: &mut Port<C, N>) -> i64
        requires { IsShown N.turn scratch.now.numbers.items self.now }
        ensures number { result ≡ slice_index_or (grid_shown N.turn scratch.now.numbers.items self.now).cells 0 (pos 0) }
        ensures same_reference { port.new.reader.ghost_name ≡ port.old.reader.ghost_name }
    {
        if self.width() == 0 {
            return 0;
        }
        if self.height() == 0 {
            return 0;
        }
        self.number(scratch, port, 0, 0)
    }

    /// The number at a place, which may be outside.
    #[inline(always)]
    #[tactic(auto, using(crate::proofs::CellLemmas::cell_there, crate::proofs::CellLemmas::cell_right, crate::proofs::CellLemmas::cell_high))]
    fn at<C: CellReader, N: NamesTurn>(
        &self,
        scratch: &Scratch,
        port: &mut Port<C, N>,
        x: u64,
        y: u64,
    ) -> Result<i64, KindWord>
        requires { IsShown N.turn scratch.now.numbers.items self.now }
        ensures number { result ≡ cell_in (grid_shown N.turn scratch.now.numbers.items self.now) (pos x) (pos y) }
        ensures same_reference { port.new.reader.ghost_name ≡ port.old.reader.ghost_name }
    {
        if x >= self.width() {
            return Err(KindWord::of(Kind::OutOfView));
        }
        if y >= self.height() {
            return Err(KindWord::of(Kind::OutOfView));
        }
        Ok(self.number(scratch, port, x, y))
    }

    /// The number at coordinates, which may be outside.
    #[inline(always)]
    #[tactic(auto, using(crate::proofs::CellLemmas::cell_left, crate::proofs::CellLemmas::cell_low))]
    fn cell<C: CellReader, N: NamesTurn>(
        &self,
        scratch: &Scratch,
        port: &mut Port<C, N>,
        i: i64,
        j: i64,
    ) -> Result<i64, KindWord>
        requires { IsShown N.turn scratch.now.numbers.items self.now }
        ensures number { result ≡ cell_in (grid_shown N.turn scratch.now.numbers.items self.now) i j }
        ensures same_reference { port.new.reader.ghost_name ≡ port.old.reader.ghost_name }
    {
        let Some(x) = natural(i) else {
            return Err(KindWord::of(Kind::OutOfView));
        };
        let Some(y) = natural(j) else {
            return Err(KindWord::of(Kind::OutOfView));
        };
        self.at(scratch, port, x, y)
    }
}

/// A number that isn't negative.
#[inline(always)]
pub(crate) fn natural(i: i64) -> Option<u64>
    ensures { MatchOption result (i <ℤ pos 0) (λ x. i ≡ pos x) }
{
    if i < 0 { None } else { Some(i as u64) }
}

impl<'a, N: NamesTurn> Scene<'a, N> {
    /// The number that a name stands for.
    #[tactic(auto, unfolding(pb_model::specs::Bodies::number_of, crate::specs::Stored::bound))]
    pub fn named<C: CellReader>(
        &self,
        what: Meaning,
        scratch: &Scratch,
        port: &mut Port<C, N>,
    ) -> i64
        ensures number { result ≡ number_of (bound self.now scratch.now) (store_of scratch.now) what }
        ensures same_reference { port.new.reader.ghost_name ≡ port.old.reader.ghost_name }
    {
        match what {
            Meaning::Size(k) => self.size(k),
            Meaning::RuleX => self.variables().0,
            Meaning::RuleY => self.variables().1,
            Meaning::Number(k) => scratch.local(k),
            Meaning::Output(_) => self.shown(scratch, what).first(scratch, port),
            Meaning::Read(_) => self.shown(scratch, what).first(scratch, port),
            Meaning::Matrix(_) => self.shown(scratch, what).first(scratch, port),
        }
    }

    /// The number of the first cell of a read that has one.
    #[tactic(auto, using(crate::proofs::CellLemmas::first_read))]
    pub fn first_of_read<C: CellReader>(&self, k: u32, port: &mut Port<C, N>) -> Option<i64>
        ensures number { IfSome result (λ n. (s : Scratched) → number_of (bound self.now s) (store_of s) (Read k) ≡ n) }
        ensures same_reference { port.new.reader.ghost_name ≡ port.old.reader.ghost_name }
    {
        if k as usize >= self.views.len() {
            return None;
        }
        let view = &self.views[k as usize];
        if view.shape.w == 0 {
            return None;
        }
        if view.shape.h == 0 {
            return None;
        }
        Some(port.number(view.place(0, 0)))
    }

    /// The number at a place of a view.
    pub(crate) fn cell<C: CellReader>(
        &self,
        what: Meaning,
        i: i64,
        j: i64,
        scratch: &Scratch,
        port: &mut Port<C, N>,
    ) -> Result<i64, KindWord>
        ensures number { result ≡ cell_in (view_of (bound self.now scratch.now) (store_of scratch.now) what) i j }
        ensures same_reference { port.new.reader.ghost_name ≡ port.old.reader.ghost_name }
    {
        self.shown(scratch, what).cell(scratch, port, i, j)
    }

    /// The width and the height of a view.
    #[tactic(auto, using(crate::proofs::CellLemmas::wide_shown, crate::proofs::CellLemmas::width_is, crate::proofs::CellLemmas::tall_shown, crate::proofs::CellLemmas::height_is))]
    pub(crate) fn sides(&self, what: Meaning, scratch: &Scratch) -> (i64, i64)
        ensures width { result.0 ≡ pos (view_of (bound self.now scratch.now) (store_of scratch.now) what).width }
        ensures height { result.1 ≡ pos (view_of (bound self.now scratch.now) (store_of scratch.now) what).height }
    {
        let shown = self.shown(scratch, what);
        (shown.width() as i64, shown.height() as i64)
    }
}
