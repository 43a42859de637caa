ghost use Rattle.std.specs.Prelude.{◌≡◌, ◌*◌, ◌<◌, IfSome, List, drop, pos, slice_index_or, ℤ};
ghost use Rattle.pb_model.specs.Bodies.{dot_product, products, view_of};
ghost use Rattle.pb_statements.specs.Places.{grid_shown, height_of, IsShown, width_of};
ghost use Rattle.pb_statements.specs.Stored.{bound, store_of};
ghost use Rattle.pb_statements.specs.declared.shown.Shown.TheVariants.{Told};

use crate::port::{NamesTurn, Port};
use crate::scene::Scene;
use crate::scratch::Scratch;
use crate::shown::Shown;
use pb_numbers::{KindWord, are_small, plus, plus_small_products, times};
use pb_program::Meaning;
use pb_values::{CellReader, Kind, View};

impl Shown {
    /// The number of a cell, counted from 0, row by row.
    #[inline]
    fn nth<C: CellReader, N: NamesTurn>(
        &self,
        scratch: &Scratch,
        port: &mut Port<C, N>,
        i: u64,
    ) -> i64
        requires shown { IsShown N.turn scratch.now.numbers.items self.now }
        requires inside { i < height_of self.now * width_of self.now }
        ensures number { result ≡ slice_index_or (grid_shown N.turn scratch.now.numbers.items self.now).cells i (pos 0) }
        ensures same_reference { port.new.reader.ghost_name ≡ port.old.reader.ghost_name }
    {
        if self.height() == 1 {
            return self.number(scratch, port, i, 0);
        }
        self.number(scratch, port, i % self.width(), i / self.width())
    }

    /// The view, where it is told and has one row.
    #[inline]
    fn row(&self) -> Option<View>
        ensures { IfSome result (λ v. (self.now ≡ Told v) × (v.shape.h ≡ 1)) }
    {
        match self {
            Shown::Told(view) if view.shape.h == 1 => Some(*view),
            _ => None,
        }
    }

    /// The sum of the products of cells, of two views of one number of cells.
    #[tactic(auto, using(crate::proofs::ProductLemmas::dot_other, crate::proofs::ProductLemmas::dot_ok, crate::proofs::ProductLemmas::dot_err, crate::proofs::ProductLemmas::dot_end, crate::proofs::ProductLemmas::dot_start))]
    fn dot<C: CellReader, N: NamesTurn>(
        &self,
        other: &Shown,
        scratch: &Scratch,
        port: &mut Port<C, N>,
    ) -> Result<i64, KindWord>
        requires shown { IsShown N.turn scratch.now.numbers.items self.now }
        requires other { IsShown N.turn scratch.now.numbers.items other.now }
        ensures dot { result ≡ dot_product (grid_shown N.turn scratch.now.numbers.items self.now).cells (grid_shown N.turn scratch.now.numbers.items other.now).cells }
        ensures same_reference { port.new.reader.ghost_name ≡ port.old.reader.ghost_name }
    {
        if let Some(left) = self.row() {
            if let Some(right) = other.row() {
                return dot_rows(&left, &right, scratch, port);
            }
        }
        let cells = self.height() * self.width();
        if cells != other.height() * other.width() {
            return Err(KindWord::of(Kind::BadShape));
        }
        let mut total = 0;
        for i in 0..cells {
            let left = self.nth(scratch, port, i);
            match with_product(total, left, other.nth(scratch, port, i)) {
                Ok(next) => total = next,
                Err(kind) => return Err(kind),
            }
        }
        Ok(total)
    }
}

ghost use Rattle.pb_statements.specs.Places.{plus_product};
ghost use Rattle.pb_statements.specs.Shown.{HasNumbers};

/// How many cells of two rows of one length are taken two by two, up to the first that aren't small, and the sum of their products.
fn dot_small<C: CellReader, N: NamesTurn>(
    left: &View,
    right: &View,
    port: &mut Port<C, N>,
) -> (u64, i64)
    requires left { HasNumbers N.turn left.now }
    requires right { HasNumbers N.turn right.now }
    requires one_left { left.now.shape.h ≡ 1 }
    requires one_right { right.now.shape.h ≡ 1 }
    requires same { left.now.shape.w ≡ right.now.shape.w }
    ensures dot { (numbers : List ℤ) → products result.1 (drop result.0 (grid_shown N.turn numbers (Told left.now)).cells) (drop result.0 (grid_shown N.turn numbers (Told right.now)).cells)
        ≡ dot_product (grid_shown N.turn numbers (Told left.now)).cells (grid_shown N.turn numbers (Told right.now)).cells }
    ensures same_reference { port.new.reader.ghost_name ≡ port.old.reader.ghost_name }
{
    let pairs = left.shape.w / 2;
    let mut total = 0;
    for pair in 0..pairs {
        let i = pair * 2;
        let a = port.number(left.place(i, 0));
        let b = port.number(right.place(i, 0));
        let c = port.number(left.place(i + 1, 0));
        let d = port.number(right.place(i + 1, 0));
        if !are_small(a, b, c, d) {
            return (i, total);
        }
        total = plus_small_products(total, a, b, c, d);
    }
    (pairs * 2, total)
}

/// The sum of the products of the cells of two rows: a loop over both, by their steps.
#[tactic(auto, using(crate::proofs::ProductLemmas::dot_other, crate::proofs::ProductLemmas::dot_ok, crate::proofs::ProductLemmas::dot_err, crate::proofs::ProductLemmas::dot_end, crate::proofs::ProductLemmas::dot_start))]
fn dot_rows<C: CellReader, N: NamesTurn>(
    left: &View,
    right: &View,
    scratch: &Scratch,
    port: &mut Port<C, N>,
) -> Result<i64, KindWord>
    requires left { HasNumbers N.turn left.now }
    requires right { HasNumbers N.turn right.now }
    requires one_left { left.now.shape.h ≡ 1 }
    requires one_right { right.now.shape.h ≡ 1 }
    ensures dot { result ≡ dot_product (grid_shown N.turn scratch.now.numbers.items (Told left.now)).cells (grid_shown N.turn scratch.now.numbers.items (Told right.now)).cells }
    ensures same_reference { port.new.reader.ghost_name ≡ port.old.reader.ghost_name }
{
    let cells = left.shape.w;
    if cells != right.shape.w {
        return Err(KindWord::of(Kind::BadShape));
    }
    let (from, mut total) = dot_small(left, right, port);
    for i in from..cells {
        let first = port.number(left.place(i, 0));
        let second = port.number(right.place(i, 0));
        match with_product(total, first, second) {
            Ok(next) => total = next,
            Err(kind) => return Err(kind),
        }
    }
    Ok(total)
}

/// A sum, and a product added to it.
#[inline]
fn with_product(total: i64, left: i64, right: i64) -> Result<i64, KindWord>
    ensures { result ≡ plus_product total left right }
{
    let product = times(left, right)?;
    plus(total, product)
}

impl<'a, N: NamesTurn> Scene<'a, N> {
    /// The sum of the products of the cells of two views.
    pub(crate) fn dot<C: CellReader>(
        &self,
        what: Meaning,
        other: Meaning,
        scratch: &Scratch,
        port: &mut Port<C, N>,
    ) -> Result<i64, KindWord>
        ensures dot { result ≡ dot_product (view_of (bound self.now scratch.now) (store_of scratch.now) what).cells (view_of (bound self.now scratch.now) (store_of scratch.now) other).cells }
        ensures same_reference { port.new.reader.ghost_name ≡ port.old.reader.ghost_name }
    {
        let left = self.shown(scratch, what);
        let right = self.shown(scratch, other);
        left.dot(&right, scratch, port)
    }
}
