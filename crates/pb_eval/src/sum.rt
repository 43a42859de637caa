ghost use Rattle.std.specs.Prelude.{◌≤◌};
ghost use Rattle.std.specs.Vec.{vec_capacity};

use crate::moving::Moving;
use crate::terms::{Term, Terms};
use pb_statements::{NamesTurn, Port};
use pb_syntax::Operator;
use pb_values::CellReader;
use std::alloc::{AllocError, Global};
use std::marker::Model;

/// How many cells there may be after the first.
const MOST_ADDED: usize = 15;

/// Numbers from its negative up to this are added without a look at each sum: sixteen of them stay within 64 bits.
const SMALL: i64 = 288_230_376_151_711_744;

/// First cells of reads that are added and taken away, one after another, as they move along a line; or room for them. `is_known`
/// tells whether they stand for the terms of a formula.
#[derive(Drop)]
pub struct Sum {
    pub(crate) is_known: bool,
    pub(crate) first: Moving,
    pub(crate) rest: Vec<(Operator, Moving)>,
    pub(crate) ghost room: { 15 ≤ vec_capacity rest },
}

impl Model for Sum {
    ghost use Rattle.pb_eval.specs.Sums.{SumValue};

    ghost Value = { SumValue };

    ghost view = { λ s. record { is_known = s.is_known; first = s.first; rest = s.rest.items } };
}

ghost use Rattle.std.specs.Prelude.{◌≡◌, ◌+◌, ◌^◌, IfSome, IsTrue, List, Ok, length, unsigned_abs};
ghost use Rattle.std.specs.List.{All};
ghost use Rattle.pb_values.specs.Cells.{is_number};
ghost use Rattle.pb_model.specs.Bodies.{Bindings, Store, by_operator};
ghost use Rattle.pb_eval.specs.FirstCells.{IsOfCell, TellsFirst};
ghost use Rattle.pb_eval.specs.Moving.{cell_at, cells_at};
ghost use Rattle.pb_eval.specs.Sums.{IsFirstOf, IsSumOf};
ghost use Rattle.pb_eval.specs.Terms.{TermsValue, terms_value};
ghost use Rattle.pb_eval.specs.declared.moving.Moving.{Moving as Moves};

/// How the first cell moves that a term is, if it is one.
fn moving_of(term: Term, cells: &[Moving]) -> Option<Moving>
    requires { IsOfCell (length cells.now) term }
    ensures { IfSome result (IsFirstOf cells.now term) }
{
    match term {
        Term::Cell(k) => Some(cells[k as usize]),
        _ => None,
    }
}

impl Sum {
    ghost use Rattle.std.specs.Prelude.{◌<◌, ◌++◌, ◌∷◌, []};
    ghost use Rattle.pb_eval.specs.FirstCells.{AreOfCells};
    ghost use Rattle.pb_eval.specs.Sums.{AreStepsOf, StandsInFor};

    /// Room for a sum.
    pub fn new(alloc: Global) -> Result<Sum, AllocError> {
        Ok(Sum {
            is_known: false,
            first: Moving { from: 0, by: 0 },
            rest: Vec::with_capacity(alloc, MOST_ADDED)?,
        })
    }

    /// Whether it stands for terms.
    #[inline(always)]
    pub fn is_known(&self) -> bool
        ensures { result ≡ self.now.is_known }
    {
        self.is_known
    }

    fn put(&mut self, operator: Operator, moving: Moving)
        requires { length self.old.rest < 15 }
        ensures rest { self.new.rest ≡ self.old.rest ++ (operator, moving) ∷ [] }
        ensures first { self.new.first ≡ self.old.first }
    {
        let _ = self.rest.push((operator, moving));
    }

    /// Takes what follows the first term, if it is first cells.
    fn go_on(&mut self, rest: &[(Operator, Term)], cells: &[Moving]) -> bool
        requires few { length rest.now ≤ 15 }
        requires terms { All (λ s. IsOfCell (length cells.now) s.1) rest.now }
        requires none { self.old.rest ≡ [] }
        ensures rest { IsTrue result → AreStepsOf cells.now rest.now self.new.rest }
        ensures first { self.new.first ≡ self.old.first }
    {
        for next in rest {
            match moving_of(next.1, cells) {
                Some(moving) => self.put(next.0, moving),
                None => return false,
            }
        }
        true
    }

    /// Takes terms that are only added and subtracted, if each is the first cell of a read.
    fn take_all(&mut self, terms: &Terms, cells: &[Moving]) -> bool
        requires { AreOfCells (length cells.now) terms.now }
        ensures { IsTrue result → IsSumOf cells.now terms.now self.new }
    {
        self.rest.clear();
        if !terms.adds {
            return false;
        }
        match moving_of(terms.first, cells) {
            Some(moving) => {
                self.first = moving;
                self.go_on(&terms.rest, cells)
            }
            None => false,
        }
    }

    /// Takes terms in the place of those that are there, where the list tells how the first cells of the reads move; `is_known` where
    /// they are only added and subtracted, and each is the first cell of a read.
    pub fn take(&mut self, terms: &Terms, cells: &[Moving])
        requires { AreOfCells (length cells.now) terms.now }
        ensures { StandsInFor cells.now terms.now self.new }
    {
        self.is_known = self.take_all(terms, cells);
    }
}

/// Whether a number is from -2^58 to 2^58.
fn is_small(n: i64) -> bool
    ensures { IsTrue result → unsigned_abs n ≤ 2 ^ 58 }
{
    n <= SMALL && n >= -SMALL
}

/// What a sum or a difference of small numbers is; none tells nothing.
fn small_step(operator: Operator, total: i64, n: i64) -> Option<i64>
    requires total { unsigned_abs total ≤ 2 ^ 62 }
    requires small { unsigned_abs n ≤ 2 ^ 58 }
    ensures value { IfSome result (λ m. by_operator operator total (Ok n) ≡ Ok m) }
    ensures small { IfSome result (λ m. unsigned_abs m ≤ unsigned_abs total + 2 ^ 58) }
{
    match operator {
        Operator::Plus => Some(total + n),
        Operator::Minus => Some(total - n),
        _ => None,
    }
}

/// The sum at a place of the line, where its numbers are small; none tells nothing.
pub(crate) fn small_sum<C: CellReader, N: NamesTurn>(
    sum: &Sum,
    place: u64,
    port: &mut Port<C, N>,
) -> Option<i64>
    requires few { length sum.now.rest ≤ 15 }
    requires first { IsTrue (is_number (N.turn.outcomes (cell_at place sum.now.first))) }
    requires rest { All (λ p. IsTrue (is_number (N.turn.outcomes (cell_at place p.1)))) sum.now.rest }
    ensures value { IfSome result (λ n. (ms : List Moves) (t : TermsValue) (b : Bindings) (st : Store) → IsSumOf ms t sum.now → TellsFirst N.turn (cells_at ms place) b → terms_value b st t ≡ Ok n) }
    ensures same_reference { port.new.reader.ghost_name ≡ port.old.reader.ghost_name }
{
    let first = port.number(sum.first.at(place));
    if !is_small(first) {
        return None;
    }
    let mut total = first;
    for next in &sum.rest {
        let n = port.number(next.1.at(place));
        if !is_small(n) {
            return None;
        }
        match small_step(next.0, total, n) {
            Some(more) => total = more,
            None => return None,
        }
    }
    Some(total)
}
