ghost use Rattle.std.specs.Prelude.{◌≡◌, IsTrue, Ok, length};
ghost use Rattle.std.specs.List.{All};
ghost use Rattle.pb_values.specs.Cells.{is_number};
ghost use Rattle.pb_model.specs.Bodies.{Bindings, Store, by_operator};
ghost use Rattle.pb_eval.specs.FirstCells.{AreOfCells, IsOfCell, TellsFirst, is_of_cell};
ghost use Rattle.pb_eval.specs.Terms.{steps_value, term_value, terms_value};

use crate::moving::Along;
use crate::terms::{Term, Terms};
use pb_numbers::{KindWord, decided, operate};
use pb_statements::{NamesTurn, Port};
use pb_syntax::Operator;
use pb_values::CellReader;

/// The most terms after the first.
const MOST_ADDED: usize = 15;

/// Whether a term is a number, or the first cell of one of so many reads.
fn is_of_cell(term: Term, reads: u64) -> bool
    ensures { result ≡ is_of_cell reads term }
{
    match term {
        Term::Number(_) => true,
        Term::Cell(k) => (k as u64) < reads,
        Term::Sum(_) => false,
    }
}

impl Terms {
    /// True only where there are terms, at most 16, each a number or the first cell of one of so many reads.
    pub fn are_of_cells(&self, reads: u64) -> bool
        ensures { IsTrue result → AreOfCells reads self.now }
    {
        if !self.is_whole {
            return false;
        }
        if self.rest.len() > MOST_ADDED {
            return false;
        }
        if !is_of_cell(self.first, reads) {
            return false;
        }
        for next in &self.rest {
            if !is_of_cell(next.1, reads) {
                return false;
            }
        }
        true
    }
}

/// The number of a term, over the first cells of the reads.
#[inline(always)]
fn cell_number<C: CellReader, N: NamesTurn>(
    term: Term,
    cells: &Along<'_>,
    port: &mut Port<C, N>,
) -> i64
    requires term { IsOfCell (length cells.now) term }
    requires told { All (λ c. IsTrue (is_number (N.turn.outcomes c))) cells.now }
    ensures value { (b : Bindings) (st : Store) → TellsFirst N.turn cells.now b → term_value b st term ≡ Ok result }
    ensures same_reference { port.new.reader.ghost_name ≡ port.old.reader.ghost_name }
{
    match term {
        Term::Number(n) => n,
        Term::Cell(k) => port.number(cells.cell(k)),
        Term::Sum(_) => 0,
    }
}

/// What an operator makes of a value and a term, over the first cells of the reads.
#[inline(always)]
fn cell_step<C: CellReader, N: NamesTurn>(
    next: &(Operator, Term),
    left: i64,
    cells: &Along<'_>,
    port: &mut Port<C, N>,
) -> Result<i64, KindWord>
    requires term { IsOfCell (length cells.now) next.now.1 }
    requires told { All (λ c. IsTrue (is_number (N.turn.outcomes c))) cells.now }
    ensures value { (b : Bindings) (st : Store) → TellsFirst N.turn cells.now b → result ≡ by_operator next.now.0 left (term_value b st next.now.1) }
    ensures same_reference { port.new.reader.ghost_name ≡ port.old.reader.ghost_name }
{
    let (operator, term) = *next;
    if let Some(value) = decided(operator, left) {
        return Ok(value);
    }
    let right = cell_number(term, cells, port);
    operate(operator, left, right)
}

/// What operators make of a value and of terms, from left to right, over the first cells of the reads.
fn cell_steps<C: CellReader, N: NamesTurn>(
    rest: &[(Operator, Term)],
    first: i64,
    cells: &Along<'_>,
    port: &mut Port<C, N>,
) -> Result<i64, KindWord>
    requires terms { All (λ s. IsOfCell (length cells.now) s.1) rest.now }
    requires told { All (λ c. IsTrue (is_number (N.turn.outcomes c))) cells.now }
    ensures value { (b : Bindings) (st : Store) → TellsFirst N.turn cells.now b → result ≡ steps_value b st first rest.now }
    ensures same_reference { port.new.reader.ghost_name ≡ port.old.reader.ghost_name }
{
    let mut total = first;
    for next in rest {
        match cell_step(next, total, cells, port) {
            Ok(value) => total = value,
            Err(kind) => return Err(kind),
        }
    }
    Ok(total)
}

/// The value of terms, over the first cells of the reads.
pub(crate) fn cells_value<C: CellReader, N: NamesTurn>(
    terms: &Terms,
    cells: &Along<'_>,
    port: &mut Port<C, N>,
) -> Result<i64, KindWord>
    requires terms { AreOfCells (length cells.now) terms.now }
    requires told { All (λ c. IsTrue (is_number (N.turn.outcomes c))) cells.now }
    ensures value { (b : Bindings) (st : Store) → TellsFirst N.turn cells.now b → result ≡ terms_value b st terms.now }
    ensures same_reference { port.new.reader.ghost_name ≡ port.old.reader.ghost_name }
{
    let first = cell_number(terms.first, cells, port);
    cell_steps(&terms.rest, first, cells, port)
}
