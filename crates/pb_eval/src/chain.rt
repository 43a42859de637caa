ghost use Rattle.std.specs.Prelude.{◌≡◌};
ghost use Rattle.pb_program.specs.declared.meaning.Meaning.TheVariants.{Read};
ghost use Rattle.pb_model.specs.Bodies.{by_operator, number_of};
ghost use Rattle.pb_statements.specs.Stored.{bound, store_of};
ghost use Rattle.pb_eval.specs.Terms.{steps_value, term_value, terms_value};

use crate::terms::{Term, Terms};
use pb_numbers::{KindWord, decided, operate};
use pb_program::Meaning;
use pb_statements::{NamesTurn, Port, Scene, Scratch};
use pb_syntax::Operator;
use pb_values::CellReader;

/// The number of the first cell of a read; 0 where there is none.
fn cell_term<C: CellReader, N: NamesTurn>(
    scene: &Scene<N>,
    k: u32,
    scratch: &Scratch,
    port: &mut Port<C, N>,
) -> i64
    ensures number { result ≡ number_of (bound scene.now scratch.now) (store_of scratch.now) (Read k) }
    ensures same_reference { port.new.reader.ghost_name ≡ port.old.reader.ghost_name }
{
    match scene.first_of_read(k, port) {
        Some(n) => n,
        None => scene.named(Meaning::Read(k), scratch, port),
    }
}

/// The value of a term.
#[tactic(auto, unfolding(crate::specs::Terms::term_value))]
fn term<C: CellReader, N: NamesTurn>(
    scene: &Scene<N>,
    term: Term,
    scratch: &Scratch,
    port: &mut Port<C, N>,
) -> Result<i64, KindWord>
    ensures value { result ≡ term_value (bound scene.now scratch.now) (store_of scratch.now) term }
    ensures same_reference { port.new.reader.ghost_name ≡ port.old.reader.ghost_name }
{
    match term {
        Term::Number(n) => Ok(n),
        Term::Cell(k) => Ok(cell_term(scene, k, scratch, port)),
        Term::Sum(k) => scene.sum(Meaning::Read(k), scratch, port),
    }
}

/// What an operator makes of a value and a term.
#[tactic(auto, using(pb_statements::proofs::ArgumentLemmas::by_decided, pb_statements::proofs::ArgumentLemmas::by_open))]
fn step<C: CellReader, N: NamesTurn>(
    scene: &Scene<N>,
    next: &(Operator, Term),
    left: i64,
    scratch: &Scratch,
    port: &mut Port<C, N>,
) -> Result<i64, KindWord>
    ensures value { result ≡ by_operator next.now.0 left (term_value (bound scene.now scratch.now) (store_of scratch.now) next.now.1) }
    ensures same_reference { port.new.reader.ghost_name ≡ port.old.reader.ghost_name }
{
    let (operator, operand) = *next;
    if let Some(value) = decided(operator, left) {
        return Ok(value);
    }
    match term(scene, operand, scratch, port) {
        Ok(right) => operate(operator, left, right),
        Err(kind) => Err(kind),
    }
}

/// What operators make of a value and of terms, from left to right.
#[tactic(auto, using(crate::proofs::TermLemmas::steps_end))]
fn steps<C: CellReader, N: NamesTurn>(
    scene: &Scene<N>,
    rest: &[(Operator, Term)],
    first: i64,
    scratch: &Scratch,
    port: &mut Port<C, N>,
) -> Result<i64, KindWord>
    ensures value { result ≡ steps_value (bound scene.now scratch.now) (store_of scratch.now) first rest.now }
    ensures same_reference { port.new.reader.ghost_name ≡ port.old.reader.ghost_name }
{
    let mut total = first;
    for next in rest {
        match step(scene, next, total, scratch, port) {
            Ok(value) => total = value,
            Err(kind) => return Err(kind),
        }
    }
    Ok(total)
}

/// The value of a chain of terms.
#[tactic(auto, unfolding(crate::specs::Terms::terms_value))]
pub(crate) fn chain_value<C: CellReader, N: NamesTurn>(
    scene: &Scene<N>,
    terms: &Terms,
    scratch: &Scratch,
    port: &mut Port<C, N>,
) -> Result<i64, KindWord>
    ensures value { result ≡ terms_value (bound scene.now scratch.now) (store_of scratch.now) terms.now }
    ensures same_reference { port.new.reader.ghost_name ≡ port.old.reader.ghost_name }
{
    let first = term(scene, terms.first, scratch, port)?;
    steps(scene, &terms.rest, first, scratch, port)
}
