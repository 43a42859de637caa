ghost use Rattle.std.specs.Prelude.{◌≤◌};
ghost use Rattle.std.specs.Vec.{vec_capacity};

use pb_numbers::number;
use pb_program::{Callee, Expr, Function, Meaning};
use pb_statements::named_view;
use pb_syntax::Operator;
use std::alloc::{AllocError, Global};
use std::marker::Model;

/// A term of a formula: a number, the first cell of a read, or the sum of a read.
#[derive(Clone, Copy)]
pub enum Term {
    Number(i64),
    Cell(u32),
    Sum(u32),
}

/// How many terms there may be after the first.
const MOST_STEPS: usize = 15;

/// A formula that is a chain of terms: the first, and each further one after its operator; or room for one. `adds` tells whether it is
/// worth a try to take them for a sum: no operator but `+` and `-` is among them.
#[derive(Drop)]
pub struct Terms {
    pub(crate) is_whole: bool,
    pub(crate) adds: bool,
    pub(crate) first: Term,
    pub(crate) rest: Vec<(Operator, Term)>,
    pub(crate) ghost room: { 15 ≤ vec_capacity rest },
}

impl Model for Terms {
    ghost use Rattle.pb_eval.specs.Terms.{TermsValue};

    ghost Value = { TermsValue };

    ghost view = { λ t. record { is_whole = t.is_whole; first = t.first; rest = t.rest.items } };
}

ghost use Rattle.std.specs.Prelude.{◌≡◌, IfSome, IsTrue};
ghost use Rattle.pb_program.specs.declared.meaning.Callee.TheVariants.{Function as InFunction};
ghost use Rattle.pb_program.specs.declared.meaning.Function.TheVariants.{Sum as OfSum};
ghost use Rattle.pb_program.specs.declared.meaning.Meaning.TheVariants.{Read};
ghost use Rattle.pb_model.specs.Bodies.{Bindings, Store};
ghost use Rattle.pb_statements.specs.Working.{function_in};
ghost use Rattle.pb_eval.specs.Terms.{IsTerm, term_value};

/// The number of the read that a name stands for, if it stands for one.
fn read_of(what: Meaning) -> Option<u32>
    ensures { IfSome result (λ k. what ≡ Read k) }
{
    match what {
        Meaning::Read(k) => Some(k),
        _ => None,
    }
}

/// Whether it is the function `sum` that is called.
fn is_sum(called: Callee) -> bool
    ensures { IsTrue result → called ≡ InFunction OfSum }
{
    matches!(called, Callee::Function(Function::Sum))
}

/// The sum of a read as a term, if that is what is to be summed.
fn sum_term(arguments: &[Expr]) -> Option<Term>
    ensures { IfSome result (λ t. (b : Bindings) (st : Store) → function_in b st OfSum arguments.now ≡ term_value b st t) }
{
    match arguments {
        [view] => match read_of(named_view(view)) {
            Some(k) => Some(Term::Sum(k)),
            None => None,
        },
        _ => None,
    }
}

/// An expression as a term, if it is one.
#[tactic(auto, using(pb_statements::proofs::ExprLemmas::call_in), unfolding(pb_statements::specs::Working::value_in, pb_model::specs::Bodies::value, crate::specs::Terms::term_value))]
fn term_of(e: &Expr) -> Option<Term>
    ensures { IfSome result (IsTerm e.now) }
{
    match e {
        Expr::Number { value, .. } => match number(*value) {
            Ok(n) => Some(Term::Number(n)),
            Err(_) => None,
        },
        Expr::Name(name) => match read_of(name.what) {
            Some(k) => Some(Term::Cell(k)),
            None => None,
        },
        Expr::Call { called, arguments } if is_sum(called.what) => sum_term(arguments),
        _ => None,
    }
}

impl Terms {
    ghost use Rattle.std.specs.Prelude.{◌<◌, ◌++◌, ◌∷◌, [], length};
    ghost use Rattle.pb_eval.specs.Terms.{AreSteps, AreTerms, StandFor};

    /// Room for a formula.
    pub fn new(alloc: Global) -> Result<Terms, AllocError> {
        Ok(Terms {
            is_whole: false,
            adds: false,
            first: Term::Number(0),
            rest: Vec::with_capacity(alloc, MOST_STEPS)?,
        })
    }

    fn put(&mut self, operator: Operator, term: Term)
        requires { length self.old.rest < 15 }
        ensures rest { self.new.rest ≡ self.old.rest ++ (operator, term) ∷ [] }
        ensures first { self.new.first ≡ self.old.first }
    {
        if !matches!(operator, Operator::Plus | Operator::Minus) {
            self.adds = false;
        }
        let _ = self.rest.push((operator, term));
    }

    /// Takes an expression as the only term, if it is one.
    fn begin(&mut self, e: &Expr) -> bool
        ensures first { IsTrue result → IsTerm e.now self.new.first }
        ensures rest { self.new.rest ≡ [] }
    {
        self.rest.clear();
        self.adds = true;
        match term_of(e) {
            Some(term) => {
                self.first = term;
                true
            }
            None => false,
        }
    }

    /// Takes what follows the first term, if it is terms.
    fn go_on(&mut self, rest: &[(Operator, Expr)]) -> bool
        requires few { length rest.now ≤ 15 }
        requires none { self.old.rest ≡ [] }
        ensures rest { IsTrue result → AreSteps rest.now self.new.rest }
        ensures first { self.new.first ≡ self.old.first }
    {
        for next in rest {
            match term_of(&next.1) {
                Some(term) => self.put(next.0, term),
                None => return false,
            }
        }
        true
    }

    /// Takes a formula that is one term or a chain of at most 16; false for any other.
    fn take_all(&mut self, e: &Expr) -> bool
        ensures { IsTrue result → AreTerms e.now self.new }
    {
        let Expr::Chain { first, rest, .. } = e else {
            return self.begin(e);
        };
        if rest.len() > MOST_STEPS {
            return false;
        }
        if !self.begin(first) {
            return false;
        }
        self.go_on(rest)
    }

    /// Takes the terms of a formula in the place of those that are there, if they are seen to be its terms (`is_whole`). Those of a
    /// chain of at most 16 are.
    pub fn take(&mut self, e: &Expr)
        ensures { StandFor e.now self.new }
    {
        self.is_whole = self.take_all(e);
    }
}
