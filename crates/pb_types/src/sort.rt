ghost use Rattle.std.specs.Prelude.{◌≡◌};
ghost use Rattle.pb_types.specs.Least.{least_of};
ghost use Rattle.pb_types.specs.Sorts.{level_sort, sign_sort, is_sort};
ghost use Rattle.pb_types.specs.Working.{sort_in, place_in, name_in, wrong_in};

use crate::least::unless;
use pb_program::{Expr, Named};
use pb_syntax::{Level, UnarySign};

/// The sorts of expressions.
#[derive(Clone, Copy)]
pub(crate) enum Sort {
    Number,
    Truth,
}

/// The sort of a chain and of its operands.
pub(crate) fn level_sort(level: Level) -> Sort
    ensures { result ≡ level_sort level }
{
    match level {
        Level::Product | Level::Sum => Sort::Number,
        Level::Conjunction | Level::Disjunction => Sort::Truth,
    }
}

/// The sort of an operand after its sign, and of the operand itself.
pub(crate) fn sign_sort(sign: UnarySign) -> Sort
    ensures { result ≡ sign_sort sign }
{
    match sign {
        UnarySign::Minus => Sort::Number,
        UnarySign::Not => Sort::Truth,
    }
}

/// The sort of an expression.
#[tactic(auto, unfolding(crate::specs::Working::sort_in))]
pub(crate) fn sort_of(e: &Expr) -> Sort
    ensures { result ≡ sort_in e.now }
{
    match e {
        Expr::Parentheses { inner, .. } => sort_of(inner),
        Expr::Signed { sign, .. } => sign_sort(*sign),
        Expr::Chain { level, .. } => level_sort(*level),
        Expr::Compare { .. } => Sort::Truth,
        _ => Sort::Number,
    }
}

/// The place of an expression's first byte.
#[tactic(auto, unfolding(crate::specs::Working::place_in))]
pub(crate) fn place_of(e: &Expr) -> u32
    ensures { result ≡ place_in e.now }
{
    match e {
        Expr::Number { at, .. } => *at,
        Expr::Name(name) => name.at,
        Expr::Call { called, .. } => called.at,
        Expr::Parentheses { at, .. } => *at,
        Expr::Cell { view, .. } => view.at,
        Expr::Width(view) => view.at,
        Expr::Height(view) => view.at,
        Expr::Signed { at, .. } => *at,
        Expr::Chain { first, .. } => place_of(first),
        Expr::Compare { left, .. } => place_of(left),
    }
}

/// The name that an expression is.
#[tactic(auto, unfolding(crate::specs::Working::name_in))]
pub(crate) fn lone_name(e: &Expr) -> Option<Named>
    ensures { result ≡ name_in e.now }
{
    match e {
        Expr::Name(name) => Some(*name),
        _ => None,
    }
}

fn is_sort(a: Sort, b: Sort) -> bool
    ensures { result ≡ is_sort a b }
{
    match (a, b) {
        (Sort::Number, Sort::Number) => true,
        (Sort::Truth, Sort::Truth) => true,
        _ => false,
    }
}

/// The place of an operand that hasn't the sort that is taken.
#[tactic(auto, unfolding(crate::specs::Working::sort_in, crate::specs::Working::place_in, crate::specs::Working::wrong_in))]
pub(crate) fn wrong_sort(taken: Sort, e: &Expr) -> Option<u32>
    ensures { result ≡ least_of (wrong_in taken e.now) }
{
    unless(is_sort(taken, sort_of(e)), place_of(e))
}
