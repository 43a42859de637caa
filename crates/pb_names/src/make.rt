ghost use Rattle.std.specs.Prelude.{◌≡◌, ◌∷◌, IfOk, map};
ghost use Rattle.pb_program.specs.Exprs.{bare, number, name, call, parentheses, cell, width, height, signed, chain, compare, exprs, operands};

use pb_program::{Called, Expr, Named};
use pb_syntax::{Level, Operator, Relation, UnarySign};
use std::alloc::{AllocError, Global};

/// A number at its place.
pub fn number(at: u32, value: u64) -> Expr
    ensures { bare result ≡ number at value }
{
    Expr::Number { at, value }
}

/// A name that stands alone.
pub fn name(of: Named) -> Expr
    ensures { bare result ≡ name of }
{
    Expr::Name(of)
}

/// A call.
pub fn call(called: Called, arguments: Vec<Expr>) -> Expr
    ensures { bare result ≡ call called (exprs (map bare arguments.items)) }
{
    Expr::Call { called, arguments }
}

/// A cell of a view.
pub fn cell(view: Named, coordinates: Vec<Expr>) -> Expr
    ensures { bare result ≡ cell view (exprs (map bare coordinates.items)) }
{
    Expr::Cell { view, coordinates }
}

/// The width of a view.
pub fn width(view: Named) -> Expr
    ensures { bare result ≡ width view }
{
    Expr::Width(view)
}

/// The height of a view.
pub fn height(view: Named) -> Expr
    ensures { bare result ≡ height view }
{
    Expr::Height(view)
}

/// An expression in parentheses that open at `at`.
pub fn parentheses(alloc: Global, at: u32, inner: Expr) -> Result<Expr, AllocError>
    ensures { IfOk result (λ e. bare e ≡ parentheses at (bare inner)) }
{
    Ok(Expr::Parentheses {
        at,
        inner: Box::new(alloc, inner)?,
    })
}

/// An operand with the unary operator at `at` before it.
pub fn signed(alloc: Global, at: u32, sign: UnarySign, operand: Expr) -> Result<Expr, AllocError>
    ensures { IfOk result (λ e. bare e ≡ signed at sign (bare operand)) }
{
    Ok(Expr::Signed {
        at,
        sign,
        operand: Box::new(alloc, operand)?,
    })
}

/// A chain of operands.
pub fn chain(
    alloc: Global,
    level: Level,
    first: Expr,
    rest: Vec<(Operator, Expr)>,
) -> Result<Expr, AllocError>
    ensures { IfOk result (λ e. bare e ≡ chain level (bare first) (operands (map (λ o. (o.0, bare o.1)) rest.items))) }
{
    Ok(Expr::Chain {
        level,
        first: Box::new(alloc, first)?,
        rest,
    })
}

/// Two sides of a relation.
pub fn compare(
    alloc: Global,
    left: Expr,
    relation: Relation,
    right: Expr,
) -> Result<Expr, AllocError>
    ensures { IfOk result (λ e. bare e ≡ compare (bare left) relation (bare right)) }
{
    Ok(Expr::Compare {
        left: Box::new(alloc, left)?,
        relation,
        right: Box::new(alloc, right)?,
    })
}
