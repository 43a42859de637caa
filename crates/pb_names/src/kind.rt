ghost use Rattle.std.specs.Prelude.{◌≡◌};
ghost use Rattle.pb_names.specs.Kinds.{args_call_in, calls_in, is_transform, operands_call_in, plans_in, some_calls_in, some_plans_in};

use pb_program::{Callee, Expr, Stmt};
use pb_syntax::Operator;

fn is_transform(callee: &Callee) -> bool
    ensures { result ≡ is_transform callee.now }
{
    match callee {
        Callee::Transform(_) => true,
        Callee::Function(_) => false,
    }
}

/// Whether an expression calls a transform.
#[cycle(calls)]
#[tactic(auto, unfolding(crate::specs::Kinds::calls_in, crate::specs::Kinds::some_calls_in, crate::specs::Kinds::operands_call_in))]
fn calls(e: &Expr) -> bool
    ensures { result ≡ calls_in e.now }
{
    match e {
        Expr::Number { .. } => false,
        Expr::Name(_) => false,
        Expr::Call { called, arguments } => is_transform(&called.what) || some_calls(arguments),
        Expr::Parentheses { inner, .. } => calls(inner),
        Expr::Cell { coordinates, .. } => some_calls(coordinates),
        Expr::Width(_) => false,
        Expr::Height(_) => false,
        Expr::Signed { operand, .. } => calls(operand),
        Expr::Chain { first, rest, .. } => calls(first) || operands_call(rest),
        Expr::Compare { left, right, .. } => calls(left) || calls(right),
    }
}

#[cycle(calls)]
#[tactic(auto, using(crate::proofs::KindLemmas::any_next, crate::proofs::KindLemmas::any_here, crate::proofs::KindLemmas::exprs_any, crate::proofs::KindLemmas::args_any, crate::proofs::KindLemmas::exprs_none, crate::proofs::KindLemmas::args_none))]
fn some_calls(xs: &[Expr]) -> bool
    ensures some { result ≡ some_calls_in xs.now }
    ensures listed { result ≡ args_call_in xs.now }
{
    for next in xs {
        if calls(next) {
            return true;
        }
    }
    false
}

#[cycle(calls)]
#[tactic(auto, using(crate::proofs::KindLemmas::any_next, crate::proofs::KindLemmas::any_here, crate::proofs::KindLemmas::operands_any, crate::proofs::KindLemmas::operands_none))]
fn operands_call(xs: &[(Operator, Expr)]) -> bool
    ensures { result ≡ operands_call_in xs.now }
{
    for next in xs {
        if calls(&next.1) {
            return true;
        }
    }
    false
}

/// Whether a statement calls a transform or declares a matrix.
#[cycle(plans)]
#[tactic(auto, unfolding(crate::specs::Kinds::calls_in, crate::specs::Kinds::args_call_in, crate::specs::Kinds::plans_in, crate::specs::Kinds::some_plans_in))]
fn plans(s: &Stmt) -> bool
    ensures { result ≡ plans_in s.now }
{
    match s {
        Stmt::Let { value, .. } => calls(value),
        Stmt::LetMatrix { .. } => true,
        Stmt::Assign { value, .. } => calls(value),
        Stmt::Call {
            called,
            arguments,
            ..
        } => is_transform(&called.what) || some_calls(arguments),
        Stmt::AssignCell {
            coordinates,
            value,
            ..
        } => some_calls(coordinates) || calls(value),
        Stmt::If {
            test,
            then,
            otherwise: None,
            ..
        } => calls(test) || some_plans(then),
        Stmt::If {
            test,
            then,
            otherwise: Some(otherwise),
            ..
        } => calls(test) || some_plans(then) || some_plans(otherwise),
        Stmt::For {
            start,
            end,
            body,
            ..
        } => calls(start) || calls(end) || some_plans(body),
    }
}

/// Whether statements make their rule a plan.
#[cycle(plans)]
#[tactic(auto, using(crate::proofs::KindLemmas::any_next, crate::proofs::KindLemmas::any_here, crate::proofs::KindLemmas::stmts_any, crate::proofs::KindLemmas::stmts_none))]
pub fn some_plans(ss: &[Stmt]) -> bool
    ensures { result ≡ some_plans_in ss.now }
{
    for next in ss {
        if plans(next) {
            return true;
        }
    }
    false
}
