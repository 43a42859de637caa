ghost use Rattle.std.specs.Prelude.{◌≡◌, map};
ghost use Rattle.pb_program.specs.Exprs.{bare};
ghost use Rattle.pb_program.specs.Stmts.{bare_stmt, let_number, let_matrix, assign, call_stmt, assign_cell, if_stmt, if_else, for_stmt, stmts};

use pb_program::{Called, Expr, LocalForm, Named, Stmt};

/// The declaration of a number.
pub fn let_number(at: u32, name: Named, value: Expr) -> Stmt
    ensures { bare_stmt result ≡ let_number at name (bare value) }
{
    Stmt::Let { at, name, value }
}

/// The declaration of a matrix.
pub fn let_matrix(at: u32, name: Named, dims: Vec<LocalForm>) -> Stmt
    ensures { bare_stmt result ≡ let_matrix at name dims.items }
{
    Stmt::LetMatrix { at, name, dims }
}

/// An assignment to a name.
pub fn assign(target: Named, value: Expr) -> Stmt
    ensures { bare_stmt result ≡ assign target (bare value) }
{
    Stmt::Assign { target, value }
}

/// A call with two or more targets.
pub fn call(targets: Vec<Named>, called: Called, arguments: Vec<Expr>) -> Stmt
    ensures { bare_stmt result ≡ call_stmt targets.items called (map bare arguments.items) }
{
    Stmt::Call {
        targets,
        called,
        arguments,
    }
}

/// An assignment to a cell of a view.
pub fn assign_cell(target: Named, coordinates: Vec<Expr>, value: Expr) -> Stmt
    ensures { bare_stmt result ≡ assign_cell target (map bare coordinates.items) (bare value) }
{
    Stmt::AssignCell {
        target,
        coordinates,
        value,
    }
}

/// A branch without an `else`.
pub fn when(at: u32, test: Expr, then: Vec<Stmt>) -> Stmt
    ensures { bare_stmt result ≡ if_stmt at (bare test) (stmts (map bare_stmt then.items)) }
{
    Stmt::If {
        at,
        test,
        then,
        otherwise: None,
    }
}

/// A branch with an `else`.
pub fn either(at: u32, test: Expr, then: Vec<Stmt>, otherwise: Vec<Stmt>) -> Stmt
    ensures { bare_stmt result ≡ if_else at (bare test) (stmts (map bare_stmt then.items)) (stmts (map bare_stmt otherwise.items)) }
{
    Stmt::If {
        at,
        test,
        then,
        otherwise: Some(otherwise),
    }
}

/// A loop.
pub fn repeat(at: u32, name: Named, start: Expr, end: Expr, body: Vec<Stmt>) -> Stmt
    ensures { bare_stmt result ≡ for_stmt at name (bare start) (bare end) (stmts (map bare_stmt body.items)) }
{
    Stmt::For {
        at,
        name,
        start,
        end,
        body,
    }
}
