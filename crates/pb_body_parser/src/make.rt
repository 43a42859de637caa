ghost use Rattle.std.specs.Prelude.{◌≡◌, [], ◌∷◌, IfOk, IfErr, map, Some, None};
ghost use Rattle.pb_syntax.specs.Exprs.{bare, number, name, call, parentheses, cell, width, height, signed, compare, exprs};
ghost use Rattle.pb_syntax.specs.Stmts.{bare_stmt, stmts, if_stmt, if_else, for_stmt, let_number, let_matrix, assign, assign_cell, call_stmt};
ghost use Rattle.pb_form_parser.specs.declared.fault.Fault.TheVariants.{Memory};
ghost use Rattle.pb_syntax.specs.Exprs.{chained};
ghost use Rattle.pb_body_parser.specs.Bare.{bares, bare_operands, bare_stmts};

use pb_form_parser::Fault;
use pb_syntax::{ExprText, FormText, Level, Name, Operator, Relation, StmtText, UnarySign};
use std::alloc::Global;

/// A number at its place.
pub fn number(at: u32, value: u64) -> ExprText
    ensures made { bare result ≡ number at value }
{
    ExprText::Number { at, value }
}

/// A name that stands alone.
pub fn named(of: Name) -> ExprText
    ensures made { bare result ≡ name of }
{
    ExprText::Name(of)
}

/// A call.
pub fn call(called: Name, arguments: Vec<ExprText>) -> ExprText
    ensures made { bare result ≡ call called (exprs (bares arguments.items)) }
{
    ExprText::Call { called, arguments }
}

/// A cell of a view.
pub fn cell(view: Name, coordinates: Vec<ExprText>) -> ExprText
    ensures made { bare result ≡ cell view (exprs (bares coordinates.items)) }
{
    ExprText::Cell { view, coordinates }
}

/// The width of a view.
pub fn width(view: Name) -> ExprText
    ensures made { bare result ≡ width view }
{
    ExprText::Width(view)
}

/// The height of a view.
pub fn height(view: Name) -> ExprText
    ensures made { bare result ≡ height view }
{
    ExprText::Height(view)
}

/// An expression in parentheses that open at `at`.
pub fn parentheses(alloc: Global, at: u32, inner: ExprText) -> Result<ExprText, Fault>
    ensures made { IfOk result (λ e. bare e ≡ parentheses at (bare inner)) }
    ensures memory { IfErr result (λ e. e ≡ Memory) }
{
    Ok(ExprText::Parentheses {
        at,
        inner: Box::new(alloc, inner)?,
    })
}

/// An operand with the unary operator at `at` before it.
pub fn signed(alloc: Global, at: u32, sign: UnarySign, inner: ExprText) -> Result<ExprText, Fault>
    ensures made { IfOk result (λ e. bare e ≡ signed at sign (bare inner)) }
    ensures memory { IfErr result (λ e. e ≡ Memory) }
{
    Ok(ExprText::Signed {
        at,
        sign,
        operand: Box::new(alloc, inner)?,
    })
}

/// A chain of operands, or the first if it is the only one.
pub fn chained(
    alloc: Global,
    level: Level,
    first: ExprText,
    rest: Vec<(Operator, ExprText)>,
) -> Result<ExprText, Fault>
    ensures made { IfOk result (λ e. bare e ≡ chained level (bare first) (bare_operands rest.items)) }
    ensures memory { IfErr result (λ e. e ≡ Memory) }
{
    if rest.is_empty() {
        return Ok(first);
    }
    Ok(ExprText::Chain {
        level,
        first: Box::new(alloc, first)?,
        rest,
    })
}

/// Two sides of a relation.
pub fn compared(
    alloc: Global,
    left: ExprText,
    relation: Relation,
    right: ExprText,
) -> Result<ExprText, Fault>
    ensures made { IfOk result (λ e. bare e ≡ compare (bare left) relation (bare right)) }
    ensures memory { IfErr result (λ e. e ≡ Memory) }
{
    Ok(ExprText::Compare {
        left: Box::new(alloc, left)?,
        relation,
        right: Box::new(alloc, right)?,
    })
}

/// An expression as a list.
pub fn one(alloc: Global, x: ExprText) -> Result<Vec<ExprText>, Fault>
    ensures made { IfOk result (λ v. bares v.items ≡ bare x ∷ []) }
    ensures memory { IfErr result (λ e. e ≡ Memory) }
{
    let mut found = Vec::new(alloc);
    found.push(x)?;
    Ok(found)
}

/// Two expressions as a list.
pub fn two(alloc: Global, x: ExprText, y: ExprText) -> Result<Vec<ExprText>, Fault>
    ensures made { IfOk result (λ v. bares v.items ≡ bare x ∷ bare y ∷ []) }
    ensures memory { IfErr result (λ e. e ≡ Memory) }
{
    let mut found = one(alloc, x)?;
    found.push(y)?;
    Ok(found)
}

/// A number local.
pub fn let_number(at: u32, name: Name, value: ExprText) -> StmtText
    ensures made { bare_stmt result ≡ let_number at name (bare value) }
{
    StmtText::Let { at, name, value }
}

/// A matrix local.
pub fn let_matrix(at: u32, name: Name, dims: Vec<FormText>) -> StmtText
    ensures made { bare_stmt result ≡ let_matrix at name dims.items }
{
    StmtText::LetMatrix { at, name, dims }
}

/// An assignment to a name.
pub fn assign(target: Name, value: ExprText) -> StmtText
    ensures made { bare_stmt result ≡ assign target (bare value) }
{
    StmtText::Assign { target, value }
}

/// An assignment to a cell.
pub fn assign_cell(target: Name, coordinates: Vec<ExprText>, value: ExprText) -> StmtText
    ensures made { bare_stmt result ≡ assign_cell target (bares coordinates.items) (bare value) }
{
    StmtText::AssignCell {
        target,
        coordinates,
        value,
    }
}

/// A call with several targets.
pub fn call_statement(targets: Vec<Name>, called: Name, arguments: Vec<ExprText>) -> StmtText
    ensures made { bare_stmt result ≡ call_stmt targets.items called (bares arguments.items) }
{
    StmtText::Call {
        targets,
        called,
        arguments,
    }
}

/// An `if` without `else`.
pub fn if_holds(at: u32, test: ExprText, then: Vec<StmtText>) -> StmtText
    ensures made { bare_stmt result ≡ if_stmt at (bare test) (stmts (bare_stmts then.items)) }
{
    StmtText::If {
        at,
        test,
        then,
        otherwise: None,
    }
}

/// An `if` with `else`.
pub fn if_or_else(
    at: u32,
    test: ExprText,
    then: Vec<StmtText>,
    otherwise: Vec<StmtText>,
) -> StmtText
    ensures made { bare_stmt result ≡ if_else at (bare test) (stmts (bare_stmts then.items)) (stmts (bare_stmts otherwise.items)) }
{
    StmtText::If {
        at,
        test,
        then,
        otherwise: Some(otherwise),
    }
}

/// A loop over the numbers from a start up to an end.
pub fn for_each(
    at: u32,
    name: Name,
    start: ExprText,
    end: ExprText,
    body: Vec<StmtText>,
) -> StmtText
    ensures made { bare_stmt result ≡ for_stmt at name (bare start) (bare end) (stmts (bare_stmts body.items)) }
{
    StmtText::For {
        at,
        name,
        start,
        end,
        body,
    }
}
