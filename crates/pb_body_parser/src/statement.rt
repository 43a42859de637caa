ghost use Rattle.std.specs.Prelude.{◌≡◌, ◌≤◌, ◌<◌, ◌+◌, [], ◌∷◌, ℕ, length, Err, Some, OnOk, IfOk, IfErr};
ghost use Rattle.pb_syntax.specs.declared.kind.TokenKind.TheVariants as k;
ghost use Rattle.pb_syntax.specs.declared.refusal.Item.TheVariants.{Statements, Targets};
ghost use Rattle.pb_form_parser.specs.declared.fault.Fault.TheVariants.{Memory};
ghost use Rattle.pb_syntax.specs.Exprs.{bare};
ghost use Rattle.pb_syntax.specs.Stmts.{StmtTree, bare_stmt};
ghost use Rattle.pb_grammar.specs.Starts.{begins_statement};
ghost use Rattle.pb_body_parser.specs.Bare.{bares, bare_stmts};
ghost use Rattle.pb_grammar.specs.Want.{Want, begin, name_token, statements, statement, block, after_let, after_target, more_targets, called, after_dot, after_if, after_for, otherwise, dimensions};
ghost use Rattle.pb_syntax.specs.Limits.{over};
ghost use Rattle.pb_form_parser.specs.Leads.{Leads, Fails, told, from, Shortens, NeverGrows};
ghost use Rattle.pb_body_parser.specs.Bodies.{LeadsCounted};

use crate::bracket::{name, open, word};
use crate::expression::{coordinates, expression, some_arguments};
use crate::make::{
    assign, assign_cell, call_statement, for_each, if_holds, if_or_else, let_matrix, let_number,
};
use pb_form_parser::{Cursor, Fault, dims, name_in, then, without};
use pb_syntax::{
    ExprText, FormText, Item, MOST_NESTING, MOST_STATEMENTS, MOST_TARGETS, Name, StmtText,
    TokenKind,
};
use std::alloc::Global;

fn begins_statement(kind: TokenKind) -> bool
    ensures { result ≡ begins_statement kind }
{
    match kind {
        TokenKind::Let | TokenKind::Name | TokenKind::If | TokenKind::For => true,
        _ => false,
    }
}

/// The dimensions of a matrix local.
#[tactic(auto, unfolding(pb_grammar::specs::Want::dimensions))]
fn dimensions(alloc: Global, cursor: &mut Cursor<'_>) -> Result<Vec<FormText>, Fault>
    ensures leads { Leads (λ v. v.items) result dimensions cursor.old cursor.new }
    ensures shorter { Shortens result cursor.old cursor.new }
{
    dims(alloc, cursor)
}

/// The local after the `let` at `at`: a number or a matrix.
#[tactic(auto, using(crate::proofs::ReadLemmas::fails_then))]
fn after_let(
    alloc: Global,
    cursor: &mut Cursor<'_>,
    depth: u32,
    at: u32,
    name: Name,
) -> Result<StmtText, Fault>
    requires nested { depth ≤ MOST_NESTING }
    ensures leads { Leads bare_stmt result (after_let depth at name) cursor.old cursor.new }
    ensures shorter { Shortens result cursor.old cursor.new }
{
    match cursor.peek() {
        TokenKind::Assign => {
            cursor.take();
            let value = expression(alloc, cursor, depth)?;
            let value = then(cursor, TokenKind::Semicolon, value)?;
            Ok(let_number(at, name, value))
        }
        TokenKind::OpenBracket => {
            cursor.take();
            let found = dimensions(alloc, cursor)?;
            let found = then(cursor, TokenKind::Semicolon, found)?;
            Ok(let_matrix(at, name, found))
        }
        _ => Err(cursor.bad()),
    }
}

/// What stands after a statement's first name: an assignment, an assignment to a cell, or a call.
#[tactic(auto, using(crate::proofs::ReadLemmas::fails_then))]
fn after_target(
    alloc: Global,
    cursor: &mut Cursor<'_>,
    depth: u32,
    target: Name,
) -> Result<StmtText, Fault>
    requires nested { depth ≤ MOST_NESTING }
    ensures leads { Leads bare_stmt result (after_target depth target) cursor.old cursor.new }
    ensures shorter { Shortens result cursor.old cursor.new }
{
    match cursor.peek() {
        TokenKind::Assign => {
            cursor.take();
            let value = expression(alloc, cursor, depth)?;
            let value = then(cursor, TokenKind::Semicolon, value)?;
            Ok(assign(target, value))
        }
        TokenKind::Comma => {
            cursor.take();
            let second = name(alloc, cursor)?;
            let found = two_names(alloc, target, second)?;
            more_targets(alloc, cursor, depth, found)
        }
        TokenKind::Dot => {
            cursor.take();
            after_dot(alloc, cursor, depth, target)
        }
        _ => Err(cursor.bad()),
    }
}

fn two_names(alloc: Global, first: Name, second: Name) -> Result<Vec<Name>, Fault>
    ensures made { IfOk result (λ v. v.items ≡ first ∷ second ∷ []) }
    ensures memory { IfErr result (λ e. e ≡ Memory) }
{
    let mut found = Vec::new(alloc);
    found.push(first)?;
    found.push(second)?;
    Ok(found)
}

/// An assignment to a cell, after its `.`.
#[tactic(auto, using(crate::proofs::ReadLemmas::fails_then), unfolding(pb_grammar::specs::Want::after_dot))]
fn after_dot(
    alloc: Global,
    cursor: &mut Cursor<'_>,
    depth: u32,
    target: Name,
) -> Result<StmtText, Fault>
    requires nested { depth ≤ MOST_NESTING }
    ensures leads { Leads bare_stmt result (after_dot depth target) cursor.old cursor.new }
    ensures shorter { Shortens result cursor.old cursor.new }
{
    word(cursor, b"cell".as_slice())?;
    let place = coordinates(alloc, cursor, depth)?;
    cursor.expect(TokenKind::Assign)?;
    let value = expression(alloc, cursor, depth)?;
    let value = then(cursor, TokenKind::Semicolon, value)?;
    Ok(assign_cell(target, place, value))
}

/// The next target, after its `,`; `OverLimit` if there are as many as may be.
#[tactic(auto, using(pb_form_parser::proofs::BeginLemmas::begin_within, crate::proofs::ReadLemmas::over_token, crate::proofs::ReadLemmas::bad_token, crate::proofs::ReadLemmas::leads_on), unfolding(pb_grammar::specs::Want::name_token))]
fn next_target(alloc: Global, cursor: &mut Cursor<'_>, before: usize) -> Result<Name, Fault>
    ensures leads { Leads (λ n. n) result (λ f. begin (over Targets before) (name_token f)) cursor.old cursor.new }
    ensures shorter { Shortens result cursor.old cursor.new }
{
    if before < MOST_TARGETS {
        return name(alloc, cursor);
    }
    if cursor.sees(TokenKind::Name) {
        return Err(cursor.over(Item::Targets));
    }
    Err(cursor.bad())
}

/// The rest of the targets, and the call whose results they get.
#[tactic(auto, using(crate::proofs::ReadLemmas::fails_then, crate::proofs::GrammarLemmas::more_targets_else))]
fn more_targets(
    alloc: Global,
    cursor: &mut Cursor<'_>,
    depth: u32,
    first: Vec<Name>,
) -> Result<StmtText, Fault>
    requires nested { depth ≤ MOST_NESTING }
    ensures leads { Leads bare_stmt result (more_targets depth first.items) cursor.old cursor.new }
    ensures shorter { Shortens result cursor.old cursor.new }
{
    let mut found = first;
    while let TokenKind::Comma = cursor.peek() {
        cursor.take();
        let next = next_target(alloc, cursor, found.len())?;
        found.push(next)?;
    }
    cursor.expect(TokenKind::Assign)?;
    called(alloc, cursor, depth, found)
}

/// The call whose results the targets get.
#[tactic(auto, using(crate::proofs::ReadLemmas::fails_then), unfolding(pb_grammar::specs::Want::called))]
fn called(
    alloc: Global,
    cursor: &mut Cursor<'_>,
    depth: u32,
    targets: Vec<Name>,
) -> Result<StmtText, Fault>
    requires nested { depth ≤ MOST_NESTING }
    ensures leads { Leads bare_stmt result (called depth targets.items) cursor.old cursor.new }
    ensures shorter { Shortens result cursor.old cursor.new }
{
    let called = name(alloc, cursor)?;
    let inside = open(cursor, TokenKind::Open, depth)?;
    let found = some_arguments(alloc, cursor, inside)?;
    cursor.expect(TokenKind::Semicolon)?;
    Ok(call_statement(targets, called, found))
}

/// A block: statements in braces.
#[cycle(statements)]
#[tactic(auto, using(crate::proofs::ReadLemmas::fails_then), unfolding(pb_grammar::specs::Want::block))]
fn block(
    alloc: Global,
    cursor: &mut Cursor<'_>,
    depth: u32,
    count: &mut u32,
) -> Result<Vec<StmtText>, Fault>
    requires nested { depth ≤ MOST_NESTING }
    requires few { count.now ≤ MOST_STATEMENTS }
    ensures leads { LeadsCounted (λ v. bare_stmts v.items) result (block depth count.old) cursor.old cursor.new count.new }
    ensures counted { OnOk result (count.new ≤ MOST_STATEMENTS) }
    ensures shorter { Shortens result cursor.old cursor.new }
{
    let inside = open(cursor, TokenKind::OpenBrace, depth)?;
    statements(alloc, cursor, inside, count)
}

/// The test and the blocks after the `if` at `at`.
#[cycle(statements)]
#[tactic(auto, using(crate::proofs::ReadLemmas::fails_then), unfolding(pb_grammar::specs::Want::after_if))]
fn after_if(
    alloc: Global,
    cursor: &mut Cursor<'_>,
    depth: u32,
    count: &mut u32,
    at: u32,
) -> Result<StmtText, Fault>
    requires nested { depth ≤ MOST_NESTING }
    requires few { count.now ≤ MOST_STATEMENTS }
    ensures leads { LeadsCounted bare_stmt result (after_if depth count.old at) cursor.old cursor.new count.new }
    ensures counted { OnOk result (count.new ≤ MOST_STATEMENTS) }
    ensures shorter { Shortens result cursor.old cursor.new }
{
    let inside = open(cursor, TokenKind::Open, depth)?;
    let test = expression(alloc, cursor, inside)?;
    let test = then(cursor, TokenKind::Close, test)?;
    match block(alloc, cursor, depth, count) {
        Ok(then) => otherwise(alloc, cursor, depth, count, at, test, then),
        Err(fault) => Err(without(test, fault)),
    }
}

/// The `else` block, if there is one.
#[cycle(statements)]
#[tactic(auto, using(crate::proofs::ReadLemmas::fails_then))]
fn otherwise(
    alloc: Global,
    cursor: &mut Cursor<'_>,
    depth: u32,
    count: &mut u32,
    at: u32,
    test: ExprText,
    then: Vec<StmtText>,
) -> Result<StmtText, Fault>
    requires nested { depth ≤ MOST_NESTING }
    requires few { count.now ≤ MOST_STATEMENTS }
    ensures leads { LeadsCounted bare_stmt result (otherwise depth count.old at (bare test) (bare_stmts then.items)) cursor.old cursor.new count.new }
    ensures counted { OnOk result (count.new ≤ MOST_STATEMENTS) }
    ensures no_longer { NeverGrows result cursor.old cursor.new }
{
    match cursor.peek() {
        TokenKind::Else => {
            cursor.take();
            match block(alloc, cursor, depth, count) {
                Ok(other) => Ok(if_or_else(at, test, then, other)),
                Err(fault) => Err(without(test, fault)),
            }
        }
        _ => Ok(if_holds(at, test, then)),
    }
}

/// The range and the block after the `for` at `at`.
#[cycle(statements)]
#[tactic(auto, using(crate::proofs::ReadLemmas::fails_then), unfolding(pb_grammar::specs::Want::after_for))]
fn after_for(
    alloc: Global,
    cursor: &mut Cursor<'_>,
    depth: u32,
    count: &mut u32,
    at: u32,
) -> Result<StmtText, Fault>
    requires nested { depth ≤ MOST_NESTING }
    requires few { count.now ≤ MOST_STATEMENTS }
    ensures leads { LeadsCounted bare_stmt result (after_for depth count.old at) cursor.old cursor.new count.new }
    ensures counted { OnOk result (count.new ≤ MOST_STATEMENTS) }
    ensures shorter { Shortens result cursor.old cursor.new }
{
    let inside = open(cursor, TokenKind::Open, depth)?;
    let index = name(alloc, cursor)?;
    cursor.expect(TokenKind::Assign)?;
    let start = expression(alloc, cursor, inside)?;
    let start = then(cursor, TokenKind::Dots, start)?;
    let end = match expression(alloc, cursor, inside) {
        Ok(end) => end,
        Err(fault) => return Err(without(start, fault)),
    };
    if let Err(fault) = cursor.expect(TokenKind::Close) {
        return Err(without(start, without(end, fault)));
    }
    match block(alloc, cursor, depth, count) {
        Ok(body) => Ok(for_each(at, index, start, end, body)),
        Err(fault) => Err(without(start, without(end, fault))),
    }
}

/// One statement.
#[cycle(statements)]
#[tactic(auto, using(crate::proofs::ReadLemmas::fails_then))]
fn statement(
    alloc: Global,
    cursor: &mut Cursor<'_>,
    depth: u32,
    count: &mut u32,
) -> Result<StmtText, Fault>
    requires nested { depth ≤ MOST_NESTING }
    requires few { count.now < MOST_STATEMENTS }
    ensures leads { LeadsCounted bare_stmt result (statement depth count.old) cursor.old cursor.new count.new }
    ensures counted { OnOk result (count.new ≤ MOST_STATEMENTS) }
    ensures shorter { Shortens result cursor.old cursor.new }
{
    let kind = cursor.peek();
    let at = cursor.place();
    match kind {
        TokenKind::Let => {
            cursor.take();
            *count += 1;
            let of = name(alloc, cursor)?;
            after_let(alloc, cursor, depth, at, of)
        }
        TokenKind::Name => {
            let target = name_in(alloc, cursor.take())?;
            *count += 1;
            after_target(alloc, cursor, depth, target)
        }
        TokenKind::If => {
            cursor.take();
            *count += 1;
            after_if(alloc, cursor, depth, count, at)
        }
        TokenKind::For => {
            cursor.take();
            *count += 1;
            after_for(alloc, cursor, depth, count, at)
        }
        _ => Err(cursor.bad()),
    }
}

/// The fault if no more statements may follow.
#[tactic(auto, using(crate::proofs::ReadLemmas::fails_then))]
fn too_many(cursor: &Cursor<'_>) -> Fault
    ensures refused { Fails result ((d n : ℕ) (f : StmtTree → ℕ → Want) →
        told (from cursor.now (begin (Some Statements) (statement d n f))) ≡ Err result) }
{
    if begins_statement(cursor.peek()) {
        return cursor.over(Item::Statements);
    }
    cursor.bad()
}

/// The next statement; `OverLimit` if as many of the body began as may.
#[cycle(statements)]
#[tactic(auto, using(crate::proofs::ReadLemmas::fails_then, pb_form_parser::proofs::BeginLemmas::begin_within, crate::proofs::ReadLemmas::is_some))]
fn next_statement(
    alloc: Global,
    cursor: &mut Cursor<'_>,
    depth: u32,
    count: &mut u32,
) -> Result<StmtText, Fault>
    requires nested { depth ≤ MOST_NESTING }
    requires few { count.now ≤ MOST_STATEMENTS }
    ensures leads { LeadsCounted bare_stmt result (λ f. begin (over Statements count.old) (statement depth count.old f)) cursor.old cursor.new count.new }
    ensures counted { OnOk result (count.new ≤ MOST_STATEMENTS) }
    ensures shorter { Shortens result cursor.old cursor.new }
{
    if *count < MOST_STATEMENTS {
        return statement(alloc, cursor, depth, count);
    }
    Err(too_many(cursor))
}

/// Statements up to and with the `}`; `depth` brackets are open, `count` statements of the body have begun.
#[cycle(statements)]
#[tactic(auto, using(crate::proofs::ReadLemmas::fails_then, crate::proofs::GrammarLemmas::statements_else))]
pub fn statements(
    alloc: Global,
    cursor: &mut Cursor<'_>,
    depth: u32,
    count: &mut u32,
) -> Result<Vec<StmtText>, Fault>
    requires nested { depth ≤ MOST_NESTING }
    requires few { count.now ≤ MOST_STATEMENTS }
    ensures leads { LeadsCounted (λ v. bare_stmts v.items) result (statements depth count.old []) cursor.old cursor.new count.new }
    ensures counted { OnOk result (count.new ≤ MOST_STATEMENTS) }
    ensures shorter { Shortens result cursor.old cursor.new }
{
    let mut found = Vec::new(alloc);
    loop {
        if let TokenKind::CloseBrace = cursor.peek() {
            cursor.take();
            return Ok(found);
        }
        let next = next_statement(alloc, cursor, depth, count)?;
        found.push(next)?;
    }
}
