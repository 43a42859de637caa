ghost use Rattle.std.specs.Prelude.{◌≡◌, ◌≢◌, ◌+◌, ◌≤◌, ◌<◌, [], length, ℕ, Err, Option, Some, OnOk, OnSome, IfOk, IfErr};
ghost use Rattle.pb_syntax.specs.declared.kind.TokenKind.TheVariants as k;
ghost use Rattle.pb_syntax.specs.declared.refusal.Item.TheVariants.{Arguments};
ghost use Rattle.pb_syntax.specs.Exprs.{ExprTree, bare};
ghost use Rattle.pb_syntax.specs.Kinds.{name_in, number_in};
ghost use Rattle.pb_grammar.specs.Starts.{begins_expression};
ghost use Rattle.pb_syntax.specs.Operators.{operator_of, relation_of};
ghost use Rattle.pb_grammar.specs.Next.{next_kind, next_place};
ghost use Rattle.pb_body_parser.specs.Bare.{bares, bare_operands};
ghost use Rattle.pb_grammar.specs.Want.{Want, begin, primary, after_name, member, arguments, more_arguments, coordinates, after_coordinate, factor, operand, compared, expression, line, some_arguments, bracket, a_sign};
ghost use Rattle.pb_syntax.specs.Limits.{over};
ghost use Rattle.pb_form_parser.specs.Leads.{Leads, LeadsOn, Fails, told, from, Shortens, NeverGrows};
ghost use Rattle.pb_body_parser.specs.Bodies.{Operators, Relations, Members};

use crate::bracket::{name, open};
use crate::make::{
    call, cell, chained, compared, height, named, number, one, parentheses, signed, two, width,
};
use pb_form_parser::{Cursor, Fault, name_in, number_in, then, without};
use pb_syntax::{
    ExprText, Item, Level, MOST_ARGUMENTS, MOST_NESTING, Name, Operator, Relation, TokenKind,
    UnarySign,
};
use std::alloc::Global;

/// What may stand after a view's `.`.
#[derive(Clone, Copy)]
enum Part {
    Cell,
    Width,
    Height,
}

fn operator_of(level: Level, kind: TokenKind) -> Option<Operator>
    ensures { result ≡ operator_of level kind }
{
    match (level, kind) {
        (Level::Product, TokenKind::Times) => Some(Operator::Times),
        (Level::Product, TokenKind::Over) => Some(Operator::Over),
        (Level::Product, TokenKind::Modulo) => Some(Operator::Modulo),
        (Level::Sum, TokenKind::Plus) => Some(Operator::Plus),
        (Level::Sum, TokenKind::Minus) => Some(Operator::Minus),
        (Level::Conjunction, TokenKind::And) => Some(Operator::And),
        (Level::Disjunction, TokenKind::Or) => Some(Operator::Or),
        _ => None,
    }
}

fn relation_of(kind: TokenKind) -> Option<Relation>
    ensures { result ≡ relation_of kind }
{
    match kind {
        TokenKind::Less => Some(Relation::Less),
        TokenKind::LessOrEqual => Some(Relation::LessOrEqual),
        TokenKind::Greater => Some(Relation::Greater),
        TokenKind::GreaterOrEqual => Some(Relation::GreaterOrEqual),
        TokenKind::Equal => Some(Relation::Equal),
        TokenKind::Unequal => Some(Relation::Unequal),
        _ => None,
    }
}

fn begins_expression(kind: TokenKind) -> bool
    ensures { result ≡ begins_expression kind }
{
    match kind {
        TokenKind::Number | TokenKind::Name | TokenKind::Open | TokenKind::Minus | TokenKind::Not =>
            true,
        _ => false,
    }
}

/// Consumes the next token if it is an operator of this precedence level.
fn take_operator(cursor: &mut Cursor<'_>, level: Level) -> Option<Operator>
    ensures leads { Operators result level cursor.old cursor.new }
    ensures not_longer { length cursor.new.rest.now ≤ length cursor.old.rest.now }
    ensures shorter { OnSome result (length cursor.new.rest.now < length cursor.old.rest.now) }
{
    let found = operator_of(level, cursor.peek());
    if found.is_some() {
        cursor.take();
    }
    found
}

/// Consumes the next token if it is a relation.
fn take_relation(cursor: &mut Cursor<'_>) -> Option<Relation>
    ensures leads { Relations result cursor.old cursor.new }
    ensures not_longer { length cursor.new.rest.now ≤ length cursor.old.rest.now }
    ensures shorter { OnSome result (length cursor.new.rest.now < length cursor.old.rest.now) }
{
    let found = relation_of(cursor.peek());
    if found.is_some() {
        cursor.take();
    }
    found
}

/// Consumes the next token if it is one of the names that may stand after a view's `.`.
#[tactic(auto, using(crate::proofs::ReadLemmas::fails_then, crate::proofs::GrammarLemmas::member_cell, crate::proofs::GrammarLemmas::member_width, crate::proofs::GrammarLemmas::member_height, crate::proofs::GrammarLemmas::member_else, crate::proofs::ReadLemmas::next_is_not_end))]
fn take_member(cursor: &mut Cursor<'_>) -> Option<Part>
    ensures leads { Members result cursor.old cursor.new }
    ensures not_longer { length cursor.new.rest.now ≤ length cursor.old.rest.now }
    ensures shorter { OnSome result (length cursor.new.rest.now < length cursor.old.rest.now) }
{
    if cursor.next_is(b"cell".as_slice()) {
        cursor.take();
        return Some(Part::Cell);
    }
    if cursor.next_is(b"width".as_slice()) {
        cursor.take();
        return Some(Part::Width);
    }
    if cursor.next_is(b"height".as_slice()) {
        cursor.take();
        return Some(Part::Height);
    }
    None
}

/// A number, a name with what stands after it, or an expression in parentheses.
#[cycle(expression)]
#[tactic(auto, using(crate::proofs::ReadLemmas::fails_then, crate::proofs::GrammarLemmas::primary_open))]
fn primary(alloc: Global, cursor: &mut Cursor<'_>, depth: u32) -> Result<ExprText, Fault>
    requires nested { depth ≤ MOST_NESTING }
    ensures leads { Leads bare result (primary depth) cursor.old cursor.new }
    ensures shorter { Shortens result cursor.old cursor.new }
{
    match cursor.peek() {
        TokenKind::Number => {
            let token = cursor.take();
            Ok(number(token.at, number_in(token)))
        }
        TokenKind::Name => {
            let name = name_in(alloc, cursor.take())?;
            after_name(alloc, cursor, depth, name)
        }
        TokenKind::Open => {
            let at = cursor.place();
            let depth = open(cursor, TokenKind::Open, depth)?;
            let inner = expression(alloc, cursor, depth)?;
            let inner = then(cursor, TokenKind::Close, inner)?;
            parentheses(alloc, at, inner)
        }
        _ => Err(cursor.bad()),
    }
}

/// What stands after a name: arguments, a member or nothing.
#[cycle(expression)]
#[tactic(auto, using(crate::proofs::ReadLemmas::fails_then, crate::proofs::GrammarLemmas::after_name_open))]
fn after_name(
    alloc: Global,
    cursor: &mut Cursor<'_>,
    depth: u32,
    name: Name,
) -> Result<ExprText, Fault>
    requires nested { depth ≤ MOST_NESTING }
    ensures leads { Leads bare result (after_name depth name) cursor.old cursor.new }
    ensures no_longer { NeverGrows result cursor.old cursor.new }
{
    match cursor.peek() {
        TokenKind::Open => {
            let depth = open(cursor, TokenKind::Open, depth)?;
            let found = arguments(alloc, cursor, depth)?;
            Ok(call(name, found))
        }
        TokenKind::Dot => {
            cursor.take();
            member(alloc, cursor, depth, name)
        }
        _ => Ok(named(name)),
    }
}

/// A cell, the width or the height of a view, after its `.`.
#[cycle(expression)]
#[tactic(auto, using(crate::proofs::ReadLemmas::fails_then))]
fn member(alloc: Global, cursor: &mut Cursor<'_>, depth: u32, view: Name) -> Result<ExprText, Fault>
    requires nested { depth ≤ MOST_NESTING }
    ensures leads { Leads bare result (member depth view) cursor.old cursor.new }
    ensures shorter { Shortens result cursor.old cursor.new }
{
    match take_member(cursor) {
        Some(Part::Cell) => {
            let found = coordinates(alloc, cursor, depth)?;
            Ok(cell(view, found))
        }
        Some(Part::Width) => {
            nothing(cursor, depth)?;
            Ok(width(view))
        }
        Some(Part::Height) => {
            nothing(cursor, depth)?;
            Ok(height(view))
        }
        None => Err(cursor.bad()),
    }
}

/// `(` and `)`.
#[tactic(auto, using(crate::proofs::ReadLemmas::fails_then))]
fn nothing(cursor: &mut Cursor<'_>, depth: u32) -> Result<(), Fault>
    requires nested { depth ≤ MOST_NESTING }
    ensures leads { LeadsOn result (λ w. bracket depth k.Open (a_sign k.Close w)) cursor.old cursor.new }
    ensures shorter { Shortens result cursor.old cursor.new }
{
    open(cursor, TokenKind::Open, depth)?;
    cursor.expect(TokenKind::Close)?;
    Ok(())
}

/// One or two coordinates in parentheses.
#[cycle(expression)]
#[tactic(auto, using(crate::proofs::ReadLemmas::fails_then, crate::proofs::GrammarLemmas::coordinate_else), unfolding(pb_grammar::specs::Want::coordinates))]
pub fn coordinates(
    alloc: Global,
    cursor: &mut Cursor<'_>,
    depth: u32,
) -> Result<Vec<ExprText>, Fault>
    requires nested { depth ≤ MOST_NESTING }
    ensures leads { Leads (λ v. bares v.items) result (coordinates depth) cursor.old cursor.new }
    ensures shorter { Shortens result cursor.old cursor.new }
{
    let depth = open(cursor, TokenKind::Open, depth)?;
    let x = expression(alloc, cursor, depth)?;
    if let TokenKind::Comma = cursor.peek() {
        cursor.take();
        let y = match expression(alloc, cursor, depth) {
            Ok(y) => y,
            Err(fault) => return Err(without(x, fault)),
        };
        return match cursor.expect(TokenKind::Close) {
            Ok(_) => two(alloc, x, y),
            Err(fault) => Err(without(x, without(y, fault))),
        };
    }
    let x = then(cursor, TokenKind::Close, x)?;
    one(alloc, x)
}

/// The arguments of a call in an expression, after its `(`.
#[cycle(expression)]
#[tactic(auto, using(crate::proofs::ReadLemmas::fails_then, crate::proofs::GrammarLemmas::arguments_else, crate::proofs::ReadLemmas::leads_on))]
fn arguments(alloc: Global, cursor: &mut Cursor<'_>, depth: u32) -> Result<Vec<ExprText>, Fault>
    requires nested { depth ≤ MOST_NESTING }
    ensures leads { Leads (λ v. bares v.items) result (arguments depth) cursor.old cursor.new }
    ensures shorter { Shortens result cursor.old cursor.new }
{
    if let TokenKind::Close = cursor.peek() {
        cursor.take();
        return Ok(Vec::new(alloc));
    }
    some_arguments(alloc, cursor, depth)
}

/// The fault after a `,` if no more arguments may follow.
#[tactic(auto, using(crate::proofs::ReadLemmas::fails_then), unfolding(pb_grammar::specs::Want::expression, pb_grammar::specs::Want::conjunction, pb_grammar::specs::Want::compared, pb_grammar::specs::Want::total, pb_grammar::specs::Want::product))]
fn too_many(cursor: &Cursor<'_>) -> Fault
    ensures refused { Fails result ((d : ℕ) (f : ExprTree → Want) →
        told (from cursor.now (begin (Some Arguments) (expression d f))) ≡ Err result) }
{
    if begins_expression(cursor.peek()) {
        return cursor.over(Item::Arguments);
    }
    cursor.bad()
}

/// The next argument, after its `,`; `OverLimit` if there are as many as may be.
#[cycle(expression)]
#[tactic(auto, using(crate::proofs::ReadLemmas::fails_then, pb_form_parser::proofs::BeginLemmas::begin_within, crate::proofs::ReadLemmas::is_some))]
fn next_argument(
    alloc: Global,
    cursor: &mut Cursor<'_>,
    depth: u32,
    before: usize,
) -> Result<ExprText, Fault>
    requires nested { depth ≤ MOST_NESTING }
    ensures leads { Leads bare result (λ f. begin (over Arguments before) (expression depth f)) cursor.old cursor.new }
    ensures shorter { Shortens result cursor.old cursor.new }
{
    if before < MOST_ARGUMENTS {
        return expression(alloc, cursor, depth);
    }
    Err(too_many(cursor))
}

/// One argument and all that follow, to the `)`.
#[cycle(expression)]
#[tactic(auto, using(crate::proofs::ReadLemmas::fails_then, crate::proofs::GrammarLemmas::more_arguments_else), unfolding(pb_grammar::specs::Want::some_arguments))]
pub fn some_arguments(
    alloc: Global,
    cursor: &mut Cursor<'_>,
    depth: u32,
) -> Result<Vec<ExprText>, Fault>
    requires nested { depth ≤ MOST_NESTING }
    ensures leads { Leads (λ v. bares v.items) result (some_arguments depth) cursor.old cursor.new }
    ensures shorter { Shortens result cursor.old cursor.new }
{
    let first = expression(alloc, cursor, depth)?;
    let mut found = one(alloc, first)?;
    while let TokenKind::Comma = cursor.peek() {
        cursor.take();
        let next = next_argument(alloc, cursor, depth, found.len())?;
        found.push(next)?;
    }
    cursor.expect(TokenKind::Close)?;
    Ok(found)
}

/// A primary expression, with a unary operator before it or without.
#[cycle(expression)]
#[tactic(auto, using(crate::proofs::ReadLemmas::fails_then, crate::proofs::GrammarLemmas::factor_else, crate::proofs::ReadLemmas::leads_on))]
fn factor(alloc: Global, cursor: &mut Cursor<'_>, depth: u32) -> Result<ExprText, Fault>
    requires nested { depth ≤ MOST_NESTING }
    ensures leads { Leads bare result (factor depth) cursor.old cursor.new }
    ensures shorter { Shortens result cursor.old cursor.new }
{
    match cursor.peek() {
        TokenKind::Minus => {
            let at = cursor.take().at;
            let operand = primary(alloc, cursor, depth)?;
            signed(alloc, at, UnarySign::Minus, operand)
        }
        TokenKind::Not => {
            let at = cursor.take().at;
            let operand = primary(alloc, cursor, depth)?;
            signed(alloc, at, UnarySign::Not, operand)
        }
        _ => primary(alloc, cursor, depth),
    }
}

/// An operand at this precedence level.
#[cycle(expression)]
fn operand(
    alloc: Global,
    cursor: &mut Cursor<'_>,
    depth: u32,
    level: Level,
) -> Result<ExprText, Fault>
    requires nested { depth ≤ MOST_NESTING }
    ensures leads { Leads bare result (operand level depth) cursor.old cursor.new }
    ensures shorter { Shortens result cursor.old cursor.new }
{
    match level {
        Level::Product => factor(alloc, cursor, depth),
        Level::Sum => line(alloc, cursor, depth, Level::Product),
        Level::Conjunction => comparison(alloc, cursor, depth),
        Level::Disjunction => line(alloc, cursor, depth, Level::Conjunction),
    }
}

/// A chain of binary operators of one precedence level, or its one operand.
#[cycle(expression)]
#[tactic(auto, using(crate::proofs::ReadLemmas::fails_then, crate::proofs::GrammarLemmas::line_is))]
fn line(alloc: Global, cursor: &mut Cursor<'_>, depth: u32, level: Level) -> Result<ExprText, Fault>
    requires nested { depth ≤ MOST_NESTING }
    ensures leads { Leads bare result (line level depth) cursor.old cursor.new }
    ensures shorter { Shortens result cursor.old cursor.new }
{
    let first = operand(alloc, cursor, depth, level)?;
    let mut rest = Vec::new(alloc);
    while let Some(operator) = take_operator(cursor, level) {
        let next = match operand(alloc, cursor, depth, level) {
            Ok(next) => next,
            Err(fault) => return Err(without(first, fault)),
        };
        if let Err(failed) = rest.push((operator, next)) {
            return Err(without(first, Fault::from(failed)));
        }
    }
    chained(alloc, level, first, rest)
}

/// A sum, or two with a relation between them.
#[cycle(expression)]
#[tactic(auto, using(crate::proofs::ReadLemmas::fails_then), unfolding(pb_grammar::specs::Want::compared))]
fn comparison(alloc: Global, cursor: &mut Cursor<'_>, depth: u32) -> Result<ExprText, Fault>
    requires nested { depth ≤ MOST_NESTING }
    ensures leads { Leads bare result (compared depth) cursor.old cursor.new }
    ensures shorter { Shortens result cursor.old cursor.new }
{
    let left = line(alloc, cursor, depth, Level::Sum)?;
    match take_relation(cursor) {
        Some(relation) => {
            match line(alloc, cursor, depth, Level::Sum) {
                Ok(right) => compared(alloc, left, relation, right),
                Err(fault) => Err(without(left, fault)),
            }
        }
        None => Ok(left),
    }
}

/// An expression of a body; `depth` brackets are open.
#[cycle(expression)]
pub fn expression(alloc: Global, cursor: &mut Cursor<'_>, depth: u32) -> Result<ExprText, Fault>
    requires nested { depth ≤ MOST_NESTING }
    ensures leads { Leads bare result (expression depth) cursor.old cursor.new }
    ensures shorter { Shortens result cursor.old cursor.new }
{
    line(alloc, cursor, depth, Level::Disjunction)
}
