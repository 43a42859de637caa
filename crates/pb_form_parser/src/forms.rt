ghost use Rattle.std.specs.Prelude.{◌≡◌, ◌<◌, ◌≤◌, [], ◌∷◌, length, false, OnOk};
ghost use Rattle.pb_syntax.specs.declared.refusal.Item.TheVariants.{Terms};
ghost use Rattle.pb_grammar.specs.Want.{small, divisor, times, quotient, term, more_terms, form, begin};
ghost use Rattle.pb_syntax.specs.Limits.{over};
ghost use Rattle.pb_grammar.specs.Reading.{signed_form};
ghost use Rattle.pb_form_parser.specs.Leads.{Leads, Shortens, NeverGrows};

use crate::cursor::{Cursor, name_in, number_in};
use crate::fault::Fault;
use pb_syntax::{FormText, Item, MOST_NUMBER, MOST_TERMS, Name, TermText, TokenKind};
use std::alloc::Global;

/// A number of a form, a minimum or a priority; `OverLimit` if it is too great.
pub fn small(cursor: &mut Cursor<'_>) -> Result<u64, Fault>
    ensures leads { Leads (λ n. n) result small cursor.old cursor.new }
    ensures shorter { Shortens result cursor.old cursor.new }
{
    match cursor.peek() {
        TokenKind::Number => {
            let over = cursor.over(Item::Number);
            let value = number_in(cursor.take());
            if value > MOST_NUMBER {
                return Err(over);
            }
            Ok(value)
        }
        _ => Err(cursor.bad()),
    }
}

fn divisor(cursor: &mut Cursor<'_>) -> Result<u8, Fault>
    ensures leads { Leads (λ n. n) result divisor cursor.old cursor.new }
    ensures shorter { Shortens result cursor.old cursor.new }
{
    match cursor.peek() {
        TokenKind::Number => {
            let bad = cursor.bad();
            let value = number_in(cursor.take());
            if value < 2 {
                return Err(bad);
            }
            if value > 4 {
                return Err(bad);
            }
            Ok(value as u8)
        }
        _ => Err(cursor.bad()),
    }
}

fn after_number(
    alloc: Global,
    cursor: &mut Cursor<'_>,
    minus: bool,
    factor: u64,
) -> Result<TermText, Fault>
    ensures leads { Leads (λ x. x) result (times minus factor) cursor.old cursor.new }
    ensures no_longer { NeverGrows result cursor.old cursor.new }
{
    match cursor.peek() {
        TokenKind::Times => {
            cursor.take();
            let name = name_in(alloc, cursor.expect(TokenKind::Name)?)?;
            Ok(TermText {
                minus,
                factor,
                name: Some(name),
                quotient: 0,
            })
        }
        _ => Ok(TermText {
            minus,
            factor,
            name: None,
            quotient: 0,
        }),
    }
}

fn after_name(cursor: &mut Cursor<'_>, minus: bool, name: Name) -> Result<TermText, Fault>
    ensures leads { Leads (λ x. x) result (quotient minus name) cursor.old cursor.new }
    ensures no_longer { NeverGrows result cursor.old cursor.new }
{
    match cursor.peek() {
        TokenKind::Over => {
            cursor.take();
            let quotient = divisor(cursor)?;
            Ok(TermText {
                minus,
                factor: 1,
                name: Some(name),
                quotient,
            })
        }
        _ => Ok(TermText {
            minus,
            factor: 1,
            name: Some(name),
            quotient: 0,
        }),
    }
}

#[tactic(auto, using(crate::proofs::FormLemmas::term_number))]
fn term(alloc: Global, cursor: &mut Cursor<'_>, minus: bool) -> Result<TermText, Fault>
    ensures leads { Leads (λ x. x) result (term minus) cursor.old cursor.new }
    ensures shorter { Shortens result cursor.old cursor.new }
{
    match cursor.peek() {
        TokenKind::Number => {
            let factor = small(cursor)?;
            after_number(alloc, cursor, minus, factor)
        }
        TokenKind::Name => {
            let name = name_in(alloc, cursor.take())?;
            after_name(cursor, minus, name)
        }
        _ => Err(cursor.bad()),
    }
}

#[tactic(auto, using(crate::proofs::BeginLemmas::begin_within))]
fn next_term(
    alloc: Global,
    cursor: &mut Cursor<'_>,
    minus: bool,
    before: usize,
) -> Result<TermText, Fault>
    ensures leads { Leads (λ x. x) result (λ f. begin (over Terms before) (term minus f)) cursor.old cursor.new }
    ensures shorter { Shortens result cursor.old cursor.new }
{
    if before < MOST_TERMS {
        return term(alloc, cursor, minus);
    }
    match cursor.peek() {
        TokenKind::Number => Err(cursor.over(Item::Terms)),
        TokenKind::Name => Err(cursor.over(Item::Terms)),
        _ => Err(cursor.bad()),
    }
}

fn more_terms(
    alloc: Global,
    cursor: &mut Cursor<'_>,
    first: TermText,
) -> Result<Vec<TermText>, Fault>
    ensures leads { Leads (λ v. v.items) result (more_terms (first ∷ [])) cursor.old cursor.new }
    ensures no_longer { NeverGrows result cursor.old cursor.new }
{
    let mut terms = Vec::new(alloc);
    terms.push(first)?;
    loop {
        let minus = match cursor.peek() {
            TokenKind::Plus => false,
            TokenKind::Minus => true,
            _ => return Ok(terms),
        };
        cursor.take();
        let further = next_term(alloc, cursor, minus, terms.len())?;
        terms.push(further)?;
    }
}

fn signed_form(alloc: Global, cursor: &mut Cursor<'_>, minus: bool) -> Result<FormText, Fault>
    ensures leads { Leads (λ x. x) result (λ f. term false (signed_form minus f)) cursor.old cursor.new }
    ensures shorter { Shortens result cursor.old cursor.new }
{
    let first = term(alloc, cursor, false)?;
    let terms = more_terms(alloc, cursor, first)?;
    Ok(FormText { minus, terms })
}

/// A form: a sum of terms, each a number or a name with a factor or a quotient; `OverLimit` if there are too many.
#[tactic(auto, using(crate::proofs::FormLemmas::form_else))]
pub fn form(alloc: Global, cursor: &mut Cursor<'_>) -> Result<FormText, Fault>
    ensures leads { Leads (λ x. x) result form cursor.old cursor.new }
    ensures shorter { Shortens result cursor.old cursor.new }
{
    match cursor.peek() {
        TokenKind::Minus => {
            cursor.take();
            signed_form(alloc, cursor, true)
        }
        _ => signed_form(alloc, cursor, false),
    }
}
