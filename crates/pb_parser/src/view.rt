ghost use Rattle.std.specs.Prelude.{◌≡◌, ◌<◌, ◌≤◌, length, OnOk};
ghost use Rattle.pb_syntax.specs.Kinds.{name_in};
ghost use Rattle.pb_syntax.specs.declared.kind.TokenKind.TheVariants.{Open, Close};
ghost use Rattle.pb_syntax.specs.declared.tree.view.ViewText.TheVariants.{Row, Column};
ghost use Rattle.pb_grammar.specs.Want.{form, a_sign, after_x, after_high, view_or_none, view_name};
ghost use Rattle.pb_grammar.specs.Reading.{between};
ghost use Rattle.pb_form_parser.specs.Leads.{Leads, Shortens, NeverGrows};

use pb_form_parser::{Cursor, Fault, form, then};
use pb_syntax::{FormText, Token, TokenKind, TokenWhat, ViewText};
use std::alloc::Global;

/// The bytes of the name that a token is.
pub fn word_in(token: &Token) -> &[u8]
    ensures { result.now ≡ (name_in token.now).bytes }
{
    match &token.what {
        TokenWhat::Word(name) => name.bytes(),
        _ => &[],
    }
}

fn row(alloc: Global, cursor: &mut Cursor<'_>) -> Result<ViewText, Fault>
    ensures leads { Leads (λ v. v) result (λ f. a_sign Open (form (λ y. a_sign Close (f (Row y))))) cursor.old cursor.new }
    ensures shorter { Shortens result cursor.old cursor.new }
{
    cursor.expect(TokenKind::Open)?;
    let y = form(alloc, cursor)?;
    let y = then(cursor, TokenKind::Close, y)?;
    Ok(ViewText::Row(y))
}

fn column(alloc: Global, cursor: &mut Cursor<'_>) -> Result<ViewText, Fault>
    ensures leads { Leads (λ v. v) result (λ f. a_sign Open (form (λ x. a_sign Close (f (Column x))))) cursor.old cursor.new }
    ensures shorter { Shortens result cursor.old cursor.new }
{
    cursor.expect(TokenKind::Open)?;
    let x = form(alloc, cursor)?;
    let x = then(cursor, TokenKind::Close, x)?;
    Ok(ViewText::Column(x))
}

fn cell(alloc: Global, cursor: &mut Cursor<'_>) -> Result<ViewText, Fault>
    ensures leads { Leads (λ v. v) result (λ f. a_sign Open (form (λ x. after_x x f))) cursor.old cursor.new }
    ensures shorter { Shortens result cursor.old cursor.new }
{
    cursor.expect(TokenKind::Open)?;
    let x = form(alloc, cursor)?;
    after_x(alloc, cursor, x)
}

/// The other coordinate of a cell, or none.
fn after_x(alloc: Global, cursor: &mut Cursor<'_>, x: FormText) -> Result<ViewText, Fault>
    ensures leads { Leads (λ v. v) result (after_x x) cursor.old cursor.new }
    ensures shorter { Shortens result cursor.old cursor.new }
{
    match cursor.peek() {
        TokenKind::Comma => {
            cursor.take();
            let y = form(alloc, cursor)?;
            let y = then(cursor, TokenKind::Close, y)?;
            Ok(ViewText::Cell { x, y: Some(y) })
        }
        TokenKind::Close => {
            cursor.take();
            Ok(ViewText::Cell { x, y: None })
        }
        _ => Err(cursor.bad()),
    }
}

fn region(alloc: Global, cursor: &mut Cursor<'_>) -> Result<ViewText, Fault>
    ensures leads { Leads (λ v. v) result between cursor.old cursor.new }
    ensures shorter { Shortens result cursor.old cursor.new }
{
    cursor.expect(TokenKind::Open)?;
    let first = form(alloc, cursor)?;
    let first = then(cursor, TokenKind::Comma, first)?;
    let second = form(alloc, cursor)?;
    after_two(alloc, cursor, first, second)
}

/// The upper corner of a region, or none where what stands before it are two bounds.
fn after_two(
    alloc: Global,
    cursor: &mut Cursor<'_>,
    first: FormText,
    second: FormText,
) -> Result<ViewText, Fault>
    ensures leads { Leads (λ v. v) result (after_high first second) cursor.old cursor.new }
    ensures shorter { Shortens result cursor.old cursor.new }
{
    match cursor.peek() {
        TokenKind::Comma => {
            cursor.take();
            let third = form(alloc, cursor)?;
            let third = then(cursor, TokenKind::Comma, third)?;
            let fourth = form(alloc, cursor)?;
            let fourth = then(cursor, TokenKind::Close, fourth)?;
            Ok(ViewText::Region {
                x0: first,
                y0: second,
                x1: third,
                y1: fourth,
            })
        }
        TokenKind::Close => {
            cursor.take();
            Ok(ViewText::Between {
                low: first,
                high: second,
            })
        }
        _ => Err(cursor.bad()),
    }
}

fn view(alloc: Global, cursor: &mut Cursor<'_>) -> Result<ViewText, Fault>
    ensures leads { Leads (λ v. v) result view_name cursor.old cursor.new }
    ensures shorter { Shortens result cursor.old cursor.new }
{
    match cursor.peek() {
        TokenKind::Name => {
            let bad = cursor.bad();
            let word = word_in(cursor.take());
            if word == b"cell".as_slice() {
                return cell(alloc, cursor);
            }
            if word == b"row".as_slice() {
                return row(alloc, cursor);
            }
            if word == b"column".as_slice() {
                return column(alloc, cursor);
            }
            if word == b"region".as_slice() {
                return region(alloc, cursor);
            }
            Err(bad)
        }
        _ => Err(cursor.bad()),
    }
}

/// `.` and a view, or the whole matrix where no `.` comes next.
pub fn view_or_none(alloc: Global, cursor: &mut Cursor<'_>) -> Result<ViewText, Fault>
    ensures leads { Leads (λ v. v) result view_or_none cursor.old cursor.new }
    ensures no_longer { NeverGrows result cursor.old cursor.new }
{
    match cursor.peek() {
        TokenKind::Dot => {
            cursor.take();
            view(alloc, cursor)
        }
        _ => Ok(ViewText::Whole),
    }
}
