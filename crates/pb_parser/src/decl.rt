ghost use Rattle.std.specs.Prelude.{◌≡◌, ◌+◌, ◌<◌, ◌≤◌, [], ◌∷◌, length, OnOk, IfOk};
ghost use Rattle.pb_grammar.specs.Want.{a_decl, decls, through, minimum, minimums, more_minimums};
ghost use Rattle.pb_syntax.specs.Limits.{counted};
ghost use Rattle.pb_form_parser.specs.Dims.{sizes_known, after_dims};
ghost use Rattle.pb_form_parser.specs.Leads.{Leads, Shortens};

use pb_form_parser::{Cursor, Fault, begin_name, counted_dims, name_in, small};
use pb_syntax::{DeclText, Item, MOST_MATRICES, MOST_MINIMUMS, Name, TokenKind};
use std::alloc::Global;

fn no_sizes(alloc: Global, sized: bool) -> Option<Vec<Name>>
    ensures { sizes_known result ≡ counted sized [] }
{
    if sized {
        return Some(Vec::new(alloc));
    }
    None
}

fn decl(
    alloc: Global,
    cursor: &mut Cursor<'_>,
    before: usize,
    known: &mut Option<Vec<Name>>,
) -> Result<DeclText, Fault>
    ensures leads { Leads (λ d. d) result (a_decl before (sizes_known known.old)) cursor.old cursor.new }
    ensures counted { IfOk result (λ d. sizes_known known.new ≡ after_dims (sizes_known known.old) d.dims) }
    ensures within { OnOk result (before < 16) }
    ensures shorter { Shortens result cursor.old cursor.new }
{
    let name = name_in(
        alloc,
        begin_name(cursor, MOST_MATRICES, before, Item::Matrices)?,
    )?;
    cursor.expect(TokenKind::OpenBracket)?;
    let dims = counted_dims(alloc, cursor, known)?;
    Ok(DeclText { name, dims })
}

/// Matrices, after `before` others of the transform; `sized` if names that stand alone as their dimensions are counted.
#[tactic(auto, using(crate::proofs::DeclLemmas::counted_more))]
pub fn decls(
    alloc: Global,
    cursor: &mut Cursor<'_>,
    before: usize,
    sized: bool,
) -> Result<Vec<DeclText>, Fault>
    requires { before ≤ 16 }
    ensures leads { Leads (λ v. v.items) result (decls before sized) cursor.old cursor.new }
    ensures within { IfOk result (λ v. before + length v.items ≤ 16) }
    ensures shorter { Shortens result cursor.old cursor.new }
{
    let mut known = no_sizes(alloc, sized);
    let mut found = Vec::new(alloc);
    found.push(decl(alloc, cursor, before, &mut known)?)?;
    loop {
        match cursor.peek() {
            TokenKind::Comma => {}
            _ => return Ok(found),
        }
        cursor.take();
        let further = decl(alloc, cursor, before + found.len(), &mut known)?;
        found.push(further)?;
    }
}

/// The matrices after `through`, or none, up to and with `to`.
pub fn through(
    alloc: Global,
    cursor: &mut Cursor<'_>,
    before: usize,
) -> Result<Vec<DeclText>, Fault>
    requires { before ≤ 16 }
    ensures leads { Leads (λ v. v.items) result (through before) cursor.old cursor.new }
    ensures within { IfOk result (λ v. before + length v.items ≤ 16) }
    ensures shorter { Shortens result cursor.old cursor.new }
{
    match cursor.peek() {
        TokenKind::Through => {
            cursor.take();
            let kept = decls(alloc, cursor, before, false)?;
            cursor.expect(TokenKind::To)?;
            Ok(kept)
        }
        TokenKind::To => {
            cursor.take();
            Ok(Vec::new(alloc))
        }
        _ => Err(cursor.bad()),
    }
}

fn minimum(alloc: Global, cursor: &mut Cursor<'_>, before: usize) -> Result<(Name, u64), Fault>
    ensures leads { Leads (λ m. m) result (minimum before) cursor.old cursor.new }
    ensures shorter { Shortens result cursor.old cursor.new }
{
    let name = name_in(
        alloc,
        begin_name(cursor, MOST_MINIMUMS, before, Item::Minimums)?,
    )?;
    cursor.expect(TokenKind::GreaterOrEqual)?;
    let least = small(cursor)?;
    Ok((name, least))
}

fn some_minimums(alloc: Global, cursor: &mut Cursor<'_>) -> Result<Vec<(Name, u64)>, Fault>
    ensures leads { Leads (λ v. v.items) result (λ f. minimum 0 (λ m. more_minimums (m ∷ []) f)) cursor.old cursor.new }
    ensures shorter { Shortens result cursor.old cursor.new }
{
    let mut found = Vec::new(alloc);
    found.push(minimum(alloc, cursor, 0)?)?;
    loop {
        match cursor.peek() {
            TokenKind::Comma => {
                cursor.take();
                let further = minimum(alloc, cursor, found.len())?;
                found.push(further)?;
            }
            TokenKind::From => {
                cursor.take();
                return Ok(found);
            }
            _ => return Err(cursor.bad()),
        }
    }
}

/// The minimums after `where`, or none, up to and with `from`.
pub fn minimums(alloc: Global, cursor: &mut Cursor<'_>) -> Result<Vec<(Name, u64)>, Fault>
    ensures leads { Leads (λ v. v.items) result minimums cursor.old cursor.new }
    ensures shorter { Shortens result cursor.old cursor.new }
{
    match cursor.peek() {
        TokenKind::Where => {
            cursor.take();
            some_minimums(alloc, cursor)
        }
        TokenKind::From => {
            cursor.take();
            Ok(Vec::new(alloc))
        }
        _ => Err(cursor.bad()),
    }
}
