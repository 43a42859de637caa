ghost use Rattle.std.specs.Prelude.{◌≡◌, ◌<◌, ◌≤◌, length, None, OnOk, IfOk, IfErr};
ghost use Rattle.pb_form_parser.specs.declared.fault.Fault.TheVariants.{Memory};
ghost use Rattle.pb_grammar.specs.Want.{form, dims_known, after_dim, last_dim};
ghost use Rattle.pb_syntax.specs.Limits.{after_form, alone, is_known};
ghost use Rattle.pb_form_parser.specs.Dims.{name_seen, names_of, sizes_known, after_dims, Counts};
ghost use Rattle.pb_form_parser.specs.Leads.{Leads, LeadsOn, Shortens};

use crate::cursor::Cursor;
use crate::fault::Fault;
use crate::forms::form;
use pb_syntax::{FormText, Item, MOST_SIZES, Name, TokenKind};
use std::alloc::Global;

/// The name, if the form is a lone name.
fn alone(form: &FormText) -> Option<&Name>
    ensures { name_seen result ≡ alone form.now }
{
    if form.minus {
        return None;
    }
    match form.terms.as_slice() {
        [only] => {
            if only.factor != 1 {
                return None;
            }
            if only.quotient != 0 {
                return None;
            }
            only.name.as_ref()
        }
        _ => None,
    }
}

fn is_known(name: &Name, known: &Vec<Name>) -> bool
    ensures { result ≡ is_known name.now.bytes (names_of known.now.items) }
{
    for other in known {
        if name.bytes() == other.bytes() {
            return true;
        }
    }
    false
}

/// Counts a dimension that is a lone name, if names are counted; `OverLimit` if it is a size too many.
fn count(alloc: Global, known: &mut Option<Vec<Name>>, form: &FormText) -> Result<(), Fault>
    ensures { Counts result (sizes_known known.old) form.now (sizes_known known.new) }
{
    let Some(names) = known else {
        return Ok(());
    };
    let Some(name) = alone(form) else {
        return Ok(());
    };
    if is_known(name, names) {
        return Ok(());
    }
    if names.len() >= MOST_SIZES {
        return Err(Fault::OverLimit {
            what: Item::Sizes,
            at: name.at(),
        });
    }
    names.push(Name::new(name.bytes().to_vec(alloc)?, name.at()))?;
    Ok(())
}

#[tactic(auto, using(crate::proofs::DimLemmas::close_over))]
fn last_dim(
    alloc: Global,
    cursor: &mut Cursor<'_>,
    known: &mut Option<Vec<Name>>,
    form: &FormText,
) -> Result<(), Fault>
    ensures leads { LeadsOn result (last_dim (sizes_known known.old) form.now) cursor.old cursor.new }
    ensures counted { OnOk result (sizes_known known.new ≡ after_form (sizes_known known.old) form.now) }
    ensures shorter { Shortens result cursor.old cursor.new }
{
    match cursor.peek() {
        TokenKind::CloseBracket => {
            count(alloc, known, form)?;
            cursor.take();
            Ok(())
        }
        _ => Err(cursor.bad()),
    }
}

/// The dimensions of a matrix after its `[`, up to and with the `]`. If names are counted, those that stand alone are added
/// to `known`.
#[tactic(auto, using(crate::proofs::DimLemmas::dim_last, crate::proofs::DimLemmas::comma_over))]
pub fn counted_dims(
    alloc: Global,
    cursor: &mut Cursor<'_>,
    known: &mut Option<Vec<Name>>,
) -> Result<Vec<FormText>, Fault>
    ensures leads { Leads (λ v. v.items) result (dims_known (sizes_known known.old)) cursor.old cursor.new }
    ensures counted { IfOk result (λ v. sizes_known known.new ≡ after_dims (sizes_known known.old) v.items) }
    ensures shorter { Shortens result cursor.old cursor.new }
{
    let mut dims = Vec::new(alloc);
    let first = form(alloc, cursor)?;
    match cursor.peek() {
        TokenKind::Comma => {
            count(alloc, known, &first)?;
            cursor.take();
            let second = form(alloc, cursor)?;
            last_dim(alloc, cursor, known, &second)?;
            dims.push(first)?;
            dims.push(second)?;
            Ok(dims)
        }
        _ => {
            last_dim(alloc, cursor, known, &first)?;
            dims.push(first)?;
            Ok(dims)
        }
    }
}

/// The dimensions of a matrix after its `[`, up to and with the `]`; names aren't counted.
pub fn dims(alloc: Global, cursor: &mut Cursor<'_>) -> Result<Vec<FormText>, Fault>
    ensures leads { Leads (λ v. v.items) result (λ f. form (λ e. after_dim None e f)) cursor.old cursor.new }
    ensures shorter { Shortens result cursor.old cursor.new }
{
    let mut known = None;
    counted_dims(alloc, cursor, &mut known)
}
