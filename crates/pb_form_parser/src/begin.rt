ghost use Rattle.std.specs.Prelude.{◌<◌, length, OnOk};
ghost use Rattle.pb_syntax.specs.declared.kind.TokenKind.TheVariants.{Name};
ghost use Rattle.pb_grammar.specs.Want.{token, begin};
ghost use Rattle.pb_syntax.specs.Limits.{limited};
ghost use Rattle.pb_form_parser.specs.Leads.{Leads, Shortens};

use crate::cursor::Cursor;
use crate::fault::Fault;
use pb_syntax::{Item, Token, TokenKind};

/// Consumes the name that begins an item; `OverLimit` if `before` of at most `most` items stand before it already.
#[tactic(auto, using(crate::proofs::BeginLemmas::begin_within))]
pub fn begin_name<'a>(
    cursor: &mut Cursor<'a>,
    most: usize,
    before: usize,
    what: Item,
) -> Result<&'a Token, Fault>
    ensures leads { Leads (λ t. t.now) result (λ f. begin (limited most before what) (token Name f)) cursor.old cursor.new }
    ensures within { OnOk result (before < most) }
    ensures shorter { Shortens result cursor.old cursor.new }
{
    if before < most {
        return cursor.expect(TokenKind::Name);
    }
    match cursor.peek() {
        TokenKind::Name => Err(cursor.over(what)),
        _ => Err(cursor.bad()),
    }
}
