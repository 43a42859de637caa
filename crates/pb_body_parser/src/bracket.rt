ghost use Rattle.std.specs.Prelude.{◌≡◌, ◌≢◌, ◌≤◌, ◌<◌, suc, length, OnOk, IfOk};
ghost use Rattle.pb_syntax.specs.Kinds.{name_in};
ghost use Rattle.pb_syntax.specs.declared.kind.TokenKind.TheVariants as k;
ghost use Rattle.pb_grammar.specs.Next.{next_kind, next_place};
ghost use Rattle.pb_grammar.specs.Want.{name_token, bracket, word};
ghost use Rattle.pb_form_parser.specs.Leads.{Leads, LeadsOn, Shortens};

use pb_form_parser::{Cursor, Fault, name_in};
use pb_syntax::{Item, MOST_NESTING, Name, TokenKind};
use std::alloc::Global;

/// Consumes a bracket of this kind where `depth` are open, and answers how many are open then; `OverLimit` if that is too
/// many.
#[tactic(auto, using(crate::proofs::ReadLemmas::fails_then, pb_form_parser::proofs::BeginLemmas::begin_within, crate::proofs::ReadLemmas::over_token, crate::proofs::ReadLemmas::bad_token))]
pub fn open(cursor: &mut Cursor<'_>, kind: TokenKind, depth: u32) -> Result<u32, Fault>
    requires known { kind ≢ k.End }
    requires nested { depth ≤ MOST_NESTING }
    ensures leads { LeadsOn result (bracket depth kind) cursor.old cursor.new }
    ensures deeper { OnOk result (depth < MOST_NESTING) }
    ensures depth { IfOk result (λ d. d ≡ suc depth) }
    ensures shorter { Shortens result cursor.old cursor.new }
{
    if depth < MOST_NESTING {
        cursor.expect(kind)?;
        return Ok(depth + 1);
    }
    if cursor.sees(kind) {
        return Err(cursor.over(Item::Nesting));
    }
    Err(cursor.bad())
}

/// Consumes the next token, a name.
#[tactic(auto, using(crate::proofs::ReadLemmas::fails_then), unfolding(pb_grammar::specs::Want::name_token))]
pub fn name(alloc: Global, cursor: &mut Cursor<'_>) -> Result<Name, Fault>
    ensures leads { Leads (λ n. n) result name_token cursor.old cursor.new }
    ensures shorter { Shortens result cursor.old cursor.new }
{
    name_in(alloc, cursor.expect(TokenKind::Name)?)
}

/// Consumes the next token, this very name.
#[tactic(auto, using(crate::proofs::ReadLemmas::word_taken, crate::proofs::ReadLemmas::word_else, crate::proofs::ReadLemmas::next_is_not_end))]
pub fn word(cursor: &mut Cursor<'_>, of: &[u8]) -> Result<(), Fault>
    ensures leads { LeadsOn result (word of.now) cursor.old cursor.new }
    ensures shorter { Shortens result cursor.old cursor.new }
{
    if cursor.next_is(of) {
        cursor.take();
        return Ok(());
    }
    Err(cursor.bad())
}
