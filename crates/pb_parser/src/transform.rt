ghost use Rattle.std.specs.Prelude.{◌≡◌, ◌+◌, ◌≤◌, ◌⊎◌, length, IfOk, IfErr};
ghost use Rattle.pb_syntax.specs.declared.refusal.Refusal.TheVariants.{Memory};
ghost use Rattle.pb_syntax.specs.Trees.{bare_transform, bare_text};
ghost use Rattle.pb_syntax.specs.Faults.{Accepted, AreRefused};
ghost use Rattle.pb_syntax.specs.declared.refusal.Item.TheVariants.{Transforms};
ghost use Rattle.pb_grammar.specs.Want.{a_transform, with_minimums, with_kept, begin, program};
ghost use Rattle.pb_syntax.specs.Limits.{over};
ghost use Rattle.pb_grammar.specs.Reading.{read};
ghost use Rattle.pb_form_parser.specs.Leads.{Leads, Shortens};
ghost use Rattle.pb_parser.specs.Gives.{Gives};

use crate::decl::{decls, minimums, through};
use crate::refused::refused_with;
use crate::rule::rules;
use pb_form_parser::{Cursor, Fault, name_in};
use pb_syntax::{
    DeclText, Item, MOST_TRANSFORMS, Name, Refusal, Text, Token, TokenKind, TransformText,
};
use std::alloc::Global;

fn transform(alloc: Global, cursor: &mut Cursor<'_>) -> Result<TransformText, Fault>
    ensures leads { Leads bare_transform result a_transform cursor.old cursor.new }
    ensures shorter { Shortens result cursor.old cursor.new }
{
    cursor.expect(TokenKind::Transform)?;
    let name = name_in(alloc, cursor.expect(TokenKind::Name)?)?;
    let minimums = minimums(alloc, cursor)?;
    after_minimums(alloc, cursor, name, minimums)
}

/// What stands in a transform after its minimums.
fn after_minimums(
    alloc: Global,
    cursor: &mut Cursor<'_>,
    name: Name,
    minimums: Vec<(Name, u64)>,
) -> Result<TransformText, Fault>
    ensures leads { Leads bare_transform result (λ f. with_minimums name f minimums.items) cursor.old cursor.new }
    ensures shorter { Shortens result cursor.old cursor.new }
{
    let from = decls(alloc, cursor, 0, true)?;
    let kept = through(alloc, cursor, from.len())?;
    after_kept(alloc, cursor, name, minimums, from, kept)
}

/// What stands in a transform after the matrices that it keeps.
fn after_kept(
    alloc: Global,
    cursor: &mut Cursor<'_>,
    name: Name,
    minimums: Vec<(Name, u64)>,
    from: Vec<DeclText>,
    kept: Vec<DeclText>,
) -> Result<TransformText, Fault>
    requires { length from.items + length kept.items ≤ 16 }
    ensures leads { Leads bare_transform result (λ f. with_kept name minimums.items from.items f kept.items) cursor.old cursor.new }
    ensures shorter { Shortens result cursor.old cursor.new }
{
    let to = decls(alloc, cursor, from.len() + kept.len(), false)?;
    cursor.expect(TokenKind::OpenBrace)?;
    let rules = rules(alloc, cursor)?;
    Ok(TransformText {
        name,
        minimums,
        from,
        through: kept,
        to,
        rules,
    })
}

#[tactic(auto, using(pb_form_parser::proofs::BeginLemmas::begin_within))]
fn next_transform(
    alloc: Global,
    cursor: &mut Cursor<'_>,
    before: usize,
) -> Result<TransformText, Fault>
    ensures leads { Leads bare_transform result (λ f. begin (over Transforms before) (a_transform f)) cursor.old cursor.new }
    ensures shorter { Shortens result cursor.old cursor.new }
{
    if before < MOST_TRANSFORMS {
        return transform(alloc, cursor);
    }
    match cursor.peek() {
        TokenKind::Transform => Err(cursor.over(Item::Transforms)),
        _ => Err(cursor.bad()),
    }
}

#[tactic(auto, using(crate::proofs::RuleLemmas::next_transform, crate::proofs::RuleLemmas::transforms_more))]
fn read_program(alloc: Global, tokens: &[Token], end: u32) -> Result<Text, Fault>
    ensures read { Gives result (read end tokens.now program) }
{
    let mut cursor = Cursor { rest: tokens, end };
    let mut transforms = Vec::new(alloc);
    transforms.push(transform(alloc, &mut cursor)?)?;
    while !cursor.rest.is_empty() {
        let further = next_transform(alloc, &mut cursor, transforms.len())?;
        transforms.push(further)?;
    }
    Ok(Text { transforms })
}

/// The tree of a text's tokens; `end` is the length of the text in bytes. `BadSyntax` with the place of the first token
/// such that the tokens up to and with it begin no program, or `end` where all of them begin one; `OverLimit` where an
/// item is too many before such a place, with the first item that is and the place where it begins.
pub fn parse(alloc: Global, tokens: &[Token], end: u32) -> Result<Text, Refusal>
    ensures found { IfOk result (λ t. Accepted (bare_text t) tokens.now) }
    ensures refused { IfErr result (λ e. (e ≡ Memory) ⊎ AreRefused tokens.now end e) }
{
    refused_with(read_program(alloc, tokens, end))
}
