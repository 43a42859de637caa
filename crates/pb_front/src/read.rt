ghost use Rattle.std.specs.Prelude.{◌≡◌, ◌<◌, ◌⊎◌, List, length, Err, IfOk, IfErr, MatchResult};
ghost use Rattle.pb_syntax.specs.declared.refusal.Refusal.TheVariants.{TooLong, Memory};
ghost use Rattle.pb_syntax.specs.Trees.{TransformTree, bare_text};
ghost use Rattle.pb_front.specs.Reading.{IsRead, IsRefused};

use pb_lexer::tokens;
use pb_parser::parse;
use pb_syntax::{MOST_BYTES, Refusal, Text};
use std::alloc::Global;

#[tactic(auto, using(crate::proofs::ReadLemmas::lexed, crate::proofs::ReadLemmas::parsed_tree, crate::proofs::ReadLemmas::parsed_refusal))]
fn read_tree(alloc: Global, text: &[u8]) -> Result<Text, Refusal>
    ensures found { IfOk result (λ t. IsRead text.now (bare_text t)) }
    ensures refused { IfErr result (λ e. (e ≡ Memory) ⊎ IsRefused text.now e) }
    ensures too_long { MOST_BYTES < length text.now → result ≡ Err TooLong }
{
    let tokens = tokens(alloc, text)?;
    parse(alloc, &tokens, text.len() as u32)
}

/// The tree of a program text. `TooLong` if the text is longer than `MOST_BYTES`, before any memory is taken; else
/// `BadToken` with the first byte that begins no token, blank or comment; else `BadSyntax` or `OverLimit` with its place,
/// as `pb_parser::parse` says.
pub fn read_text(alloc: Global, text: &[u8]) -> Result<Text, Refusal>
    ensures found { IfOk result (λ t. IsRead text.now (bare_text t)) }
    ensures refused { IfErr result (λ e. (e ≡ Memory) ⊎ IsRefused text.now e) }
    ensures too_long { MOST_BYTES < length text.now → result ≡ Err TooLong }
    ensures complete { (tree : List TransformTree) → IsRead text.now tree → MatchResult result (λ t. bare_text t ≡ tree) (λ e. e ≡ Memory) }
{
    read_tree(alloc, text)
}
