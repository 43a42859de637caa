ghost use Rattle.std.specs.Prelude.{◌≡◌, ◌≤◌, ◌<◌, ◌⊎◌, ◌++◌, length, Err, IfOk, IfErr};
ghost use Rattle.pb_syntax.specs.declared.refusal.Refusal.TheVariants.{TooLong, Memory};
ghost use Rattle.pb_syntax.specs.Tokens.{Spells};
ghost use Rattle.pb_lexer.specs.Reading.{tokens_of};
ghost use Rattle.pb_lexer.specs.Lexing.{IsLexed, IsUnlexed};

use crate::piece::{PieceKind, read_front};
use pb_syntax::{MOST_BYTES, Name, Refusal, Token, TokenWhat};
use std::alloc::Global;

// Appends the token that some bytes are, if they are one.
fn put_token(
    alloc: Global,
    found: &mut Vec<Token>,
    at: u32,
    spelled: &[u8],
    kind: PieceKind,
) -> Result<(), Refusal>
    ensures put { IfOk result (λ _. found.new.items ≡ found.old.items ++ tokens_of at spelled.now kind) }
    ensures memory { IfErr result (λ e. e ≡ Memory) }
{
    let what = match kind {
        PieceKind::Gap => return Ok(()),
        PieceKind::Word => TokenWhat::Word(Name::new(spelled.to_vec(alloc)?, at)),
        PieceKind::Number(value) => TokenWhat::Number(value),
        PieceKind::Sign(place) => TokenWhat::Sign(place),
    };
    found.push(Token { at, what })?;
    Ok(())
}

fn read_pieces(alloc: Global, text: &[u8]) -> Result<Vec<Token>, Refusal>
    requires { length text.now ≤ MOST_BYTES }
    ensures found { IfOk result (λ found. Spells text.now found.items) }
    ensures refused { IfErr result (λ e. (e ≡ Memory) ⊎ IsUnlexed text.now e) }
{
    let mut found = Vec::new(alloc);
    let mut at: usize = 0;
    while at < text.len() {
        let rest = &text[at..];
        let Some(front) = read_front(rest) else {
            return Err(Refusal::BadToken { at: at as u32 });
        };
        put_token(
            alloc,
            &mut found,
            at as u32,
            &rest[..front.size],
            front.kind,
        )?;
        at += front.size;
    }
    Ok(found)
}

/// The tokens of a text, each with the place of its first byte. `TooLong` if the text is longer than `MOST_BYTES`, before
/// any memory is taken; else `BadToken` with the first byte that begins no token, blank or comment.
pub fn tokens(alloc: Global, text: &[u8]) -> Result<Vec<Token>, Refusal>
    ensures found { IfOk result (λ found. IsLexed text.now found.items) }
    ensures refused { IfErr result (λ e. (e ≡ Memory) ⊎ IsUnlexed text.now e) }
    ensures too_long { MOST_BYTES < length text.now → result ≡ Err TooLong }
{
    if text.len() > MOST_BYTES {
        return Err(Refusal::TooLong);
    }
    read_pieces(alloc, text)
}
