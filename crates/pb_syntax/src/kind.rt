ghost use Rattle.std.specs.Prelude.{◌≡◌, ◌↔◌, IsTrue};
ghost use Rattle.pb_syntax.specs.Kinds.{word_kind, kind_of};

use crate::sign::sign_kind;
use crate::token::{Token, TokenWhat};
use pb_values::Name;

/// What a token is to the grammar: a keyword, a name, a number or a sign. `Unknown` is a sign that isn't in the
/// list, `End` the end of the text.
#[derive(Clone, Copy, PartialEq, Eq, Debug)]
pub enum TokenKind {
    Transform,
    From,
    Through,
    To,
    Where,
    Primary,
    Secondary,
    Priority,
    Let,
    If,
    Else,
    For,
    Name,
    Number,
    Open,
    Close,
    OpenBrace,
    CloseBrace,
    OpenBracket,
    CloseBracket,
    Comma,
    Semicolon,
    Dot,
    Dots,
    Assign,
    Equal,
    Unequal,
    Less,
    LessOrEqual,
    Greater,
    GreaterOrEqual,
    Plus,
    Minus,
    Times,
    Over,
    Modulo,
    And,
    Or,
    Not,
    Unknown,
    End,
}

/// What a word is to the grammar: a keyword, or else a name.
pub fn word_kind(word: &Name) -> TokenKind
    ensures { result ≡ word_kind word.now.bytes }
{
    let bytes = word.bytes();
    if bytes == b"transform".as_slice() {
        return TokenKind::Transform;
    }
    if bytes == b"from".as_slice() {
        return TokenKind::From;
    }
    if bytes == b"through".as_slice() {
        return TokenKind::Through;
    }
    if bytes == b"to".as_slice() {
        return TokenKind::To;
    }
    if bytes == b"where".as_slice() {
        return TokenKind::Where;
    }
    if bytes == b"primary".as_slice() {
        return TokenKind::Primary;
    }
    if bytes == b"secondary".as_slice() {
        return TokenKind::Secondary;
    }
    if bytes == b"priority".as_slice() {
        return TokenKind::Priority;
    }
    if bytes == b"let".as_slice() {
        return TokenKind::Let;
    }
    if bytes == b"if".as_slice() {
        return TokenKind::If;
    }
    if bytes == b"else".as_slice() {
        return TokenKind::Else;
    }
    if bytes == b"for".as_slice() {
        return TokenKind::For;
    }
    TokenKind::Name
}

/// What a token is to the grammar.
pub fn kind_of(token: &Token) -> TokenKind
    ensures { result ≡ kind_of token.now }
{
    match &token.what {
        TokenWhat::Word(word) => word_kind(word),
        TokenWhat::Number(_) => TokenKind::Number,
        TokenWhat::Sign(place) => sign_kind(*place),
    }
}

/// Whether a token is of this kind.
pub fn is_kind(token: &Token, kind: TokenKind) -> bool
    ensures { IsTrue result ↔ kind_of token.now ≡ kind }
{
    kind_of(token) == kind
}
