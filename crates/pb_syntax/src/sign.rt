ghost use Rattle.std.specs.Prelude.{◌≡◌, ◌<◌, [], slice_index_or};
ghost use Rattle.pb_syntax.specs.Signs.{signs, long_sign, short_sign};
ghost use Rattle.pb_syntax.specs.Kinds.{sign_kind};

use crate::kind::TokenKind;

pub const OPEN: u8 = 0;

pub const CLOSE: u8 = 1;

pub const OPEN_BRACE: u8 = 2;

pub const CLOSE_BRACE: u8 = 3;

pub const OPEN_BRACKET: u8 = 4;

pub const CLOSE_BRACKET: u8 = 5;

pub const COMMA: u8 = 6;

pub const SEMICOLON: u8 = 7;

pub const DOT: u8 = 8;

pub const DOTS: u8 = 9;

pub const ASSIGN: u8 = 10;

pub const EQUAL: u8 = 11;

pub const UNEQUAL: u8 = 12;

pub const LESS: u8 = 13;

pub const LESS_OR_EQUAL: u8 = 14;

pub const GREATER: u8 = 15;

pub const GREATER_OR_EQUAL: u8 = 16;

pub const PLUS: u8 = 17;

pub const MINUS: u8 = 18;

pub const TIMES: u8 = 19;

pub const OVER: u8 = 20;

pub const MODULO: u8 = 21;

pub const AND: u8 = 22;

pub const OR: u8 = 23;

pub const NOT: u8 = 24;

/// How many signs there are.
pub const SIGNS: u8 = 25;

/// What the sign at this place of the list is to the grammar; `Unknown` where the list ends before.
pub fn sign_kind(place: u8) -> TokenKind
    ensures { result ≡ sign_kind place }
{
    match place {
        OPEN => TokenKind::Open,
        CLOSE => TokenKind::Close,
        OPEN_BRACE => TokenKind::OpenBrace,
        CLOSE_BRACE => TokenKind::CloseBrace,
        OPEN_BRACKET => TokenKind::OpenBracket,
        CLOSE_BRACKET => TokenKind::CloseBracket,
        COMMA => TokenKind::Comma,
        SEMICOLON => TokenKind::Semicolon,
        DOT => TokenKind::Dot,
        DOTS => TokenKind::Dots,
        ASSIGN => TokenKind::Assign,
        EQUAL => TokenKind::Equal,
        UNEQUAL => TokenKind::Unequal,
        LESS => TokenKind::Less,
        LESS_OR_EQUAL => TokenKind::LessOrEqual,
        GREATER => TokenKind::Greater,
        GREATER_OR_EQUAL => TokenKind::GreaterOrEqual,
        PLUS => TokenKind::Plus,
        MINUS => TokenKind::Minus,
        TIMES => TokenKind::Times,
        OVER => TokenKind::Over,
        MODULO => TokenKind::Modulo,
        AND => TokenKind::And,
        OR => TokenKind::Or,
        NOT => TokenKind::Not,
        _ => TokenKind::Unknown,
    }
}

/// The bytes of the sign at this place of the list.
pub fn sign_bytes(place: u8) -> &'static [u8]
    requires { place < SIGNS }
    ensures { result.now ≡ slice_index_or signs place [] }
{
    match place {
        OPEN => b"(",
        CLOSE => b")",
        OPEN_BRACE => b"{",
        CLOSE_BRACE => b"}",
        OPEN_BRACKET => b"[",
        CLOSE_BRACKET => b"]",
        COMMA => b",",
        SEMICOLON => b";",
        DOT => b".",
        DOTS => b"..",
        ASSIGN => b"=",
        EQUAL => b"==",
        UNEQUAL => b"!=",
        LESS => b"<",
        LESS_OR_EQUAL => b"<=",
        GREATER => b">",
        GREATER_OR_EQUAL => b">=",
        PLUS => b"+",
        MINUS => b"-",
        TIMES => b"*",
        OVER => b"/",
        MODULO => b"%",
        AND => b"&&",
        OR => b"||",
        _ => b"!",
    }
}

/// The place of a sign of two bytes, if these are one.
pub fn long_sign(first: u8, second: u8) -> Option<u8>
    ensures { result ≡ long_sign first second }
{
    match (first, second) {
        (b'.', b'.') => Some(DOTS),
        (b'=', b'=') => Some(EQUAL),
        (b'!', b'=') => Some(UNEQUAL),
        (b'<', b'=') => Some(LESS_OR_EQUAL),
        (b'>', b'=') => Some(GREATER_OR_EQUAL),
        (b'&', b'&') => Some(AND),
        (b'|', b'|') => Some(OR),
        _ => None,
    }
}

/// The place of a sign of one byte, if this is one.
pub fn short_sign(byte: u8) -> Option<u8>
    ensures { result ≡ short_sign byte }
{
    match byte {
        b'(' => Some(OPEN),
        b')' => Some(CLOSE),
        b'{' => Some(OPEN_BRACE),
        b'}' => Some(CLOSE_BRACE),
        b'[' => Some(OPEN_BRACKET),
        b']' => Some(CLOSE_BRACKET),
        b',' => Some(COMMA),
        b';' => Some(SEMICOLON),
        b'.' => Some(DOT),
        b'=' => Some(ASSIGN),
        b'<' => Some(LESS),
        b'>' => Some(GREATER),
        b'+' => Some(PLUS),
        b'-' => Some(MINUS),
        b'*' => Some(TIMES),
        b'/' => Some(OVER),
        b'%' => Some(MODULO),
        b'!' => Some(NOT),
        _ => None,
    }
}
