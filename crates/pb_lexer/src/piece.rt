ghost use Rattle.std.specs.Prelude.{◌≡◌, ◌+◌, ◌≤◌, ◌<◌, length, IfSome};
ghost use Rattle.pb_syntax.specs.Signs.{begins_comment};
ghost use Rattle.pb_lexer.specs.Reading.{value_within, number_read, word_read, comment_read, sign_read, piece_read};

use crate::bytes::{Run, before_close, begins_name, is_blank, run_length};
use pb_syntax::MOST_VALUE;
use pb_syntax::sign::{long_sign, short_sign};

// Another digit after a larger number would pass the greatest.
const MOST_BEFORE_DIGIT: u64 = 922_337_203_685_477_580;

/// What some bytes are: a blank or comment, a word, a number with its value, a sign with its place.
#[derive(Clone, Copy)]
pub(crate) enum PieceKind {
    Gap,
    Word,
    Number(u64),
    Sign(u8),
}

/// What stands first in a text, and how many bytes it has.
#[derive(Clone, Copy)]
pub(crate) struct Front {
    pub kind: PieceKind,
    pub size: usize,
}

// The value of digits, up to the greatest number.
#[tactic(auto, using(crate::proofs::DigitLemmas::digit_too_many_at))]
fn read_value(digits: &[u8]) -> Option<u64>
    ensures { result ≡ value_within digits.now }
{
    let mut value: u64 = 0;
    for byte in digits {
        if !byte.is_ascii_digit() {
            return None;
        }
        if value > MOST_BEFORE_DIGIT {
            return None;
        }
        value = value * 10 + (*byte - b'0') as u64;
    }
    if value > MOST_VALUE {
        None
    } else {
        Some(value)
    }
}

fn read_number(text: &[u8]) -> Option<Front>
    ensures front { result ≡ number_read text.now }
    ensures within { IfSome result (λ f. f.size ≤ length text.now) }
{
    let size = run_length(Run::InNumber, text);
    let value = read_value(&text[..size])?;
    Some(Front {
        kind: PieceKind::Number(value),
        size,
    })
}

fn begins_comment(first: u8, second: u8) -> bool
    ensures { result ≡ begins_comment first second }
{
    first == b'/' && matches!(second, b'/' | b'*')
}

// A comment: what stands after its `/`.
fn read_comment(after: &[u8]) -> Option<Front>
    ensures front { result ≡ comment_read after.now }
    ensures within { IfSome result (λ f. f.size ≤ 1 + length after.now) }
    ensures some { IfSome result (λ f. 0 < f.size) }
{
    match after {
        [b'/', inside @ ..] => Some(Front {
            kind: PieceKind::Gap,
            size: 2 + run_length(Run::InLine, inside),
        }),
        [b'*', inside @ ..] => {
            let size = before_close(inside)?;
            Some(Front {
                kind: PieceKind::Gap,
                size: 4 + size,
            })
        }
        _ => None,
    }
}

fn read_sign(first: u8, after: &[u8]) -> Option<Front>
    ensures front { result ≡ sign_read first after.now }
    ensures within { IfSome result (λ f. f.size ≤ 1 + length after.now) }
    ensures some { IfSome result (λ f. 0 < f.size) }
{
    if let [second, ..] = after {
        if let Some(place) = long_sign(first, *second) {
            return Some(Front {
                kind: PieceKind::Sign(place),
                size: 2,
            });
        }
        if begins_comment(first, *second) {
            return read_comment(after);
        }
    }
    let place = short_sign(first)?;
    Some(Front {
        kind: PieceKind::Sign(place),
        size: 1,
    })
}

/// The blank, comment or token that stands first in a text, if one does.
pub(crate) fn read_front(text: &[u8]) -> Option<Front>
    ensures front { result ≡ piece_read text.now }
    ensures within { IfSome result (λ f. f.size ≤ length text.now) }
    ensures some { IfSome result (λ f. 0 < f.size) }
{
    let [first, after @ ..] = text else {
        return None;
    };
    if is_blank(*first) {
        return Some(Front {
            kind: PieceKind::Gap,
            size: 1,
        });
    }
    if begins_name(*first) {
        return Some(Front {
            kind: PieceKind::Word,
            size: 1 + run_length(Run::InName, after),
        });
    }
    if first.is_ascii_digit() {
        return read_number(text);
    }
    read_sign(*first, after)
}
