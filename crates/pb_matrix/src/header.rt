ghost use Rattle.std.specs.Prelude.{◌≡◌, ◌≤◌, ◌<◌, ◌∷◌, length, MatchOption, IfSome, Err};
ghost use Rattle.std.specs.List.{list_all};
ghost use Rattle.std.specs.Option.{ForSome};
ghost use Rattle.std.specs.Str.Lines.{lines, strip_carriage_return};
ghost use Rattle.pb_matrix.specs.Header.{side, header_shape, one_side, two_sides, IsMatrixShape};
ghost use Rattle.pb_matrix.specs.Words.{is_blank, is_gap, words};
ghost use Rattle.pb_matrix.specs.Reading.{matrix_read, after_header};

use crate::matrix::MatrixRefusal;
use crate::numbers::read_digits;
use crate::words::{Cut, cuts, next_word, split_first};
use pb_values::Shape;

/// The most that a side of a matrix may be, and the most cells of a matrix.
pub const MAX_CELLS: u64 = 4_194_304;

fn read_side(word: &[u8]) -> Option<u64>
    ensures side { result ≡ side word.now }
    ensures most { IfSome result (λ side. side ≤ MAX_CELLS) }
{
    if word.len() > 1 && word[0] == b'0' {
        return None;
    }
    let value = read_digits(word)?;
    if value > MAX_CELLS { None } else { Some(value) }
}

fn one_side(width: Option<u64>) -> Option<Shape>
    requires { ForSome width (λ w. w ≤ MAX_CELLS) }
    ensures shape { result ≡ one_side width }
    ensures most { IfSome result IsMatrixShape }
{
    let w = width?;
    Some(Shape { dims: 1, w, h: 1 })
}

fn two_sides(width: Option<u64>, height: Option<u64>) -> Option<Shape>
    requires width { ForSome width (λ w. w ≤ MAX_CELLS) }
    requires height { ForSome height (λ h. h ≤ MAX_CELLS) }
    ensures shape { result ≡ two_sides width height }
    ensures most { IfSome result IsMatrixShape }
{
    let w = width?;
    let h = height?;
    if w * h > MAX_CELLS {
        return None;
    }
    Some(Shape { dims: 2, w, h })
}

/// The shape that a header line names.
#[tactic(auto, using(crate::proofs::HeaderLemmas::other_name))]
pub(crate) fn read_header(line: &[u8]) -> Option<Shape>
    ensures named { result ≡ header_shape (words is_blank line.now) }
    ensures most { IfSome result IsMatrixShape }
{
    let (name, rest) = next_word(Cut::AtBlanks, line)?;
    let (width, rest) = next_word(Cut::AtBlanks, rest)?;
    if name != b"matrix".as_slice() {
        return None;
    }
    let Some((height, rest)) = next_word(Cut::AtBlanks, rest) else {
        return one_side(read_side(width));
    };
    if next_word(Cut::AtBlanks, rest).is_some() {
        return None;
    }
    two_sides(read_side(width), read_side(height))
}

fn strip_carriage_return(line: &[u8]) -> &[u8]
    ensures { result.now ≡ strip_carriage_return line.now }
{
    match line {
        [front @ .., b'\r'] => front,
        _ => line,
    }
}

fn is_blank_line(line: &[u8]) -> bool
    ensures { result ≡ list_all is_blank line.now }
{
    line.iter().all(|byte| cuts(Cut::AtBlanks, *byte))
}

// The first line, without its end, and what follows it.
#[tactic(auto, using(crate::proofs::LineLemmas::ended_line, crate::proofs::LineLemmas::last_line))]
fn split_line(text: &[u8]) -> (&[u8], &[u8])
    requires { 0 < length text.now }
    ensures first { lines text.now ≡ result.0.now ∷ lines result.1.now }
    ensures shorter { length result.1.now < length text.now }
{
    let (line, rest) = split_first(Cut::AtLineEnds, text);
    if line.len() == text.len() {
        return (line, rest);
    }
    (strip_carriage_return(line), rest)
}

/// The first line that isn't blank, without its end, and what follows it.
#[tactic(auto, using(crate::proofs::LineLemmas::blank_line, crate::proofs::LineLemmas::header_line))]
pub(crate) fn split_header(text: &[u8]) -> Option<(&[u8], &[u8])>
    ensures { MatchOption result (matrix_read text.now ≡ Err MatrixRefusal.BadHeader)
        (λ found. matrix_read text.now ≡ after_header (header_shape (words is_blank found.0.now)) (words is_gap found.1.now)) }
{
    let mut rest = text;
    while !rest.is_empty() {
        let (line, after) = split_line(rest);
        if !is_blank_line(line) {
            return Some((line, after));
        }
        rest = after;
    }
    None
}
