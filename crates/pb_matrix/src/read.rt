ghost use Rattle.std.specs.Prelude.{◌≡◌, ◌*◌, ◌≤◌, ◌<◌, [], ◌∷◌, Ok, Err, IfOk, IfSome, MatchOption, IsTrue, length, map, All};
ghost use Rattle.pb_values.specs.Checked.{fits_i64};
ghost use Rattle.pb_matrix.specs.Value.{MatrixValue};
ghost use Rattle.pb_matrix.specs.Words.{is_gap, words, cell_number};
ghost use Rattle.pb_matrix.specs.Header.{IsMatrixShape, cell_count};
ghost use Rattle.pb_matrix.specs.Reading.{matrix_read, body_read, Reads};
ghost use Rattle.pb_matrix.specs.Spelling.{Spells};

use crate::header::{read_header, split_header};
use crate::matrix::{Matrix, MatrixRefusal};
use crate::numbers::read_number;
use crate::quick::quick_number;
use crate::words::{Cut, next_word};
use pb_values::Shape;
use std::alloc::Global;

// What the first word of a text says as a number, and what stands after it, if there is a word.
#[inline]
fn next_number(text: &[u8]) -> Option<(Option<i64>, &[u8])>
    ensures numbers { MatchOption result (words is_gap text.now ≡ [])
        (λ found. map cell_number (words is_gap text.now) ≡ found.0 ∷ map cell_number (words is_gap found.1.now)) }
    ensures shorter { IfSome result (λ found. length found.1.now < length text.now) }
{
    if let Some((number, after)) = quick_number(text) {
        return Some((Some(number), after));
    }
    let (word, after) = next_word(Cut::AtGaps, text)?;
    Some((read_number(word), after))
}

// Reads the cells; takes memory for no more than can stand in the text.
#[tactic(auto, using(crate::proofs::BodyLemmas::read_whole))]
fn read_body(alloc: Global, shape: Shape, text: &[u8]) -> Result<Matrix, MatrixRefusal>
    requires { IsMatrixShape shape }
    ensures reads { Reads result (body_read shape (words is_gap text.now)) }
    ensures shape { IfOk result (λ matrix. IsMatrixShape matrix.shape) }
    ensures cells { IfOk result (λ matrix. length matrix.cells ≡ cell_count matrix.shape) }
{
    let wanted = shape.w * shape.h;
    let mut cells = Vec::with_capacity(alloc, (text.len() / 2 + 1).min(wanted as usize))?;
    let mut rest = text;
    while let Some((number, after)) = next_number(rest) {
        let place = cells.len() as u64;
        if place == wanted {
            return Err(MatrixRefusal::TooMany { wanted });
        }
        let Some(cell) = number else {
            return Err(MatrixRefusal::BadNumber { word: place });
        };
        cells.push(cell)?;
        rest = after;
    }
    let found = cells.len() as u64;
    if found < wanted {
        return Err(MatrixRefusal::TooFew { wanted, found });
    }
    Ok(Matrix { shape, cells })
}

fn read_text(alloc: Global, bytes: &[u8]) -> Result<Matrix, MatrixRefusal>
    ensures reads { Reads result (matrix_read bytes.now) }
    ensures shape { IfOk result (λ matrix. IsMatrixShape matrix.shape) }
    ensures cells { IfOk result (λ matrix. length matrix.cells ≡ cell_count matrix.shape) }
{
    let Some((line, body)) = split_header(bytes) else {
        return Err(MatrixRefusal::BadHeader);
    };
    match read_header(line) {
        Some(shape) => read_body(alloc, shape, body),
        None => Err(MatrixRefusal::BadHeader),
    }
}

/// The matrix that a text spells. The header is the first line that isn't blank: `matrix` and the width, or the
/// width and the height, each and their product at most `MAX_CELLS`. After it stand as many numbers of 64 bits.
///
/// Refuses with the first fault: of the header, then of a word among those that are wanted, then too few or too many.
pub fn read_matrix(alloc: Global, bytes: &[u8]) -> Result<Matrix, MatrixRefusal>
    ensures reads { Reads result (matrix_read bytes.now) }

    // What is accepted is spelled so, and what is spelled so is accepted unless memory runs out.
    ensures spelled { IfOk result (λ matrix. Spells bytes.now matrix) }
    ensures accepted { (matrix : MatrixValue) → Spells bytes.now matrix → Reads result (Ok matrix) }

    ensures shape { IfOk result (λ matrix. IsMatrixShape matrix.shape) }
    ensures cells { IfOk result (λ matrix. length matrix.cells ≡ cell_count matrix.shape) }
    ensures fits { IfOk result (λ matrix. All (λ z. IsTrue (fits_i64 z)) matrix.cells) }
{
    read_text(alloc, bytes)
}
