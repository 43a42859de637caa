ghost use Rattle.std.specs.Prelude.{◌≡◌, ◌*◌, ◌≤◌, ◌<◌, ◌++◌, length, Ok, IfOk, OnOk, IsTrue, All};
ghost use Rattle.std.specs.Fmt.{signed_decimal};
ghost use Rattle.pb_values.specs.Checked.{fits_i64};
ghost use Rattle.pb_matrix.specs.Header.{IsMatrixShape, cell_count};
ghost use Rattle.pb_matrix.specs.Reading.{matrix_read};
ghost use Rattle.pb_matrix.specs.Text.{header_words, line_text, row_text, matrix_text};

use crate::buffered::{BYTES_AT_ONCE, write_numbers};
use itoa::Buffer;
use pb_values::Shape;
use std::alloc::{AllocError, Global};

// The longest number has 20 bytes.
const BYTES_PER_CELL: usize = 21;

const BYTES_OF_HEADER: usize = 24;

fn write_header(text: &mut Vec<u8>, shape: &Shape) -> Result<(), AllocError>
    ensures { OnOk result (text.new.items ≡ text.old.items ++ line_text (header_words shape.now)) }
{
    let mut buffer = Buffer::new();
    text.extend_from_slice(b"matrix ")?;
    text.extend_from_slice(buffer.format(shape.w).as_bytes())?;
    if shape.dims == 2 {
        text.push(b' ')?;
        text.extend_from_slice(buffer.format(shape.h).as_bytes())?;
    }
    text.extend_from_slice(b"\n")?;
    Ok(())
}

#[inline]
fn write_number(text: &mut Vec<u8>, number: i64) -> Result<(), AllocError>
    ensures { OnOk result (text.new.items ≡ text.old.items ++ signed_decimal number) }
{
    let mut buffer = Buffer::new();
    text.extend_from_slice(buffer.format(number).as_bytes())?;
    Ok(())
}

fn write_row(
    text: &mut Vec<u8>,
    row: &[i64],
    buffer: &mut [u8; BYTES_AT_ONCE],
) -> Result<(), AllocError>
    requires { 0 < length row.now }
    ensures text { OnOk result (text.new.items ≡ text.old.items ++ row_text row.now) }
    ensures fits { OnOk result (All (λ z. IsTrue (fits_i64 z)) row.now) }
{
    write_number(text, row[0])?;
    write_numbers(text, &row[1..], buffer)?;
    text.push(b'\n')?;
    Ok(())
}

/// The text of a matrix: the header line, then one line for each row, with single blanks, and no row where there are
/// no cells. `cells` has width times height numbers, row by row.
pub fn write_matrix(alloc: Global, shape: &Shape, cells: &[i64]) -> Result<Vec<u8>, AllocError>
    requires shape { IsMatrixShape shape.now }
    requires cells { length cells.now ≡ cell_count shape.now }
    ensures text { IfOk result (λ text. text.items ≡ matrix_text shape.now cells.now) }
    ensures read_again { IfOk result (λ text. matrix_read text.items ≡ Ok (record { shape = shape.now; cells = cells.now })) }
{
    let mut text = Vec::with_capacity(alloc, cells.len() * BYTES_PER_CELL + BYTES_OF_HEADER)?;
    write_header(&mut text, shape)?;
    if cells.is_empty() {
        return Ok(text);
    }
    let mut buffer = [0u8; BYTES_AT_ONCE];
    let mut rest = cells;
    'rows: for _ in 0..shape.h {
        let (row, after) = rest.split_at(shape.w as usize);
        write_row(&mut text, row, &mut buffer)?;
        rest = after;
    }
    Ok(text)
}
