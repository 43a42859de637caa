ghost use Rattle.std.specs.Prelude.{◌≡◌, IfOk, string_bytes};
ghost use Rattle.pb_summary.specs.Summary.{sides_text, summary_text};

use crate::cells::{greatest, least, sum};
use pb_matrix::Matrix;
use pb_values::Shape;
use std::alloc::{AllocError, Global};

// The width, and with two dimensions the height.
fn sides(alloc: Global, shape: &Shape) -> Result<String, AllocError>
    ensures { IfOk result (λ text. string_bytes text ≡ sides_text shape.now) }
{
    if shape.dims == 2 {
        format!(in alloc; "{} {}", shape.w, shape.h)
    } else {
        format!(in alloc; "{}", shape.w)
    }
}

/// The line on a matrix with this name: the name, the sides in cells, the least and the greatest cell, and the exact sum of all
/// cells, with the line's end. Without cells all three are 0.
pub fn summary(alloc: Global, name: &str, matrix: &Matrix) -> Result<Vec<u8>, AllocError>
    ensures { IfOk result (λ text. text.items ≡ summary_text name.now matrix.now) }
{
    let sides = sides(alloc, &matrix.shape)?;
    let least = least(&matrix.cells);
    let greatest = greatest(&matrix.cells);
    let sum = sum(&matrix.cells);
    let line = format!(in alloc; "{name} {sides} least {least} greatest {greatest} sum {sum}\n")?;
    Ok(line.into_bytes())
}
