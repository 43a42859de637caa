ghost use Rattle.std.specs.Prelude.{◌≡◌, List, length, ℤ, Ok, IsTrue, All};
ghost use Rattle.pb_values.specs.declared.shape.Shape.{Shape};
ghost use Rattle.pb_values.specs.Checked.{fits_i64};
ghost use Rattle.pb_matrix.specs.Header.{IsMatrixShape, cell_count};
ghost use Rattle.pb_matrix.specs.Reading.{matrix_read};
ghost use Rattle.pb_matrix.specs.Text.{matrix_text};

use crate::header::MAX_CELLS;

/// A law: the text that is written for a matrix is read as the same matrix.
pub fn written_is_read()
    ensures { (shape : Shape) (cells : List ℤ) → IsMatrixShape shape → length cells ≡ cell_count shape
        → All (λ z. IsTrue (fits_i64 z)) cells → matrix_read (matrix_text shape cells) ≡ Ok (record { shape = shape; cells = cells }) }
{}

/// A law: a side of a matrix text, and its number of cells, is at most this.
pub fn the_limit_of_cells_is_this()
    ensures { MAX_CELLS ≡ 4194304 }
{}
