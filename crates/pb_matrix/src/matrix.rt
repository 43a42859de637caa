use pb_values::Shape;
use std::alloc::{AllocError, AllocFailed};
use std::marker::Model;
use thiserror::Error;

/// A matrix: its shape, and its cells row by row. Where `read_matrix` answers it, there are as many cells as
/// width times height.
#[derive(Debug, Drop)]
pub struct Matrix {
    pub shape: Shape,
    pub cells: Vec<i64>,
}

impl Model for Matrix {
    ghost use Rattle.pb_matrix.specs.Value.{MatrixValue};

    ghost Value = { MatrixValue };

    ghost view = { λ m. record { shape = m.shape; cells = m.cells.items } };
}

/// The first fault of a text that is no matrix. `word` counts the words after the header from 0, `wanted` is the
/// number of cells that the header promises, `found` the number of words. `Memory`: memory ran out.
#[derive(Debug, Drop, Error)]
pub enum MatrixRefusal {
    #[error("no header, or a faulty one")]
    BadHeader,
    #[error("word {word} is no number of 64 bits")]
    BadNumber { word: u64 },
    #[error("{wanted} numbers wanted, {found} found")]
    TooFew { wanted: u64, found: u64 },
    #[error("more than the {wanted} numbers wanted")]
    TooMany { wanted: u64 },
    #[error("out of memory")]
    Memory,
}

impl From<AllocError> for MatrixRefusal {
    ghost use Rattle.std.specs.Prelude.{◌≡◌};
    ghost use Rattle.pb_matrix.specs.declared.matrix.MatrixRefusal.TheVariants.{Memory};

    ghost from_gives = { λ _ e. e ≡ Memory };

    fn from(_error: AllocError) -> MatrixRefusal {
        MatrixRefusal::Memory
    }
}

impl<T: Drop> From<AllocFailed<T>> for MatrixRefusal {
    ghost use Rattle.std.specs.Prelude.{◌≡◌};
    ghost use Rattle.pb_matrix.specs.declared.matrix.MatrixRefusal.TheVariants.{Memory};

    ghost from_gives = { λ _ e. e ≡ Memory };

    fn from(_error: AllocFailed<T>) -> MatrixRefusal {
        MatrixRefusal::Memory
    }
}
