ghost use Rattle.std.specs.Prelude.{◌≡◌, Some, slice_get};
ghost use Rattle.pb_taskgraph.specs.Turns.{after_write};

use pb_values::{CellReader, Outcome};

/// Where a task reads and writes the outcomes of cells.
pub trait CellPort: CellReader {
    /// Writes the outcome of a cell: of the first that is still to be written, and the outcome that is told for it.
    fn write(&mut self, cell: u64, v: Outcome)
        requires { slice_get (Self.turn self.old).left 0 ≡ Some (cell, v) }
        ensures { Self.turn self.new ≡ after_write (Self.turn self.old) cell v };
}
