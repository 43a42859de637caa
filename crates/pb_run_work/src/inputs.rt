ghost use Rattle.std.specs.Prelude.{◌≡◌, ◌<◌, IfOk, length, map};
ghost use Rattle.std.specs.List.{All};
ghost use Rattle.pb_model.specs.Calls.{Outcomes};
ghost use Rattle.pb_recursion.specs.Depths.{sides_of_matrix};
ghost use Rattle.pb_solution.specs.Solutions.{outcomes_of};
ghost use Rattle.pb_taskgraph.specs.Plans.{IsSmall, outcome_at};
ghost use Rattle.pb_run_work.specs.Given.{given_as};

use pb_matrix::Matrix;
use pb_values::Outcome;
use std::alloc::{AllocError, Global};

/// The outcome of a cell of matrices whose cells stand one after the other.
pub(crate) fn input_at(inputs: &[Matrix], cell: u64) -> Outcome
    requires below { cell < length (outcomes_of (given_as inputs.now)) }
    requires small { All (λ (m : Outcomes). All IsSmall m.cells) (given_as inputs.now) }
    ensures { result ≡ outcome_at (outcomes_of (given_as inputs.now)) cell }
{
    let mut left = cell;
    for matrix in inputs {
        let cells = matrix.cells.len() as u64;
        if left < cells {
            return Outcome::Value(matrix.cells[left as usize]);
        }
        left -= cells;
    }
    Outcome::Value(0)
}
