ghost use Rattle.std.specs.Prelude.{◌≡◌, IfOk};
ghost use Rattle.pb_unroll.specs.Answers.{matrices_text, results_in};
ghost use Rattle.pb_run_work.specs.Running.{run_plan};

use crate::texts::{matrices_in, texts_in};
use pb_matrix::Matrix;
use pb_run_work::Run;
use pb_taskgraph::Outcomes;
use std::alloc::{AllocError, Global};

/// The texts of the matrices that a run with these outcomes gives, those after `to`, in declared order. A trap among them
/// is written as 0.
pub fn results_text(
    alloc: Global,
    run: &Run<'_>,
    outcomes: &Outcomes,
) -> Result<Vec<u8>, AllocError>
    requires { outcomes.now ≡ (run_plan run.now).solution }
    ensures { IfOk result (λ text. text.items ≡ matrices_text (results_in run.now)) }
{
    texts_in(alloc, run.outputs(), outcomes)
}

/// The matrices that a run with these outcomes gives, those after `to`, in declared order. A trap among them counts as 0.
pub fn result_matrices(
    alloc: Global,
    run: &Run<'_>,
    outcomes: &Outcomes,
) -> Result<Vec<Matrix>, AllocError>
    requires { outcomes.now ≡ (run_plan run.now).solution }
    ensures { IfOk result (λ matrices. matrices.items ≡ results_in run.now) }
{
    matrices_in(alloc, run.outputs(), outcomes)
}
