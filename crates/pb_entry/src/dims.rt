ghost use Rattle.std.specs.Prelude.{◌^◌, ◌≤◌, ◌<◌, IfErr, OnOk, length};
ghost use Rattle.std.specs.List.{All, zip};
ghost use Rattle.pb_entry.specs.Fitting.{FailsDims, HasDims, HasOtherDims};

use crate::refusal::RunRefusal;
use pb_matrix::Matrix;
use pb_program::Decl;

fn input_dims(number: u32, decl: &Decl, input: &Matrix) -> Result<(), RunRefusal>
    ensures fits { OnOk result (HasDims (decl.now, input.now)) }
    ensures refused { IfErr result (HasOtherDims number (decl.now, input.now)) }
{
    let wanted = decl.dims;
    let found = input.shape.dims;
    if wanted == found {
        return Ok(());
    }
    Err(RunRefusal::BadShape {
        matrix: number,
        axis: 2,
        wanted: u64::from(wanted),
        found: u64::from(found),
    })
}

/// Refuses the first input that has not as many dimensions as its matrix.
#[tactic(auto, using(crate::proofs::PairLemmas::pair_at))]
pub(crate) fn check_dims(matrices: &[Decl], inputs: &[Matrix]) -> Result<(), RunRefusal>
    requires enough { length inputs.now ≤ length matrices.now }
    requires few { length inputs.now < 2 ^ 32 }
    ensures fits { OnOk result (All HasDims (zip matrices.now inputs.now)) }
    ensures refused { IfErr result (FailsDims (zip matrices.now inputs.now)) }
{
    for number in 0..inputs.len() {
        input_dims(number as u32, &matrices[number], &inputs[number])?;
    }
    Ok(())
}
