ghost use Rattle.std.specs.Prelude.{◌≡◌, ◌^◌, ◌≤◌, ◌<◌, ◌≤ℤ◌, IfErr, OnOk, length, pos};
ghost use Rattle.std.specs.List.{All, zip};
ghost use Rattle.pb_linear.specs.Form.{numbers, value};
ghost use Rattle.pb_linear.specs.Sizes.{sizes_of};
ghost use Rattle.pb_linear.specs.declared.sizes.TheConstants.{SIZE_TOP};
ghost use Rattle.pb_entry.specs.Fitting.{FailsSides, HasOtherSide, HasSides, IsNatural, IsOther};

use crate::refusal::RunRefusal;
use pb_linear::{Form, Sizes};
use pb_matrix::Matrix;
use pb_program::Decl;

fn side(number: u32, axis: u8, form: &Form, found: u64, sizes: &Sizes) -> Result<(), RunRefusal>
    requires top { All (λ size. size ≤ SIZE_TOP) sizes.now.of }
    requires natural { pos 0 ≤ℤ value form.now (sizes_of sizes.now) }
    ensures fits { OnOk result (pos found ≡ value form.now (sizes_of sizes.now)) }
    ensures refused { IfErr result (IsOther number axis (numbers form.now) (sizes_of sizes.now) found) }
{
    let wanted = form.at(sizes) as u64;
    if wanted == found {
        return Ok(());
    }
    Err(RunRefusal::BadShape {
        matrix: number,
        axis,
        wanted,
        found,
    })
}

fn input_sides(number: u32, decl: &Decl, input: &Matrix, sizes: &Sizes) -> Result<(), RunRefusal>
    requires top { All (λ size. size ≤ SIZE_TOP) sizes.now.of }
    requires natural { IsNatural (sizes_of sizes.now) decl.now }
    ensures fits { OnOk result (HasSides (sizes_of sizes.now) (decl.now, input.now)) }
    ensures refused { IfErr result (HasOtherSide (sizes_of sizes.now) number (decl.now, input.now)) }
{
    side(number, 0, &decl.w, input.shape.w, sizes)?;
    side(number, 1, &decl.h, input.shape.h, sizes)
}

/// Refuses the first input that has not the sides of its matrix.
#[tactic(auto, using(crate::proofs::PairLemmas::pair_at))]
pub(crate) fn check_sides(
    matrices: &[Decl],
    inputs: &[Matrix],
    sizes: &Sizes,
) -> Result<(), RunRefusal>
    requires enough { length inputs.now ≤ length matrices.now }
    requires few { length inputs.now < 2 ^ 32 }
    requires top { All (λ size. size ≤ SIZE_TOP) sizes.now.of }
    requires natural { All (IsNatural (sizes_of sizes.now)) matrices.now }
    ensures fits { OnOk result (All (HasSides (sizes_of sizes.now)) (zip matrices.now inputs.now)) }
    ensures refused { IfErr result (FailsSides (zip matrices.now inputs.now) (sizes_of sizes.now)) }
{
    for number in 0..inputs.len() {
        input_sides(number as u32, &matrices[number], &inputs[number], sizes)?;
    }
    Ok(())
}
