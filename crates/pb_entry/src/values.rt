ghost use Rattle.std.specs.Prelude.{◌≡◌, ◌≤◌, ◌<◌, ℕ, MatchOption, length};
ghost use Rattle.std.specs.List.{zip};
ghost use Rattle.pb_linear.specs.Sizes.{sizes_of};
ghost use Rattle.pb_entry.specs.Fitting.{Gives, HasValue, HasValues, Lacks};

use crate::standing::stands_alone;
use pb_linear::Sizes;
use pb_matrix::Matrix;
use pb_program::Decl;

/// The side of an input that is a size variable alone, its width before its height.
fn given_value(size: usize, decl: &Decl, input: &Matrix) -> Option<u64>
    requires { size < 8 }
    ensures { MatchOption result (Lacks size (decl.now, input.now)) (λ v. Gives size v (decl.now, input.now)) }
{
    if stands_alone(&decl.w, size) {
        return Some(input.shape.w);
    }
    if stands_alone(&decl.h, size) {
        return Some(input.shape.h);
    }
    None
}

/// The value of a size variable, which some input gives.
#[tactic(auto, using(crate::proofs::PairLemmas::pair_at))]
fn value_of(size: usize, matrices: &[Decl], inputs: &[Matrix]) -> u64
    requires size { size < 8 }
    requires enough { length inputs.now ≤ length matrices.now }
    requires given { (v : ℕ) × HasValue (zip matrices.now inputs.now) size v }
    ensures { HasValue (zip matrices.now inputs.now) size result }
{
    for number in 0..inputs.len() {
        if let Some(value) = given_value(size, &matrices[number], &inputs[number]) {
            return value;
        }
    }
    0
}

/// The values of the size variables, each of which some input gives.
pub(crate) fn values(count: u8, matrices: &[Decl], inputs: &[Matrix]) -> Sizes
    requires few { count ≤ 8 }
    requires enough { length inputs.now ≤ length matrices.now }
    requires given { (size : ℕ) → size < count → (v : ℕ) × HasValue (zip matrices.now inputs.now) size v }
    ensures { HasValues (zip matrices.now inputs.now) count (sizes_of result) }
{
    let mut of = [0u64; 8];
    for size in 0..count as usize {
        of[size] = value_of(size, matrices, inputs);
    }
    Sizes { count, of }
}
