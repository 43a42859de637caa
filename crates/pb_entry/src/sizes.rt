ghost use Rattle.std.specs.Prelude.{◌≡◌, IfErr, IfOk, length};
ghost use Rattle.pb_linear.specs.Sizes.{sizes_of};
ghost use Rattle.pb_program.specs.Trees.{bare_prog, bare_transform};
ghost use Rattle.pb_region.specs.Dims.{HasTransform};
ghost use Rattle.pb_entry.specs.Fitting.{AreBound, AreUnfit, IsEnterable};

use crate::dims::check_dims;
use crate::named::transform_at;
use crate::range::check_range;
use crate::refusal::RunRefusal;
use crate::sides::check_sides;
use crate::values::values;
use pb_check::Accepted;
use pb_linear::Sizes;
use pb_matrix::Matrix;
use pb_program::Transform;

fn bind(transform: &Transform, inputs: &[Matrix]) -> Result<Sizes, RunRefusal>
    requires transform { IsEnterable (bare_transform transform.now) }
    requires count { length inputs.now ≡ transform.now.inputs }
    ensures found { IfOk result (λ s. AreBound (bare_transform transform.now) inputs.now (sizes_of s)) }
    ensures refused { IfErr result (AreUnfit (bare_transform transform.now) inputs.now) }
{
    let matrices = &transform.matrices;
    check_dims(matrices, inputs)?;
    let sizes = values(transform.ranges.count, matrices, inputs);
    check_range(transform.ranges, sizes)?;
    check_sides(matrices, inputs, &sizes)?;
    Ok(sizes)
}

/// The sizes at which transform `t` has these inputs, as many as it takes. A size variable is bound by the first side that is
/// the variable alone, of the matrices in order, the width before the height.
///
/// Refuses the first input with another number of dimensions; then the first size that is out of range; then the first side
/// that differs from its form.
pub fn bind_sizes(a: &Accepted, t: u32, inputs: &[Matrix]) -> Result<Sizes, RunRefusal>
    requires count { HasTransform (bare_prog a.now.program) t (λ transform. length inputs.now ≡ transform.inputs) }
    ensures found { HasTransform (bare_prog a.now.program) t (λ transform. IfOk result (λ s. AreBound transform inputs.now (sizes_of s))) }
    ensures refused { HasTransform (bare_prog a.now.program) t (λ transform. IfErr result (AreUnfit transform inputs.now)) }
{
    bind(transform_at(a.prog(), t), inputs)
}
