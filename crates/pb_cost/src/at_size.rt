ghost use Rattle.std.specs.Prelude.{◌≡◌, ◌<◌, IfOk, IsTrue, Some, length, slice_get};
ghost use Rattle.pb_linear.specs.Sizes.{InRange, leasts_of, sizes_of};
ghost use Rattle.pb_program.specs.Configs.{IsValid, is_cutoff};
ghost use Rattle.pb_program.specs.Trees.{bare_prog, bare_transform};
ghost use Rattle.pb_cost.specs.Costs.{cost, cost_at_sizes};

use crate::given::{equal_sizes, given_sides, some_is_empty};
use crate::known::Known;
use crate::limits::{has_few_counts, has_few_links};
use crate::recursion::call_cost;
use pb_check::Accepted;
use pb_linear::Sizes;
use pb_program::{Config, Transform};
use pb_recursion::given_matrices_can_enter;
use std::alloc::{AllocError, Global};

/// How deep the plans of a run may call whose cost is asked for.
pub const COST_DEPTH: u32 = 64;

/// The least side of a block of a run whose cost is asked for.
pub const COST_GRAIN: u64 = 64;

/// The cost at sizes in range.
fn cost_at(
    alloc: Global,
    a: &Accepted,
    c: &Config,
    t: u32,
    transform: &Transform,
    s: &Sizes,
) -> Result<Option<u64>, AllocError>
    requires valid { IsValid (bare_prog a.now.program) c.now }
    requires there { slice_get a.now.program.transforms t ≡ Some transform.now }
    requires range { InRange (leasts_of transform.now.ranges) (sizes_of s.now) }
    ensures { IfOk result (λ found. found ≡ cost_at_sizes (bare_prog a.now.program) a.now.found c.now t (sizes_of s.now) (bare_transform transform.now)) }
{
    given_matrices_can_enter();
    // What is known of the program is told with it.
    let _ = a.prog();
    let given = given_sides(alloc, transform, s)?;
    if some_is_empty(&given) {
        return Ok(None);
    }
    if !has_few_counts(alloc, a, c, t, transform, s)? {
        return Ok(None);
    }
    let mut known = Known::new(alloc);
    let Some(cost) = call_cost(alloc, a, c, &mut known, COST_DEPTH, t, s)? else {
        return Ok(None);
    };
    if !has_few_links(alloc, a, c, t, &given)? {
        return Ok(None);
    }
    Ok(Some(cost))
}

/// The cost of a valid configuration at a size, for transform `t`: the sum over the run with all sizes equal to it of the cells that
/// equations read and write. None where the size is below a least size, a matrix after `from` is empty, a count of the run passes its
/// limit, or a call can't be made.
pub fn cost(
    alloc: Global,
    a: &Accepted,
    c: &Config,
    t: u32,
    size: u64,
) -> Result<Option<u64>, AllocError>
    requires valid { IsValid (bare_prog a.now.program) c.now }
    requires there { t < length (bare_prog a.now.program) }
    requires size { IsTrue (is_cutoff size) }
    ensures { IfOk result (λ found. found ≡ cost (bare_prog a.now.program) a.now.found c.now t size) }
{
    let transform = &a.prog().transforms[t as usize];
    let s = equal_sizes(transform, size);
    if !transform.ranges.hold(&s) {
        return Ok(None);
    }
    cost_at(alloc, a, c, t, transform, &s)
}
