ghost use Rattle.std.specs.Prelude.{◌≡◌, ℕ, IfOk};
ghost use Rattle.pb_linear.specs.Sizes.{InRange, leasts_of, sizes_of};
ghost use Rattle.pb_program.specs.Configs.{IsValid};
ghost use Rattle.pb_program.specs.Trees.{bare_prog};
ghost use Rattle.pb_check.specs.Ranked.{OfTransform};
ghost use Rattle.pb_frame.specs.Frames.{IsFrame};
ghost use Rattle.pb_instance_cost.specs.Costs.{instance_cost};

use crate::parts::cost_of;
use pb_check::Accepted;
use pb_frame::FrameTasks;
use pb_linear::Sizes;
use pb_program::Config;
use std::alloc::AllocError;

/// What the equations of transform `t` cost at these sizes, which are in range, where a valid configuration chooses. `frame` is what
/// the instance makes, in blocks of any side. A side above `MOST_SIDE`, or a sum that passes its type, is answered as if memory
/// had run out.
pub fn instance_cost(
    a: &Accepted,
    c: &Config,
    t: u32,
    s: &Sizes,
    frame: &FrameTasks,
) -> Result<u64, AllocError>
    requires valid { IsValid (bare_prog a.now.program) c.now }
    requires sizes { OfTransform a.now t (λ transform found. InRange (leasts_of transform.ranges) (sizes_of s.now)) }
    requires of_sizes { frame.now.sizes ≡ s.now }
    requires frame { (grain : ℕ) × OfTransform a.now t (λ transform found. IsFrame c.now t transform found grain frame.now) }
    ensures { IfOk result (λ n. OfTransform a.now t (λ transform found. n ≡ instance_cost c.now t transform (sizes_of s.now))) }
{
    cost_of(&frame.parts, &a.prog().transforms[t as usize], s)
}
