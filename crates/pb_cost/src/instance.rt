ghost use Rattle.std.specs.Prelude.{◌≡◌, IfOk};
ghost use Rattle.std.specs.List.{All};
ghost use Rattle.pb_linear.specs.Sizes.{InRange, leasts_of, sizes_of};
ghost use Rattle.pb_program.specs.Configs.{IsValid};
ghost use Rattle.pb_program.specs.Trees.{bare_prog};
ghost use Rattle.pb_check.specs.Ranked.{OfTransform};
ghost use Rattle.pb_instance_cost.specs.Costs.{instance_cost};
ghost use Rattle.pb_cost.specs.Calls.{entered_calls};
ghost use Rattle.pb_cost.specs.Planned.{CanBeEntered};

use crate::at_size::COST_GRAIN;
use crate::calls::calls_of;
use crate::entered::Entered;
use pb_check::Accepted;
use pb_frame::frame;
use pb_instance_cost::instance_cost;
use pb_linear::Sizes;
use pb_program::Config;
use std::alloc::{AllocError, Global};

/// What the equations of transform `t` cost at sizes in range, where a valid configuration chooses; and the calls that its chosen plans
/// make.
pub(crate) fn look(
    alloc: Global,
    a: &Accepted,
    c: &Config,
    t: u32,
    s: &Sizes,
) -> Result<(u64, Vec<Option<Entered>>), AllocError>
    requires valid { IsValid (bare_prog a.now.program) c.now }
    requires sizes { OfTransform a.now t (λ transform found. InRange (leasts_of transform.ranges) (sizes_of s.now)) }
    ensures own { IfOk result (λ r. OfTransform a.now t (λ transform found. r.0 ≡ instance_cost c.now t transform (sizes_of s.now))) }
    ensures calls { IfOk result (λ r. OfTransform a.now t (λ transform found. r.1.items ≡ entered_calls (bare_prog a.now.program) c.now t transform (sizes_of s.now))) }
    ensures can { IfOk result (λ r. All (CanBeEntered (bare_prog a.now.program)) r.1.items) }
{
    let prog = a.prog();
    let transform = &prog.transforms[t as usize];
    let frame = frame(alloc, a, c, t, s, COST_GRAIN)?;
    let own = instance_cost(a, c, t, s, &frame)?;
    let calls = calls_of(alloc, prog, transform, s, &frame.parts)?;
    Ok((own, calls))
}
