ghost use Rattle.std.specs.Prelude.{◌≡◌, ◌+◌, IfOk, OnOk, Some, map};
ghost use Rattle.std.specs.List.{All};
ghost use Rattle.pb_linear.specs.Sizes.{InRange, leasts_of, sizes_of};
ghost use Rattle.pb_program.specs.Configs.{IsValid};
ghost use Rattle.pb_program.specs.Trees.{bare_prog};
ghost use Rattle.pb_check.specs.Ranked.{OfTransform};
ghost use Rattle.pb_cost.specs.Calls.{call_cost, cost_at, deeper_at, plus, total};
ghost use Rattle.pb_cost.specs.Known.{AreKnown};
ghost use Rattle.pb_cost.specs.Planned.{CanBeEntered};

use crate::entered::Entered;
use crate::instance::look;
use crate::known::Known;
use pb_check::Accepted;
use pb_linear::Sizes;
use pb_program::Config;
use std::alloc::{AllocError, Global};

/// A sum. One that passes its type is answered as if memory had run out.
fn sum(a: u64, b: u64) -> Result<u64, AllocError>
    ensures { IfOk result (λ n. n ≡ a + b) }
{
    match a.checked_add(b) {
        Some(sum) => Ok(sum),
        None => Err(AllocError),
    }
}

/// What an instance costs whose equations cost so much, with the calls that its plans make, where these may be so deep.
#[cycle(costs)]
fn with_calls(
    alloc: Global,
    a: &Accepted,
    c: &Config,
    known: &mut Known,
    depth: u32,
    own: u64,
    calls: &[Option<Entered>],
) -> Result<Option<u64>, AllocError>
    requires valid { IsValid (bare_prog a.now.program) c.now }
    requires calls { All (CanBeEntered (bare_prog a.now.program)) calls.now }
    requires known { AreKnown (bare_prog a.now.program) c.now known.old }
    ensures cost { IfOk result (λ n. n ≡ plus (Some own) (total (map (call_cost (deeper_at (bare_prog a.now.program) c.now depth)) calls.now))) }
    ensures known { OnOk result (AreKnown (bare_prog a.now.program) c.now known.new) }
{
    if depth == 0 {
        return Ok(if calls.is_empty() { Some(own) } else { None });
    }
    // What is known of the program is told with it.
    let _ = a.prog();
    let mut cost = own;
    for call in calls {
        let Some(entered) = call else {
            return Ok(None);
        };
        let Some(one) = call_cost(
            alloc,
            a,
            c,
            known,
            depth - 1,
            entered.transform,
            &entered.sizes,
        )?
        else {
            return Ok(None);
        };
        cost = sum(cost, one)?;
    }
    Ok(Some(cost))
}

/// What a call of transform `t` costs at sizes in range, where plans may call `depth` deeper; none where a call can't be made.
#[cycle(costs)]
pub(crate) fn call_cost(
    alloc: Global,
    a: &Accepted,
    c: &Config,
    known: &mut Known,
    depth: u32,
    t: u32,
    s: &Sizes,
) -> Result<Option<u64>, AllocError>
    requires valid { IsValid (bare_prog a.now.program) c.now }
    requires sizes { OfTransform a.now t (λ transform found. InRange (leasts_of transform.ranges) (sizes_of s.now)) }
    requires known { AreKnown (bare_prog a.now.program) c.now known.old }
    ensures cost { IfOk result (λ n. n ≡ cost_at (bare_prog a.now.program) c.now depth t (sizes_of s.now)) }
    ensures known { OnOk result (AreKnown (bare_prog a.now.program) c.now known.new) }
{
    if let Some(cost) = known.find(depth, t, s) {
        return Ok(cost);
    }
    let (own, calls) = look(alloc, a, c, t, s)?;
    let cost = with_calls(alloc, a, c, known, depth, own, &calls)?;
    known.add(depth, t, s, cost)?;
    Ok(cost)
}
