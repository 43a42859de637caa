ghost use Rattle.std.specs.Prelude.{◌≡◌, ◌⊎◌, IfErr, OnOk};
ghost use Rattle.pb_linear.specs.Sizes.{InRange, leasts_of, sizes_of};
ghost use Rattle.pb_program.specs.Configs.{IsValid};
ghost use Rattle.pb_program.specs.Trees.{bare_prog};
ghost use Rattle.pb_check.specs.Ranked.{OfTransform};
ghost use Rattle.pb_entry.specs.declared.refusal.RunRefusal.TheVariants.{Memory};
ghost use Rattle.pb_recursion.specs.Counts.{Counted};
ghost use Rattle.pb_counts.specs.Tallies.{capped, counted};
ghost use Rattle.pb_counts.specs.Limits.{AreFew, AreMany, OfRun};
ghost use Rattle.pb_counts.specs.Told.{Tells};

use crate::count::{MOST_CALLS, count};
use crate::matrices::of_decls;
use crate::memo::Memo;
use crate::tally::Tally;
use pb_check::Accepted;
use pb_entry::{Count, RunRefusal};
use pb_linear::Sizes;
use pb_program::Config;
use pb_recursion::given_matrices_can_enter;
use pb_taskgraph::MOST_CELLS;
use pb_values::MOST_SIDE;
use std::alloc::Global;

/// Refuses a tally of which a count passes its limit: the first of the calls, the side, the cells.
fn check_tally(tally: Tally) -> Result<(), RunRefusal>
    ensures few { OnOk result ((c : Counted) → counted tally ≡ capped c → AreFew c) }
    ensures many { IfErr result (λ e. (c : Counted) → counted tally ≡ capped c → AreMany c e) }
{
    if tally.calls > MOST_CALLS {
        return Err(RunRefusal::TooLarge { what: Count::Calls });
    }
    if tally.side > MOST_SIDE {
        return Err(RunRefusal::TooLarge { what: Count::Side });
    }
    if tally.cells > MOST_CELLS {
        return Err(RunRefusal::TooLarge { what: Count::Cells });
    }
    Ok(())
}

/// Refuses a run of transform `t` at sizes in range, where a valid configuration chooses and plans may call `depth` deep, of which a count
/// passes its limit: the first of its calls, the greatest side of a matrix, its cells.
pub fn check_counts(
    alloc: Global,
    a: &Accepted,
    c: &Config,
    depth: u32,
    t: u32,
    s: &Sizes,
) -> Result<(), RunRefusal>
    requires valid { IsValid (bare_prog a.now.program) c.now }
    requires sizes { OfTransform a.now t (λ transform found. InRange (leasts_of transform.ranges) (sizes_of s.now)) }
    ensures few { OnOk result (OfTransform a.now t (λ transform found. OfRun (bare_prog a.now.program) c.now depth t transform (sizes_of s.now) AreFew)) }
    ensures many { IfErr result (λ e. (e ≡ Memory) ⊎ OfTransform a.now t (λ transform found. OfRun (bare_prog a.now.program) c.now depth t transform (sizes_of s.now) (λ n. AreMany n e))) }
{
    given_matrices_can_enter();
    let transform = &a.prog().transforms[t as usize];
    let inputs = of_decls(&transform.matrices[..transform.inputs as usize], s);
    let mut known = Memo::new(alloc);
    let Some(call) = count(alloc, a, c, &mut known, depth, t, s, 0)? else {
        return Err(RunRefusal::TooLarge { what: Count::Calls });
    };
    check_tally(inputs.both(call))
}
