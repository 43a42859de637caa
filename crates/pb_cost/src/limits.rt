ghost use Rattle.std.specs.Prelude.{◌≡◌, ◌≢◌, IfOk, OnOk, Some, slice_get};
ghost use Rattle.pb_linear.specs.Sizes.{InRange, leasts_of, sizes_of};
ghost use Rattle.pb_program.specs.Configs.{IsValid};
ghost use Rattle.pb_program.specs.Trees.{bare_prog, bare_transform};
ghost use Rattle.pb_entry.specs.declared.refusal.RunRefusal.TheVariants.{Memory};
ghost use Rattle.pb_recursion.specs.Counts.{run_count};
ghost use Rattle.pb_run_graph.specs.Handed.{unrolled_run};
ghost use Rattle.pb_cost.specs.Costs.{are_few, can_be_linked, given_sides};
ghost use Rattle.pb_cost.specs.Linked.{CanBeBegun};

use crate::at_size::{COST_DEPTH, COST_GRAIN};
use pb_check::Accepted;
use pb_counts::check_counts;
use pb_entry::RunRefusal;
use pb_linear::Sizes;
use pb_program::{Config, Transform};
use pb_run_graph::{run_links, unroll};
use std::alloc::{AllocError, Global};

/// A run is refused for a limit, or since memory ran out.
fn unless_memory(refusal: RunRefusal) -> Result<(), AllocError>
    ensures { OnOk result (refusal ≢ Memory) }
{
    match refusal {
        RunRefusal::Memory => Err(AllocError),
        _ => Ok(()),
    }
}

/// Whether the calls, the greatest side and the cells of the run of a transform are within their limits.
pub(crate) fn has_few_counts(
    alloc: Global,
    a: &Accepted,
    c: &Config,
    t: u32,
    transform: &Transform,
    s: &Sizes,
) -> Result<bool, AllocError>
    requires valid { IsValid (bare_prog a.now.program) c.now }
    requires there { slice_get a.now.program.transforms t ≡ Some transform.now }
    requires range { InRange (leasts_of transform.now.ranges) (sizes_of s.now) }
    ensures { IfOk result (λ b. b ≡ are_few (run_count (bare_prog a.now.program) c.now COST_DEPTH t (given_sides (bare_transform transform.now) (sizes_of s.now)))) }
{
    // What is known of the program is told with it.
    let _ = a.prog();
    match check_counts(alloc, a, c, COST_DEPTH, t, s) {
        Ok(()) => Ok(true),
        Err(refusal) => {
            unless_memory(refusal)?;
            Ok(false)
        }
    }
}

/// Whether the tasks and the links of the run over matrices of these sides are within their limits.
pub(crate) fn has_few_links(
    alloc: Global,
    a: &Accepted,
    c: &Config,
    t: u32,
    given: &[(i64, i64)],
) -> Result<bool, AllocError>
    requires valid { IsValid (bare_prog a.now.program) c.now }
    requires begun { CanBeBegun a.now c.now t given.now }
    ensures { IfOk result (λ b. b ≡ can_be_linked (unrolled_run (bare_prog a.now.program) a.now.found c.now COST_GRAIN COST_DEPTH t given.now).steps) }
{
    let run = unroll(alloc, a, c, COST_DEPTH, t, given, COST_GRAIN)?;
    match run_links(alloc, a, &run) {
        Ok(_) => Ok(true),
        Err(refusal) => {
            unless_memory(refusal)?;
            Ok(false)
        }
    }
}
