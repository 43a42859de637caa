ghost use Rattle.std.specs.Prelude.{◌≡◌, ◌≤◌, List, map};
ghost use Rattle.std.specs.List.{All};
ghost use Rattle.pb_linear.specs.Sizes.{sizes_of};
ghost use Rattle.pb_program.specs.Trees.{ProgTransform, bare_rule, bare_transform};
ghost use Rattle.pb_recursion.specs.Counts.{all_of, failed_count, matrix_of};
ghost use Rattle.pb_recursion.specs.Plans.{sides_of_slot};
ghost use Rattle.pb_counts.specs.Tallies.{capped, counted};

use crate::sides::sides_of_slot;
use crate::tally::Tally;
use pb_linear::{SIZE_TOP, Sizes};
use pb_program::{PlanCall, Rule, Slot, Transform};

/// Of the matrices that some names in a plan name.
fn of_slots(t: &Transform, rule: &Rule, slots: &[Slot], s: &Sizes) -> Tally
    requires { All (λ size. size ≤ SIZE_TOP) s.now.of }
    ensures { counted result ≡ capped (all_of (map matrix_of (map (sides_of_slot t.now.matrices (sizes_of s.now) (bare_rule rule.now)) slots.now))) }
{
    let mut tally = Tally::nothing();
    for slot in slots {
        tally = tally.both(Tally::of_matrix(sides_of_slot(t, rule, *slot, s)));
    }
    tally
}

/// What a call in a plan of this transform counts where it can't be made, at sizes of at most `SIZE_TOP`: one call, and a matrix
/// for each target, which has the sides of what the target names.
pub fn failed_call(t: &Transform, rule: &Rule, call: &PlanCall, s: &Sizes) -> Tally
    requires { All (λ size. size ≤ SIZE_TOP) s.now.of }
    ensures { (p : List ProgTransform) → counted result ≡ capped (failed_count p (bare_transform t.now) (sizes_of s.now) (bare_rule rule.now) call.now) }
{
    Tally::one_call().both(of_slots(t, rule, &call.targets, s))
}
