ghost use Rattle.std.specs.Prelude.{◌≡◌, ◌≤◌, IfOk, map};
ghost use Rattle.std.specs.List.{All};
ghost use Rattle.std.specs.Option.{option_map};
ghost use Rattle.pb_linear.specs.Sizes.{sizes_of};
ghost use Rattle.pb_program.specs.Trees.{bare_prog, bare_rule};
ghost use Rattle.pb_recursion.specs.Plans.{sides_of_slot};
ghost use Rattle.pb_counts.specs.Callable.{IsCallable};
ghost use Rattle.pb_counts.specs.Entered.{sizes_of_call};

use crate::binding::bind;
use crate::fitting::fits;
use crate::sides::sides_of_slot;
use pb_linear::{SIZE_TOP, Sizes};
use pb_program::{PlanCall, Prog, Rule, Slot, Transform};
use std::alloc::{AllocError, Global};

/// The width and the height of each matrix that some names in a plan of transform `t` name, name by name, at sizes of at most `SIZE_TOP`.
pub fn sides_of_slots(
    alloc: Global,
    t: &Transform,
    rule: &Rule,
    slots: &[Slot],
    s: &Sizes,
) -> Result<Vec<(i64, i64)>, AllocError>
    requires { All (λ size. size ≤ SIZE_TOP) s.now.of }
    ensures { IfOk result (λ sides. sides.items ≡ map (sides_of_slot t.now.matrices (sizes_of s.now) (bare_rule rule.now)) slots.now) }
{
    let mut sides = Vec::new(alloc);
    for slot in slots {
        sides.push(sides_of_slot(t, rule, *slot, s))?;
    }
    Ok(sides)
}

/// The sizes at which a call in a plan of transform `t` enters the transform that it calls, at sizes of at most `SIZE_TOP`. None where
/// what it gives doesn't fit that transform, or what it wants doesn't, or where there is no such transform.
pub fn sizes_of_call(
    alloc: Global,
    p: &Prog,
    t: &Transform,
    rule: &Rule,
    call: &PlanCall,
    s: &Sizes,
) -> Result<Option<Sizes>, AllocError>
    requires sizes { All (λ size. size ≤ SIZE_TOP) s.now.of }
    requires program { All IsCallable (bare_prog p.now) }
    ensures { IfOk result (λ entered. option_map sizes_of entered ≡ sizes_of_call t.now.matrices (sizes_of s.now) (bare_prog p.now) (bare_rule rule.now) call.now) }
{
    let Some(called) = p.transforms.get(call.transform as usize) else {
        return Ok(None);
    };
    let given = sides_of_slots(alloc, t, rule, &call.arguments, s)?;
    let wanted = sides_of_slots(alloc, t, rule, &call.targets, s)?;
    if !fits(called, &given, &wanted) {
        return Ok(None);
    }
    Ok(Some(bind(called, &given)))
}
