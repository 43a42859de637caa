ghost use Rattle.std.specs.Prelude.{◌≡◌, ◌≤◌, IfOk, OnOk, List, filter, map, slice_get, slice_index_or};
ghost use Rattle.std.specs.List.{All};
ghost use Rattle.std.specs.Option.{option_map_or};
ghost use Rattle.pb_program.specs.declared.plan.Slot.TheVariants as slot;
ghost use Rattle.pb_program.specs.declared.view.Read.{Read};
ghost use Rattle.pb_linear.specs.Sizes.{sizes_of};
ghost use Rattle.pb_program.specs.Trees.{ProgTransform, bare_rule};
ghost use Rattle.pb_values.specs.declared.outcome.Outcome.TheVariants.{Trapped};
ghost use Rattle.pb_check.specs.Orders.{AnalysisValue};
ghost use Rattle.pb_recursion.specs.Plans.{target_sides};
ghost use Rattle.pb_views.specs.Seats.{IsSmall};
ghost use Rattle.pb_counts.specs.Handed.{failed, no_target, seat_has_cells, target_of, targets_of, trap_step};
ghost use Rattle.pb_steps.specs.Stands.{Appends, met_of};
ghost use Rattle.pb_steps.specs.Values.{InstanceValue};

use crate::met::Met;
use crate::step::{Failed, Step, Target};
use pb_counts::sides_of_slots;
use pb_frame::has_place;
use pb_linear::{SIZE_TOP, Sizes};
use pb_program::{PlanCall, Rule, Slot, Transform};
use pb_values::{Name, Trap};
use pb_views::Seat;
use std::alloc::{AllocError, Global};

fn copy_of(alloc: Global, name: &Name) -> Result<Name, AllocError>
    ensures { IfOk result (λ copy. copy ≡ name.now) }
{
    Ok(Name::new(name.bytes().to_vec(alloc)?, name.at()))
}

/// What nothing is called.
fn no_name(alloc: Global) -> Name
    ensures { result ≡ no_target.name }
{
    Name::new(Vec::new(alloc), 0)
}

fn name_of_output(alloc: Global, rule: &Rule, k: u32) -> Result<Name, AllocError>
    ensures { IfOk result (λ name. name ≡ slice_index_or rule.now.names k no_target.name) }
{
    match rule.names.get(k as usize) {
        Some(name) => copy_of(alloc, name),
        None => Ok(no_name(alloc)),
    }
}

fn dims_of_output(rule: &Rule, k: u32) -> u8
    ensures { result ≡ option_map_or (λ (o : Read). o.dims) (slice_get rule.now.outs k) 0 }
{
    match rule.outs.get(k as usize) {
        Some(out) => out.dims,
        None => 0,
    }
}

fn output_target(alloc: Global, rule: &Rule, k: u32) -> Result<Target, AllocError>
    ensures { IfOk result (λ t. t ≡ target_of (bare_rule rule.now) (slot.Out k)) }
{
    Ok(Target {
        name: name_of_output(alloc, rule, k)?,
        dims: dims_of_output(rule, k),
    })
}

fn no_target(alloc: Global) -> Target
    ensures { result ≡ no_target }
{
    Target {
        name: no_name(alloc),
        dims: 0,
    }
}

fn local_target(alloc: Global, rule: &Rule, k: u32) -> Result<Target, AllocError>
    ensures { IfOk result (λ t. t ≡ target_of (bare_rule rule.now) (slot.Local k)) }
{
    let Some(plan) = &rule.body.plan else {
        return Ok(no_target(alloc));
    };
    match plan.locals.get(k as usize) {
        Some(decl) => Ok(Target {
            name: copy_of(alloc, &decl.name)?,
            dims: decl.dims,
        }),
        None => Ok(no_target(alloc)),
    }
}

fn target_of(alloc: Global, rule: &Rule, slot: Slot) -> Result<Target, AllocError>
    ensures { IfOk result (λ t. t ≡ target_of (bare_rule rule.now) slot) }
{
    match slot {
        Slot::Out(k) => output_target(alloc, rule, k),
        Slot::Local(k) => local_target(alloc, rule, k),
        Slot::Read(_) => Ok(no_target(alloc)),
    }
}

/// What the targets of a call are called.
fn targets_of(alloc: Global, rule: &Rule, slots: &[Slot]) -> Result<Vec<Target>, AllocError>
    ensures { IfOk result (λ targets. targets.items ≡ map (target_of (bare_rule rule.now)) slots.now) }
{
    let mut targets = Vec::new(alloc);
    for slot in slots {
        targets.push(target_of(alloc, rule, *slot)?)?;
    }
    Ok(targets)
}

/// Those that have a cell.
fn with_cells(alloc: Global, seats: &[Seat]) -> Result<Vec<Seat>, AllocError>
    ensures { IfOk result (λ found. found.items ≡ filter seat_has_cells seats.now) }
{
    let mut found = Vec::new(alloc);
    for seat in seats {
        if has_place(&seat.rect) {
            found.push(*seat)?;
        }
    }
    Ok(found)
}

/// Adds the step of a call that can't be made, unless none of these has a cell.
fn add_trap(steps: &mut Vec<Step>, failed: Failed) -> Result<(), AllocError>
    ensures { OnOk result ((p : List ProgTransform) (found : List AnalysisValue) (instances : List InstanceValue)
        → Appends p found instances steps.old.items steps.new.items (trap_step failed.targets failed.first failed.call (Trapped failed.trap) failed.seats)) }
{
    if failed.seats.len() > 0 {
        steps.push(Step::Trap(failed))?;
    }
    Ok(())
}

/// A call of a plan of transform `t` that can't be made, at sizes of at most `SIZE_TOP`: it is met with a matrix for each target, and
/// a step gives their cells the trap, if there are any. Answers where the matrices stand.
pub(crate) fn fail_call(
    alloc: Global,
    steps: &mut Vec<Step>,
    met: &mut Met,
    t: &Transform,
    rule: &Rule,
    call: &PlanCall,
    s: &Sizes,
    trap: Trap,
) -> Result<Vec<Seat>, AllocError>
    requires { All (λ size. size ≤ SIZE_TOP) s.now.of }
    ensures seats { IfOk result (λ seats. seats.items ≡ (failed (targets_of (bare_rule rule.now) call.now) (Trapped trap) (target_sides t.now.matrices (sizes_of s.now) (bare_rule rule.now) call.now) (met_of met.old)).seats) }
    ensures small { IfOk result (λ seats. All IsSmall seats.items) }
    ensures steps { OnOk result ((p : List ProgTransform) (found : List AnalysisValue) (instances : List InstanceValue)
        → Appends p found instances steps.old.items steps.new.items (failed (targets_of (bare_rule rule.now) call.now) (Trapped trap) (target_sides t.now.matrices (sizes_of s.now) (bare_rule rule.now) call.now) (met_of met.old)).steps) }
    ensures met { OnOk result (met_of met.new ≡ (failed (targets_of (bare_rule rule.now) call.now) (Trapped trap) (target_sides t.now.matrices (sizes_of s.now) (bare_rule rule.now) call.now) (met_of met.old)).next) }
{
    let first = met.matrices;
    let number = met.meet_call()?;
    let wanted = sides_of_slots(alloc, t, rule, &call.targets, s)?;
    let seats = met.meet_matrices(alloc, &wanted)?;
    let failed = Failed {
        call: number,
        trap,
        targets: targets_of(alloc, rule, &call.targets)?,
        first,
        seats: with_cells(alloc, &seats)?,
    };
    add_trap(steps, failed)?;
    Ok(seats)
}
