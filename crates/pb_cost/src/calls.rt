ghost use Rattle.std.specs.Prelude.{◌≡◌, ◌≤◌, ◌++◌, IfOk, OnOk, length, map};
ghost use Rattle.std.specs.List.{All, enumerate_from, flat_map};
ghost use Rattle.pb_linear.specs.Sizes.{sizes_of};
ghost use Rattle.pb_syntax.specs.declared.limits.TheConstants.{MOST_RULES};
ghost use Rattle.pb_program.specs.Trees.{bare_prog, bare_rule, bare_transform};
ghost use Rattle.pb_counts.specs.Callable.{IsCallable};
ghost use Rattle.pb_cost.specs.Calls.{entered_by};
ghost use Rattle.pb_cost.specs.Planned.{CanBeEntered, rule_calls, some_has};

use crate::entered::Entered;
use pb_counts::sizes_of_call;
use pb_frame::FramePart;
use pb_linear::{SIZE_TOP, Sizes};
use pb_program::{PlanCall, Prog, Rule, RuleKind, Transform};
use std::alloc::{AllocError, Global};

/// A call of a plan, none where it doesn't fit.
fn enter(
    alloc: Global,
    prog: &Prog,
    t: &Transform,
    rule: &Rule,
    call: &PlanCall,
    s: &Sizes,
) -> Result<Option<Entered>, AllocError>
    requires sizes { All (λ size. size ≤ SIZE_TOP) s.now.of }
    requires program { All IsCallable (bare_prog prog.now) }
    ensures call { IfOk result (λ e. e ≡ entered_by (bare_prog prog.now) (bare_transform t.now) (sizes_of s.now) (bare_rule rule.now) call.now) }
    ensures can { IfOk result (CanBeEntered (bare_prog prog.now)) }
{
    let transform = call.transform;
    match sizes_of_call(alloc, prog, t, rule, call, s)? {
        Some(sizes) => Ok(Some(Entered { transform, sizes })),
        None => Ok(None),
    }
}

/// Adds the calls of a plan.
fn add_calls(
    alloc: Global,
    all: &mut Vec<Option<Entered>>,
    prog: &Prog,
    t: &Transform,
    rule: &Rule,
    calls: &[PlanCall],
    s: &Sizes,
) -> Result<(), AllocError>
    requires sizes { All (λ size. size ≤ SIZE_TOP) s.now.of }
    requires program { All IsCallable (bare_prog prog.now) }
    ensures calls { OnOk result (all.new.items ≡ all.old.items ++ map (entered_by (bare_prog prog.now) (bare_transform t.now) (sizes_of s.now) (bare_rule rule.now)) calls.now) }
    ensures can { OnOk result (All (CanBeEntered (bare_prog prog.now)) all.old.items → All (CanBeEntered (bare_prog prog.now)) all.new.items) }
{
    for call in calls {
        all.push(enter(alloc, prog, t, rule, call, s)?)?;
    }
    Ok(())
}

/// Whether some part has the rule with this number.
fn some_has(parts: &[FramePart], k: u32) -> bool
    ensures { result ≡ some_has parts.now k }
{
    parts.iter().any(|part| part.rule == k)
}

/// Adds the calls of a rule, if it is a plan and some part has it.
fn add_rule(
    alloc: Global,
    all: &mut Vec<Option<Entered>>,
    prog: &Prog,
    t: &Transform,
    k: u32,
    rule: &Rule,
    s: &Sizes,
    parts: &[FramePart],
) -> Result<(), AllocError>
    requires sizes { All (λ size. size ≤ SIZE_TOP) s.now.of }
    requires program { All IsCallable (bare_prog prog.now) }
    ensures calls { OnOk result (all.new.items ≡ all.old.items ++ rule_calls (bare_prog prog.now) (bare_transform t.now) (sizes_of s.now) parts.now (k, bare_rule rule.now)) }
    ensures can { OnOk result (All (CanBeEntered (bare_prog prog.now)) all.old.items → All (CanBeEntered (bare_prog prog.now)) all.new.items) }
{
    let RuleKind::Plan = rule.kind else {
        return Ok(());
    };
    if !some_has(parts, k) {
        return Ok(());
    }
    let Some(plan) = &rule.body.plan else {
        return Ok(());
    };
    add_calls(alloc, all, prog, t, rule, &plan.calls, s)
}

/// The calls of all plans that some part has, plan by plan.
pub(crate) fn calls_of(
    alloc: Global,
    prog: &Prog,
    t: &Transform,
    s: &Sizes,
    parts: &[FramePart],
) -> Result<Vec<Option<Entered>>, AllocError>
    requires sizes { All (λ size. size ≤ SIZE_TOP) s.now.of }
    requires program { All IsCallable (bare_prog prog.now) }
    requires few { length t.now.rules ≤ MOST_RULES }
    ensures calls { IfOk result (λ all. all.items ≡ flat_map (rule_calls (bare_prog prog.now) (bare_transform t.now) (sizes_of s.now) parts.now) (enumerate_from 0 (map bare_rule t.now.rules))) }
    ensures can { IfOk result (λ all. All (CanBeEntered (bare_prog prog.now)) all.items) }
{
    let mut all = Vec::new(alloc);
    for k in 0..t.rules.len() as u32 {
        add_rule(alloc, &mut all, prog, t, k, &t.rules[k as usize], s, parts)?;
    }
    Ok(all)
}
