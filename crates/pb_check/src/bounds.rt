ghost use Rattle.std.specs.Prelude.{◌≡◌, ◌⊎◌, IfErr, OnOk, Some, slice_get};
ghost use Rattle.std.specs.List.{All};
ghost use Rattle.pb_syntax.specs.declared.refusal.Refusal.TheVariants.{Memory};
ghost use Rattle.pb_program.specs.Trees.{bare_prog, bare_transform};
ghost use Rattle.pb_program.specs.WellFormed.{IsWellFormed};
ghost use Rattle.pb_region.specs.Rules.{AtRule, HasRule, IsAccepted, IsRefused};
ghost use Rattle.pb_check.specs.Phases.{FailsBounds, FailsRule, IsBounded, IsUnbounded};

use pb_program::{Prog, Transform};
use pb_region::{check_dims, conditions};
use pb_syntax::Refusal;
use std::alloc::Global;

/// Whether a rule has boxes.
fn rule_bounds(alloc: Global, p: &Prog, t: u32, r: u32) -> Result<(), Refusal>
    requires { IsWellFormed (bare_prog p.now) }
    ensures found { OnOk result (AtRule (bare_prog p.now) t r IsAccepted) }
    ensures refused { IfErr result (λ e. (e ≡ Memory) ⊎ HasRule (bare_prog p.now) t r (λ transform rule. IsRefused t r transform rule e)) }
{
    let _boxes = conditions(alloc, p, t, r)?;
    Ok(())
}

/// Whether each rule of a transform has boxes.
#[tactic(auto, using(crate::proofs::BoundLemmas::next_rule, crate::proofs::BoundLemmas::rule_fails, crate::proofs::BoundLemmas::few_rules))]
fn rules_bounds(alloc: Global, p: &Prog, t: u32, transform: &Transform) -> Result<(), Refusal>
    requires well_formed { IsWellFormed (bare_prog p.now) }
    requires there { slice_get (bare_prog p.now) t ≡ Some (bare_transform transform.now) }
    ensures found { OnOk result (All (IsAccepted (bare_transform transform.now)) (bare_transform transform.now).rules) }
    ensures refused { IfErr result (λ e. (e ≡ Memory) ⊎ FailsRule t (bare_transform transform.now) e) }
{
    for r in 0..transform.rules.len() {
        rule_bounds(alloc, p, t, r as u32)?;
    }
    Ok(())
}

/// Whether no side of a transform is negative, and each of its rules has boxes.
#[tactic(auto, using(crate::proofs::BoundLemmas::at_transform))]
fn transform_bounds(alloc: Global, p: &Prog, t: u32, transform: &Transform) -> Result<(), Refusal>
    requires well_formed { IsWellFormed (bare_prog p.now) }
    requires there { slice_get (bare_prog p.now) t ≡ Some (bare_transform transform.now) }
    ensures found { OnOk result (IsBounded (bare_transform transform.now)) }
    ensures refused { IfErr result (λ e. (e ≡ Memory) ⊎ FailsBounds t (bare_transform transform.now) e) }
{
    check_dims(p, t)?;
    rules_bounds(alloc, p, t, transform)
}

/// The same of each transform, in order.
#[tactic(auto, using(crate::proofs::BoundLemmas::few_transforms, pb_region::proofs::RuleLemmas::held_at))]
pub(crate) fn bounds(alloc: Global, p: &Prog) -> Result<(), Refusal>
    requires { IsWellFormed (bare_prog p.now) }
    ensures found { OnOk result (All IsBounded (bare_prog p.now)) }
    ensures refused { IfErr result (λ e. (e ≡ Memory) ⊎ IsUnbounded (bare_prog p.now) e) }
{
    for (t, transform) in p.transforms.iter().enumerate() {
        transform_bounds(alloc, p, t as u32, transform)?;
    }
    Ok(())
}
