ghost use Rattle.std.specs.Prelude.{◌≡◌, ◌⊎◌, [], map, IfOk, IfErr, OnOk};
ghost use Rattle.std.specs.List.{flat_map};
ghost use Rattle.pb_syntax.specs.declared.refusal.Refusal.TheVariants.{Memory};
ghost use Rattle.pb_program.specs.Trees.{bare_prog, bare_rule, bare_transform};
ghost use Rattle.pb_types.specs.Least.{least_of};
ghost use Rattle.pb_types.specs.Types.{body_broken, broken, IsRefused};
ghost use Rattle.pb_types.specs.Working.{rule_in, transform_in};

use crate::least::least;
use crate::loops::Loops;
use crate::plan::plan;
use crate::views::{Bound, views};
use pb_program::{Decl, Prog, Rule, RuleKind, Transform};
use pb_syntax::Refusal;
use std::alloc::Global;

/// Whether the types of a program are right: `BadType` with the least place, a byte of its text, at which they aren't.
#[tactic(auto, using(crate::proofs::LeastLemmas::least_is_none, crate::proofs::LeastLemmas::least_is_some))]
pub fn check_types(alloc: Global, p: &Prog) -> Result<(), Refusal>
    ensures found { OnOk result (broken (bare_prog p.now) ≡ []) }
    ensures refused { IfErr result (λ e. (e ≡ Memory) ⊎ IsRefused (bare_prog p.now) e) }
{
    match transforms(alloc, &p.transforms)? {
        Some(at) => Err(Refusal::BadType { at }),
        None => Ok(()),
    }
}

#[tactic(auto, using(crate::proofs::LeastLemmas::least_next, crate::proofs::LeastLemmas::least_end, crate::proofs::RuleLemmas::transforms_listed))]
fn transforms(alloc: Global, transforms: &[Transform]) -> Result<Option<u32>, Refusal>
    ensures found { IfOk result (λ at. at ≡ least_of (broken (map bare_transform transforms.now))) }
    ensures refused { IfErr result (λ e. e ≡ Memory) }
{
    let mut found = None;
    for next in transforms {
        found = least(found, transform(alloc, transforms, next)?);
    }
    Ok(found)
}

#[tactic(auto, using(crate::proofs::RuleLemmas::rules_listed))]
fn transform(alloc: Global, transforms: &[Transform], t: &Transform) -> Result<Option<u32>, Refusal>
    ensures found { IfOk result (λ at. at ≡ least_of (transform_in (map bare_transform transforms.now) t.now)) }
    ensures refused { IfErr result (λ e. e ≡ Memory) }
{
    rules(alloc, transforms, &t.matrices, &t.rules)
}

#[tactic(auto, using(crate::proofs::LeastLemmas::least_next, crate::proofs::LeastLemmas::least_end))]
fn rules(
    alloc: Global,
    transforms: &[Transform],
    matrices: &[Decl],
    rules: &[Rule],
) -> Result<Option<u32>, Refusal>
    ensures found { IfOk result (λ at. at ≡ least_of (flat_map (rule_in (map bare_transform transforms.now) matrices.now) rules.now)) }
    ensures refused { IfErr result (λ e. e ≡ Memory) }
{
    let mut found = None;
    for next in rules {
        found = least(found, rule(alloc, transforms, matrices, next)?);
    }
    Ok(found)
}

#[tactic(auto, using(crate::proofs::LeastLemmas::least_append), unfolding(crate::specs::Working::rule_in))]
fn rule(
    alloc: Global,
    transforms: &[Transform],
    matrices: &[Decl],
    r: &Rule,
) -> Result<Option<u32>, Refusal>
    ensures found { IfOk result (λ at. at ≡ least_of (rule_in (map bare_transform transforms.now) matrices.now r.now)) }
    ensures refused { IfErr result (λ e. e ≡ Memory) }
{
    let written = least(views(matrices, &r.outs), views(matrices, &r.reads));
    let body = body(alloc, transforms, r)?;
    Ok(least(written, body))
}

#[tactic(auto, unfolding(crate::specs::Working::stmts_in))]
fn body(alloc: Global, transforms: &[Transform], r: &Rule) -> Result<Option<u32>, Refusal>
    ensures found { IfOk result (λ at. at ≡ least_of (body_broken (map bare_transform transforms.now) r.now.kind (bare_rule r.now))) }
    ensures refused { IfErr result (λ e. e ≡ Memory) }
{
    match r.kind {
        RuleKind::Plan => plan(alloc, transforms, r),
        RuleKind::Cell | RuleKind::Wide => {
            let bound = Bound {
                outs: &r.outs,
                reads: &r.reads,
            };
            Ok(bound.statements(&r.body.stmts, &Loops::Outside))
        }
    }
}
