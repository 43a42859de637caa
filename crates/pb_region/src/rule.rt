ghost use Rattle.std.specs.Prelude.{◌≡◌, ◌⊎◌, ◌<◌, ◌^◌, IfErr, IfOk, MatchOption, length};
ghost use Rattle.pb_linear.specs.Sizes.{leasts_of};
ghost use Rattle.pb_syntax.specs.declared.refusal.Refusal.TheVariants.{Memory};
ghost use Rattle.pb_program.specs.Trees.{bare_prog, bare_rule, bare_transform};
ghost use Rattle.pb_program.specs.WellFormed.{IsWellFormed};
ghost use Rattle.pb_region.specs.Boxes.{gaps_of};
ghost use Rattle.pb_region.specs.Rules.{AtRule, HasBoxes, HasRule, IsAccepted, IsRefused};
ghost use Rattle.pb_region.specs.Small.{IsSmallRule, IsSmallTransform};

use crate::bounds::first_no_box;
use crate::boxes::{boxes, gaps_of};
use crate::gap::Gap;
use crate::overlap::first_overlap;
use crate::place::{rule_at, transform_at};
use pb_linear::RuleBox;
use pb_program::{Prog, Rule, Transform};
use pb_syntax::Refusal;
use std::alloc::Global;

/// The boxes of rule `r` of transform `t`, one for each of its outputs: where the rule applies, apart from its guards.
/// `NotABox` for its first condition that is no box, then `OverlapOutputs` for its first two outputs that may overlap.
#[tactic(auto, using(crate::proofs::RuleLemmas::at_rule, crate::proofs::RuleLemmas::has_rule, crate::proofs::RuleLemmas::no_transform, crate::proofs::RuleLemmas::no_rule))]
pub fn conditions(alloc: Global, p: &Prog, t: u32, r: u32) -> Result<Vec<RuleBox>, Refusal>
    requires { IsWellFormed (bare_prog p.now) }
    ensures found { IfOk result (λ bs. AtRule (bare_prog p.now) t r (λ transform rule. HasBoxes r transform rule bs.items)) }
    ensures refused { IfErr result (λ e. (e ≡ Memory) ⊎ HasRule (bare_prog p.now) t r (λ transform rule. IsRefused t r transform rule e)) }
{
    let Some(transform) = transform_at(p, t) else {
        return Ok(Vec::new(alloc));
    };
    let Some(rule) = rule_at(transform, r) else {
        return Ok(Vec::new(alloc));
    };
    rule_boxes(alloc, transform, t, rule, r)
}

#[tactic(auto, using(crate::proofs::GapLemmas::few_gaps))]
fn rule_boxes(
    alloc: Global,
    transform: &Transform,
    t: u32,
    rule: &Rule,
    r: u32,
) -> Result<Vec<RuleBox>, Refusal>
    requires transform { IsSmallTransform (bare_transform transform.now) }
    requires rule { IsSmallRule (bare_rule rule.now) }
    ensures found { IfOk result (λ bs. HasBoxes r (bare_transform transform.now) (bare_rule rule.now) bs.items) }
    ensures refused { IfErr result (λ e. (e ≡ Memory) ⊎ IsRefused t r (bare_transform transform.now) (bare_rule rule.now) e) }
{
    let gaps = gaps_of(alloc, &transform.matrices, rule)?;
    match refused(transform, t, rule, r, &gaps) {
        Some(refusal) => Err(refusal),
        None => boxes(
            alloc,
            &transform.ranges,
            &transform.matrices,
            r,
            rule,
            &gaps,
        ),
    }
}

/// What the rule is refused for.
fn refused(transform: &Transform, t: u32, rule: &Rule, r: u32, gaps: &[Gap]) -> Option<Refusal>
    requires transform { IsSmallTransform (bare_transform transform.now) }
    requires rule { IsSmallRule (bare_rule rule.now) }
    requires gaps { gaps.now ≡ gaps_of transform.now.matrices (bare_rule rule.now) }
    requires few { length gaps.now < 2 ^ 32 }
    ensures { MatchOption result (IsAccepted (bare_transform transform.now) (bare_rule rule.now)) (IsRefused t r (bare_transform transform.now) (bare_rule rule.now)) }
{
    if let Some(condition) = first_no_box(gaps) {
        return Some(Refusal::NotABox {
            transform: t,
            rule: r,
            condition: condition as u32,
        });
    }
    let (first, second) = first_overlap(&transform.ranges, &transform.matrices, &rule.outs)?;
    Some(Refusal::OverlapOutputs {
        transform: t,
        rule: r,
        first: first as u32,
        second: second as u32,
    })
}
