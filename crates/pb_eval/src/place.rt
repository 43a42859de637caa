ghost use Rattle.std.specs.Prelude.{◌≡◌, IfNone, IfSome, None, Some, map, slice_get};
ghost use Rattle.pb_program.specs.Stmts.{bare_stmt};
ghost use Rattle.pb_program.specs.Trees.{bare_prog, bare_rule, bare_transform};

use pb_program::{Decl, Prog, Read, Rule, Stmt, Transform};

/// The transform with this number.
#[tactic(auto, using(crate::proofs::HeldLemmas::held_at, crate::proofs::HeldLemmas::held_past))]
pub(crate) fn transform_at(p: &Prog, t: u32) -> Option<&Transform>
    ensures found { IfSome result (λ x. slice_get (bare_prog p.now) t ≡ Some (bare_transform x.now)) }
    ensures none { IfNone result (slice_get (bare_prog p.now) t ≡ None) }
{
    p.transforms.get(t as usize)
}

/// The rule with this number.
#[tactic(auto, using(crate::proofs::HeldLemmas::held_at, crate::proofs::HeldLemmas::held_past))]
pub(crate) fn rule_at(transform: &Transform, r: u32) -> Option<&Rule>
    ensures found { IfSome result (λ x. slice_get (bare_transform transform.now).rules r ≡ Some (bare_rule x.now)) }
    ensures none { IfNone result (slice_get (bare_transform transform.now).rules r ≡ None) }
{
    transform.rules.get(r as usize)
}

/// The outputs of a rule.
pub(crate) fn outs_of_rule(rule: &Rule) -> &[Read]
    ensures { result.now ≡ (bare_rule rule.now).outs }
{
    rule.outs.as_slice()
}

/// The statements of a rule.
pub(crate) fn body_of_rule(rule: &Rule) -> &[Stmt]
    ensures { map bare_stmt result.now ≡ (bare_rule rule.now).body }
{
    rule.body.stmts.as_slice()
}

/// The matrices of a transform.
pub(crate) fn matrices_of(transform: &Transform) -> &[Decl]
    ensures { result.now ≡ (bare_transform transform.now).matrices }
{
    transform.matrices.as_slice()
}
