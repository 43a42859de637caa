ghost use Rattle.std.specs.Prelude.{◌≡◌, ◌<◌, ◌≤◌, ◌==◌, IfOk, Some, length, slice_get, sum_by};
ghost use Rattle.std.specs.List.{All, enumerate_from, list_any};
ghost use Rattle.pb_linear.specs.Sizes.{sizes_of};
ghost use Rattle.pb_syntax.specs.declared.limits.TheConstants.{MOST_RULES};
ghost use Rattle.pb_program.specs.Trees.{ProgRule, bare_rule, bare_transform};
ghost use Rattle.pb_region.specs.Boxes.{is_wide};
ghost use Rattle.pb_frame.specs.declared.part.FramePart.{FramePart};
ghost use Rattle.pb_instance_cost.specs.Parts.{CanShowPart, CanShowParts, CanShowWides, is_wide_of, part_shown, parts_shown, wide_shown};

use crate::views::{plus, rule_cost};
use pb_frame::FramePart;
use pb_linear::{SIZE_TOP, Sizes};
use pb_program::{Rule, RuleKind, Transform};
use pb_values::Rect;
use std::alloc::AllocError;

/// The one place where rule variables are 0.
const AT_START: Rect = Rect {
    x0: 0,
    y0: 0,
    x1: 1,
    y1: 1,
};

/// Whether a rule isn't for single cells.
fn is_wide(rule: &Rule) -> bool
    ensures { result ≡ is_wide (bare_rule rule.now).kind }
{
    match rule.kind {
        RuleKind::Cell => false,
        RuleKind::Wide => true,
        RuleKind::Plan => true,
    }
}

fn has_rule(parts: &[FramePart], k: u32) -> bool
    ensures { result ≡ list_any (λ (part : FramePart). part.rule == k) parts.now }
{
    parts.iter().any(|part| part.rule == k)
}

/// What a rule for single cells costs over a part; any other rule costs nothing there.
fn part_cost(part: &FramePart, transform: &Transform, s: &Sizes) -> Result<u64, AllocError>
    requires sizes { All (λ size. size ≤ SIZE_TOP) s.now.of }
    requires can { CanShowPart (bare_transform transform.now) (sizes_of s.now) part.now }
    ensures { IfOk result (λ n. n ≡ part_shown (bare_transform transform.now) (sizes_of s.now) part.now) }
{
    let rule = &transform.rules[part.rule as usize];
    if is_wide(rule) {
        return Ok(0);
    }
    rule_cost(rule, &transform.matrices, s, &part.rect)
}

fn parts_cost(parts: &[FramePart], transform: &Transform, s: &Sizes) -> Result<u64, AllocError>
    requires sizes { All (λ size. size ≤ SIZE_TOP) s.now.of }
    requires can { All (CanShowPart (bare_transform transform.now) (sizes_of s.now)) parts.now }
    ensures { IfOk result (λ n. n ≡ sum_by (part_shown (bare_transform transform.now) (sizes_of s.now)) parts.now) }
{
    let mut cost = 0u64;
    for part in parts {
        cost = plus(cost, part_cost(part, transform, s)?)?;
    }
    Ok(cost)
}

/// Whether a rule, which has this number, isn't for single cells and is the rule of some part.
fn is_wide_of(rule: &Rule, parts: &[FramePart], k: u32) -> bool
    ensures { result ≡ is_wide_of parts.now (k, bare_rule rule.now) }
{
    is_wide(rule) && has_rule(parts, k)
}

/// What the rule with this number costs once, if it isn't for single cells and some part has it.
fn wide_cost(
    k: u32,
    parts: &[FramePart],
    transform: &Transform,
    s: &Sizes,
) -> Result<u64, AllocError>
    requires sizes { All (λ size. size ≤ SIZE_TOP) s.now.of }
    requires there { k < length transform.now.rules }
    requires can { CanShowWides (bare_transform transform.now) (sizes_of s.now) parts.now }
    ensures { IfOk result (λ n. (r : ProgRule) → slice_get (bare_transform transform.now).rules k ≡ Some r → n ≡ wide_shown (bare_transform transform.now) (sizes_of s.now) parts.now (k, r)) }
{
    let rule = &transform.rules[k as usize];
    if is_wide_of(rule, parts, k) {
        rule_cost(rule, &transform.matrices, s, &AT_START)
    } else {
        Ok(0)
    }
}

fn wides_cost(parts: &[FramePart], transform: &Transform, s: &Sizes) -> Result<u64, AllocError>
    requires sizes { All (λ size. size ≤ SIZE_TOP) s.now.of }
    requires few { length transform.now.rules ≤ MOST_RULES }
    requires can { CanShowWides (bare_transform transform.now) (sizes_of s.now) parts.now }
    ensures { IfOk result (λ n. n ≡ sum_by (wide_shown (bare_transform transform.now) (sizes_of s.now) parts.now) (enumerate_from 0 (bare_transform transform.now).rules)) }
{
    let mut cost = 0u64;
    for k in 0..transform.rules.len() as u32 {
        cost = plus(cost, wide_cost(k, parts, transform, s)?)?;
    }
    Ok(cost)
}

/// What parts cost, those whose rules are rules for single cells cell by cell, any other rule once.
pub(crate) fn cost_of(
    parts: &[FramePart],
    transform: &Transform,
    s: &Sizes,
) -> Result<u64, AllocError>
    requires { CanShowParts (bare_transform transform.now) s.now parts.now }
    ensures { IfOk result (λ n. n ≡ parts_shown (bare_transform transform.now) (sizes_of s.now) parts.now) }
{
    plus(
        parts_cost(parts, transform, s)?,
        wides_cost(parts, transform, s)?,
    )
}
