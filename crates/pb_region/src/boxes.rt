ghost use Rattle.std.specs.Prelude.{◌≡◌, ◌∷◌, [], ℕ, IfErr, IfOk, map};
ghost use Rattle.std.specs.List.{All};
ghost use Rattle.pb_linear.specs.Form.{numbers};
ghost use Rattle.pb_linear.specs.Sizes.{IsRanges, leasts_of};
ghost use Rattle.pb_syntax.specs.declared.refusal.Refusal.TheVariants.{Memory};
ghost use Rattle.pb_program.specs.Trees.{bare_rule};
ghost use Rattle.pb_region.specs.Boxes.{box, box_of, boxes, gaps_of, is_wide, limits_of};
ghost use Rattle.pb_region.specs.Ends.{ends_of};
ghost use Rattle.pb_region.specs.Small.{IsSmallDecl, IsSmallRead, IsSmallRule};

use crate::bounds::{Axis, Side, bounds, is_guarded};
use crate::ends::{Ends, ends_of};
use crate::gap::{Gap, conds_gaps, views_gaps};
use pb_linear::{Form, Ranges, RuleBox};
use pb_program::{Decl, Read, Rule, RuleKind};
use pb_syntax::Refusal;
use std::alloc::Global;
use std::marker::Model;

/// The conditions of a rule with their terms collected.
pub(crate) fn gaps_of(alloc: Global, matrices: &[Decl], rule: &Rule) -> Result<Vec<Gap>, Refusal>
    requires matrices { All IsSmallDecl matrices.now }
    requires rule { IsSmallRule (bare_rule rule.now) }
    ensures found { IfOk result (λ gs. gs.items ≡ gaps_of matrices.now (bare_rule rule.now)) }
    ensures refused { IfErr result (λ e. e ≡ Memory) }
{
    let mut gaps = Vec::new(alloc);
    views_gaps(&mut gaps, matrices, &rule.outs)?;
    views_gaps(&mut gaps, matrices, &rule.reads)?;
    conds_gaps(&mut gaps, &rule.conds)?;
    Ok(gaps)
}

/// The bounds of x and y.
#[derive(Drop)]
struct Limits {
    lower_x: Vec<Form>,
    upper_x: Vec<Form>,
    lower_y: Vec<Form>,
    upper_y: Vec<Form>,
}

impl Model for Limits {
    ghost use Rattle.std.specs.Prelude.{map};
    ghost use Rattle.pb_linear.specs.Form.{numbers};
    ghost use Rattle.pb_region.specs.Boxes.{Limits};

    ghost Value = { Limits };

    ghost view = { λ l. record {
      lower_x = map numbers l.lower_x.items;
      upper_x = map numbers l.upper_x.items;
      lower_y = map numbers l.lower_y.items;
      upper_y = map numbers l.upper_y.items;
    } };
}

fn one(alloc: Global, bound: Form) -> Result<Vec<Form>, Refusal>
    ensures found { IfOk result (λ bs. map numbers bs.items ≡ numbers bound ∷ []) }
    ensures refused { IfErr result (λ e. e ≡ Memory) }
{
    let mut bounds = Vec::new(alloc);
    bounds.push(bound)?;
    Ok(bounds)
}

fn limits_of(alloc: Global, kind: RuleKind, gaps: &[Gap], ends: &Ends) -> Result<Limits, Refusal>
    ensures found { IfOk result (λ l. l ≡ limits_of kind gaps.now ends.now) }
    ensures refused { IfErr result (λ e. e ≡ Memory) }
{
    match kind {
        RuleKind::Cell => Ok(Limits {
            lower_x: bounds(alloc, Side::Lower, Axis::X, gaps)?,
            upper_x: bounds(alloc, Side::Upper, Axis::X, gaps)?,
            lower_y: bounds(alloc, Side::Lower, Axis::Y, gaps)?,
            upper_y: bounds(alloc, Side::Upper, Axis::Y, gaps)?,
        }),
        RuleKind::Wide | RuleKind::Plan => Ok(Limits {
            lower_x: one(alloc, ends.x.low.rest)?,
            upper_x: one(alloc, ends.x.high.rest)?,
            lower_y: one(alloc, ends.y.low.rest)?,
            upper_y: one(alloc, ends.y.high.rest)?,
        }),
    }
}

pub(crate) fn is_wide(kind: RuleKind) -> bool
    ensures { result ≡ is_wide kind }
{
    !matches!(kind, RuleKind::Cell)
}

/// The box of an output of the rule with this number.
fn rule_box(
    alloc: Global,
    number: u32,
    rule: &Rule,
    guarded: bool,
    gaps: &[Gap],
    ends: &Ends,
) -> Result<RuleBox, Refusal>
    ensures found { IfOk result (λ b. box_of b ≡ record {
      rule = number;
      priority = rule.now.priority;
      guarded = guarded;
      wide = is_wide rule.now.kind;
      limits = limits_of rule.now.kind gaps.now ends.now;
    }) }
    ensures refused { IfErr result (λ e. e ≡ Memory) }
{
    let limits = limits_of(alloc, rule.kind, gaps, ends)?;
    Ok(RuleBox {
        rule: number,
        priority: rule.priority,
        guarded,
        wide: is_wide(rule.kind),
        lower_x: limits.lower_x,
        upper_x: limits.upper_x,
        lower_y: limits.lower_y,
        upper_y: limits.upper_y,
    })
}

/// The boxes of a rule, one for each output.
#[tactic(auto, using(crate::proofs::GapLemmas::map_more))]
pub(crate) fn boxes(
    alloc: Global,
    ranges: &Ranges,
    matrices: &[Decl],
    number: u32,
    rule: &Rule,
    gaps: &[Gap],
) -> Result<Vec<RuleBox>, Refusal>
    requires ranges { IsRanges ranges.now }
    requires matrices { All IsSmallDecl matrices.now }
    requires outs { All IsSmallRead rule.now.outs }
    requires gaps { gaps.now ≡ gaps_of matrices.now (bare_rule rule.now) }
    ensures found { IfOk result (λ bs. map box_of bs.items ≡ boxes (leasts_of ranges.now) matrices.now number (bare_rule rule.now)) }
    ensures refused { IfErr result (λ e. e ≡ Memory) }
{
    let guarded = is_guarded(ranges, gaps);
    let mut boxes = Vec::new(alloc);
    for out in &rule.outs {
        boxes.push(rule_box(alloc, number, rule, guarded, gaps, &ends_of(matrices, out))?)?;
    }
    Ok(boxes)
}
