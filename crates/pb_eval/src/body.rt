ghost use Rattle.std.specs.Prelude.{◌≡◌, ◌≤◌, ◌<◌, ◌^◌};
ghost use Rattle.std.specs.List.{All};
ghost use Rattle.pb_linear.specs.Sizes.{sizes_of};
ghost use Rattle.pb_program.specs.Trees.{bare_prog, bare_rule, bare_transform};
ghost use Rattle.pb_model.specs.Equations.{rule_gives, trap_place};
ghost use Rattle.pb_eval.specs.CanRun.{AreReads, at_variables, IsRunnable, locals_needed, OfRule, outs_needed};
ghost use Rattle.pb_eval.specs.Running.{Gives};
ghost use Rattle.pb_statements.specs.Stored.{locals_of, outs_of};
ghost use Rattle.pb_statements.specs.Shown.{seen_by};

use crate::place::{body_of_rule, matrices_of, outs_of_rule, rule_at, transform_at};
use crate::run::{Fault, run};
use pb_linear::{SIZE_TOP, Sizes};
use pb_program::{Prog, Rule, RuleKind, Transform};
use pb_statements::{NamesTurn, Scratch, Sides, lowest};
use pb_values::{CellReader, Trap, View};
use std::marker::Brand;

/// Where a trap of a computing rule stands, as a width and a height: at the cell of a rule for single cells, else at the lowest
/// corner of its first output.
fn trap_place(rule: &Rule, transform: &Transform, s: &Sizes, x: u64, y: u64) -> Sides
    requires sizes { All (λ size. size ≤ SIZE_TOP) s.now.of }
    requires runnable { IsRunnable (bare_transform transform.now).matrices (bare_rule rule.now) }
    ensures x { result.width ≡ (trap_place (bare_transform transform.now).matrices (sizes_of s.now) (at_variables x y) (bare_rule rule.now).kind (bare_rule rule.now).outs).0 }
    ensures y { result.height ≡ (trap_place (bare_transform transform.now).matrices (sizes_of s.now) (at_variables x y) (bare_rule rule.now).kind (bare_rule rule.now).outs).1 }
{
    match rule.kind {
        RuleKind::Cell => Sides {
            width: x,
            height: y,
        },
        RuleKind::Wide | RuleKind::Plan => match outs_of_rule(rule) {
            [] => Sides {
                width: 0,
                height: 0,
            },
            [first, ..] => lowest(first, s),
        },
    }
}

/// Runs a rule, and says where its trap stands.
fn run_rule<C: CellReader, N: NamesTurn>(
    transform: &Transform,
    rule: &Rule,
    t: u32,
    r: u32,
    s: &Sizes,
    x: u64,
    y: u64,
    views: &[View],
    port: &mut C,
    scratch: &mut Scratch,
) -> Result<u64, Trap>
    requires turn { C.turn port.old ≡ N.turn }
    requires sizes { All (λ size. size ≤ SIZE_TOP) s.now.of }
    requires x { x < 2 ^ 63 }
    requires y { y < 2 ^ 63 }
    requires runnable { IsRunnable (bare_transform transform.now).matrices (bare_rule rule.now) }
    requires reads { AreReads (bare_transform transform.now).matrices (sizes_of s.now) (at_variables x y) (bare_rule rule.now) views.now N.turn }
    requires locals { locals_needed (bare_rule rule.now) ≤ locals_of scratch.old }
    requires numbers { outs_needed (bare_transform transform.now).matrices (sizes_of s.now) (at_variables x y) (bare_rule rule.now) ≤ outs_of scratch.old }
    ensures found { Gives (rule_gives (bare_transform transform.now).matrices (sizes_of s.now) (at_variables x y) t r (bare_rule rule.now) (seen_by N.turn views.now)) result scratch.new }
    ensures locals { locals_of scratch.new ≡ locals_of scratch.old }
    ensures numbers { outs_of scratch.new ≡ outs_of scratch.old }
    ensures stays { C.turn port.new ≡ C.turn port.old }
{
    let outs = outs_of_rule(rule);
    let body = body_of_rule(rule);
    let matrices = matrices_of(transform);
    match run::<C, N>(outs, body, matrices, s, x, y, views, port, scratch) {
        Ok(n) => Ok(n),
        Err(Fault::Told(trap)) => Err(trap),
        Err(Fault::Body(kind)) => {
            let place = trap_place(rule, transform, s, x, y);
            Err(Trap {
                kind,
                transform: t,
                rule: r,
                x: place.width,
                y: place.height,
            })
        }
    }
}

/// Runs a computing rule of a well-formed program over its reads: `Ok` with the number of its outputs' numbers, which stand in
/// the scratch, or the trap. Sizes are at most `SIZE_TOP`, the rule variables below 2^63; there is one view for each read, and
/// the reader tells each of its cells; the scratch has room for the rule's locals and outputs.
pub fn run_body<C: CellReader>(
    p: &Prog,
    t: u32,
    r: u32,
    s: &Sizes,
    x: u64,
    y: u64,
    views: &[View],
    port: &mut C,
    scratch: &mut Scratch,
) -> Result<u64, Trap>
    requires sizes { All (λ size. size ≤ SIZE_TOP) s.now.of }
    requires x { x < 2 ^ 63 }
    requires y { y < 2 ^ 63 }
    requires runnable { OfRule (bare_prog p.now) t r (λ transform rule. IsRunnable transform.matrices rule) }
    requires reads { OfRule (bare_prog p.now) t r (λ transform rule. AreReads transform.matrices (sizes_of s.now) (at_variables x y) rule views.now (C.turn port.old)) }
    requires locals { OfRule (bare_prog p.now) t r (λ transform rule. locals_needed rule ≤ locals_of scratch.old) }
    requires numbers { OfRule (bare_prog p.now) t r (λ transform rule. outs_needed transform.matrices (sizes_of s.now) (at_variables x y) rule ≤ outs_of scratch.old) }
    ensures found { OfRule (bare_prog p.now) t r (λ transform rule.
        Gives (rule_gives transform.matrices (sizes_of s.now) (at_variables x y) t r rule (seen_by (C.turn port.old) views.now)) result scratch.new) }
    ensures locals { locals_of scratch.new ≡ locals_of scratch.old }
    ensures numbers { outs_of scratch.new ≡ outs_of scratch.old }
    ensures stays { C.turn port.new ≡ C.turn port.old }
{
    let Some(transform) = transform_at(p, t) else {
        return Ok(0);
    };
    let Some(rule) = rule_at(transform, r) else {
        return Ok(0);
    };
    run_rule::<C, Brand>(transform, rule, t, r, s, x, y, views, port, scratch)
}
