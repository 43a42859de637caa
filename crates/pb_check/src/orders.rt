ghost use Rattle.std.specs.Prelude.{◌≡◌, ◌<◌, ◌≤◌, ◌⊎◌, ◌++◌, IfErr, IfOk, OnOk, Some, length, map, slice_get};
ghost use Rattle.std.specs.List.{All};
ghost use Rattle.pb_syntax.specs.declared.limits.TheConstants.{MOST_RULES};
ghost use Rattle.pb_syntax.specs.declared.refusal.Refusal.TheVariants.{Memory};
ghost use Rattle.pb_program.specs.Trees.{bare_prog, bare_rule, bare_transform};
ghost use Rattle.pb_program.specs.WellFormed.{IsWellFormed};
ghost use Rattle.pb_region.specs.Boxes.{is_wide};
ghost use Rattle.pb_region.specs.Reads.{read_value, reads_of};
ghost use Rattle.pb_check.specs.Cuts.{AreCutInto, AreNodes};
ghost use Rattle.pb_check.specs.Orders.{AreFound, HasNoOrder, IsAnalysis, made_reads, to_refusal, wide_rules};
ghost use Rattle.pb_check.specs.Phases.{IsBounded, IsUnorderable};

use crate::cuts::CutTransform;
use pb_graph::{GraphRefusal, Layering, Node, order};
use pb_linear::ReadBox;
use pb_program::{Prog, Rule, RuleKind, Transform};
use pb_region::read_boxes;
use pb_syntax::{Refusal, Segments};
use std::alloc::Global;
use std::marker::Model;

/// What is found of a transform: its segments, numbered by matrix, then by y, then by x; and the order in which they are made.
#[derive(Drop)]
pub struct Analysis {
    pub(crate) nodes: Vec<Node>,
    pub(crate) order: Layering,
}

impl Model for Analysis {
    ghost use Rattle.pb_check.specs.Orders.{AnalysisValue};

    ghost Value = { AnalysisValue };

    ghost view = { λ a. record { nodes = a.nodes.items; order = a.order } };
}

impl Analysis {
    /// The segments, by matrix, then by y, then by x.
    pub fn nodes(&self) -> &[Node]
        ensures { result.now ≡ self.now.nodes }
    {
        &self.nodes
    }

    /// The order in which they are made.
    pub fn order(&self) -> &Layering
        ensures { result.now ≡ self.now.order }
    {
        &self.order
    }
}

/// Adds what a rule reads of matrices that rules make.
#[tactic(auto, using(crate::proofs::OrderLemmas::reads_added))]
fn add_reads(
    alloc: Global,
    reads: &mut Vec<ReadBox>,
    p: &Prog,
    t: u32,
    transform: &Transform,
    r: u32,
    rule: &Rule,
) -> Result<(), Refusal>
    requires well_formed { IsWellFormed (bare_prog p.now) }
    requires there { slice_get (bare_prog p.now) t ≡ Some (bare_transform transform.now) }
    requires rule { slice_get (bare_transform transform.now).rules r ≡ Some (bare_rule rule.now) }
    ensures found { OnOk result (map read_value reads.new.items ≡ map read_value reads.old.items ++ reads_of (bare_transform transform.now) r (bare_rule rule.now)) }
    ensures refused { IfErr result (λ e. e ≡ Memory) }
{
    let of_rule = read_boxes(alloc, p, t, r)?;
    reads.extend_from_slice(&of_rule)?;
    Ok(())
}

/// What the rules of a transform read of matrices that rules make, rule by rule.
#[tactic(auto, using(pb_region::proofs::RuleLemmas::held_at, crate::proofs::BoundLemmas::few_rules))]
fn made_reads(
    alloc: Global,
    p: &Prog,
    t: u32,
    transform: &Transform,
) -> Result<Vec<ReadBox>, Refusal>
    requires well_formed { IsWellFormed (bare_prog p.now) }
    requires there { slice_get (bare_prog p.now) t ≡ Some (bare_transform transform.now) }
    ensures found { IfOk result (λ rs. map read_value rs.items ≡ made_reads (bare_transform transform.now)) }
    ensures refused { IfErr result (λ e. e ≡ Memory) }
{
    let mut reads = Vec::new(alloc);
    for (r, rule) in transform.rules.iter().enumerate() {
        add_reads(alloc, &mut reads, p, t, transform, r as u32, rule)?;
    }
    Ok(reads)
}

/// Whether a rule isn't for single cells.
fn is_wide(rule: &Rule) -> bool
    ensures { result ≡ is_wide (bare_rule rule.now).kind }
{
    match rule.kind {
        RuleKind::Cell => false,
        RuleKind::Wide => true,
        RuleKind::Plan => true,
    }
}

/// The numbers of the rules that aren't for single cells.
fn wide_rules(alloc: Global, transform: &Transform) -> Result<Vec<u32>, Refusal>
    requires { length transform.now.rules ≤ MOST_RULES }
    ensures found { IfOk result (λ rs. rs.items ≡ wide_rules (bare_transform transform.now)) }
    ensures refused { IfErr result (λ e. e ≡ Memory) }
{
    let mut rules = Vec::new(alloc);
    for (r, rule) in transform.rules.iter().enumerate() {
        if is_wide(rule) {
            rules.push(r as u32)?;
        }
    }
    Ok(rules)
}

/// The refusal of a transform whose segments have no order.
fn refusal_of(refusal: GraphRefusal, t: u32) -> Refusal
    ensures { result ≡ to_refusal t refusal }
{
    match refusal {
        GraphRefusal::NoOrder { segments } => Refusal::NoOrder {
            transform: t,
            segments: Segments { numbers: segments },
        },
        GraphRefusal::Memory => Refusal::Memory,
    }
}

/// The order of the segments of a transform.
#[tactic(auto, using(crate::proofs::OrderLemmas::analysis_is, crate::proofs::OrderLemmas::no_order_is, crate::proofs::BoundLemmas::few_rules))]
fn order_of(
    alloc: Global,
    p: &Prog,
    t: u32,
    transform: &Transform,
    nodes: &[Node],
) -> Result<Layering, Refusal>
    requires well_formed { IsWellFormed (bare_prog p.now) }
    requires there { slice_get (bare_prog p.now) t ≡ Some (bare_transform transform.now) }
    requires bounded { IsBounded (bare_transform transform.now) }
    requires nodes { AreNodes (bare_transform transform.now) nodes.now }
    ensures found { IfOk result (λ l. IsAnalysis (bare_transform transform.now) (record { nodes = nodes.now; order = l })) }
    ensures refused { IfErr result (λ e. (e ≡ Memory) ⊎ HasNoOrder (bare_transform transform.now) t e) }
{
    let reads = made_reads(alloc, p, t, transform)?;
    let wide = wide_rules(alloc, transform)?;
    match order(alloc, nodes, &reads, &wide, &transform.ranges) {
        Ok(layering) => Ok(layering),
        Err(refusal) => Err(refusal_of(refusal, t)),
    }
}

/// The transform with this number.
fn transform_at(p: &Prog, t: usize) -> &Transform
    requires { t < length (bare_prog p.now) }
    ensures { slice_get (bare_prog p.now) t ≡ Some (bare_transform result.now) }
{
    &p.transforms[t]
}

/// The order of the segments of each transform, and the segments.
pub(crate) fn order_all(
    alloc: Global,
    p: &Prog,
    cuts: Vec<CutTransform>,
) -> Result<Vec<Analysis>, Refusal>
    requires well_formed { IsWellFormed (bare_prog p.now) }
    requires bounded { All IsBounded (bare_prog p.now) }
    requires cut { AreCutInto (bare_prog p.now) cuts.items }
    ensures found { IfOk result (λ found. AreFound (bare_prog p.now) found.items) }
    ensures refused { IfErr result (λ e. (e ≡ Memory) ⊎ IsUnorderable (bare_prog p.now) e) }
{
    let mut found = Vec::new(alloc);
    for cut in cuts {
        let t = found.len();
        let order = order_of(alloc, p, t as u32, transform_at(p, t), &cut.nodes)?;
        found.push(Analysis {
            nodes: cut.nodes,
            order,
        })?;
    }
    Ok(found)
}
