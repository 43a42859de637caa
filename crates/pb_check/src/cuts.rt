ghost use Rattle.std.specs.Prelude.{◌≡◌, ◌+◌, ◌-◌, ◌++◌, ◌<◌, ◌≤◌, ◌⊎◌, IfErr, IfOk, OnOk, Some, filter, length, map, slice_get};
ghost use Rattle.std.specs.List.{All, list_any};
ghost use Rattle.pb_grid.specs.declared.refusal.GridRefusal.TheVariants as grid;
ghost use Rattle.pb_grid.specs.Cuts.{IsSmallBox};
ghost use Rattle.pb_grid.specs.Segments.{SegmentValue};
ghost use Rattle.pb_linear.specs.Sizes.{leasts_of};
ghost use Rattle.pb_syntax.specs.declared.refusal.Refusal.TheVariants.{Memory};
ghost use Rattle.pb_program.specs.Configs.{writes};
ghost use Rattle.pb_program.specs.Trees.{bare_prog, bare_rule, bare_transform};
ghost use Rattle.pb_program.specs.WellFormed.{IsWellFormed};
ghost use Rattle.pb_region.specs.Boxes.{box_of, boxes};
ghost use Rattle.pb_check.specs.Cuts.{AreCutInto, AreNodes, boxes_on, FailsCut, IsCut, IsUncut, kept, node, rule_boxes, to_refusal};
ghost use Rattle.pb_check.specs.Phases.{IsBounded, IsUncuttable};

use pb_graph::Node;
use pb_grid::{GridRefusal, Segment, grid};
use pb_linear::RuleBox;
use pb_program::{Decl, Prog, Read, Rule, Transform};
use pb_region::conditions;
use pb_syntax::Refusal;
use std::alloc::Global;
use std::marker::Model;

/// Whether the rule has an output on the matrix.
fn writes(rule: &Rule, matrix: u32) -> bool
    ensures { result ≡ writes matrix (bare_rule rule.now) }
{
    rule.outs.iter().any(|out| out.matrix == matrix)
}

/// The boxes of a rule that has boxes, one for each output.
fn boxes_of(
    alloc: Global,
    p: &Prog,
    t: u32,
    transform: &Transform,
    r: u32,
    rule: &Rule,
) -> Result<Vec<RuleBox>, Refusal>
    requires well_formed { IsWellFormed (bare_prog p.now) }
    requires there { slice_get (bare_prog p.now) t ≡ Some (bare_transform transform.now) }
    requires rule { slice_get (bare_transform transform.now).rules r ≡ Some (bare_rule rule.now) }
    requires bounded { IsBounded (bare_transform transform.now) }
    ensures found { IfOk result (λ bs. map box_of bs.items ≡ boxes (leasts_of transform.now.ranges) transform.now.matrices r (bare_rule rule.now)) }
    ensures small { IfOk result (λ bs. All IsSmallBox bs.items) }
    ensures refused { IfErr result (λ e. e ≡ Memory) }
{
    conditions(alloc, p, t, r)
}

/// Adds the boxes of the outputs on a matrix.
fn keep_on(
    boxes: &mut Vec<RuleBox>,
    of_rule: Vec<RuleBox>,
    outs: &[Read],
    matrix: u32,
) -> Result<(), Refusal>
    requires { length of_rule.items ≡ length outs.now }
    ensures found { OnOk result (boxes.new.items ≡ boxes.old.items ++ kept matrix outs.now of_rule.items) }
    ensures refused { IfErr result (λ e. e ≡ Memory) }
{
    for (out, of_out) in outs.iter().zip(of_rule) {
        if out.matrix == matrix {
            boxes.push(of_out)?;
        }
    }
    Ok(())
}

/// Adds the boxes of a rule's outputs on a matrix.
#[tactic(auto, using(crate::proofs::CutLemmas::kept_are, crate::proofs::CutLemmas::kept_all, crate::proofs::CutLemmas::no_boxes))]
fn add_rule(
    alloc: Global,
    boxes: &mut Vec<RuleBox>,
    p: &Prog,
    t: u32,
    transform: &Transform,
    r: u32,
    rule: &Rule,
    matrix: u32,
) -> Result<(), Refusal>
    requires well_formed { IsWellFormed (bare_prog p.now) }
    requires there { slice_get (bare_prog p.now) t ≡ Some (bare_transform transform.now) }
    requires rule { slice_get (bare_transform transform.now).rules r ≡ Some (bare_rule rule.now) }
    requires bounded { IsBounded (bare_transform transform.now) }
    requires small { All IsSmallBox boxes.old.items }
    ensures found { OnOk result (map box_of boxes.new.items ≡ map box_of boxes.old.items ++ rule_boxes (bare_transform transform.now) matrix (r, bare_rule rule.now)) }
    ensures small { OnOk result (All IsSmallBox boxes.new.items) }
    ensures refused { IfErr result (λ e. e ≡ Memory) }
{
    if !writes(rule, matrix) {
        return Ok(());
    }
    let of_rule = boxes_of(alloc, p, t, transform, r, rule)?;
    keep_on(boxes, of_rule, &rule.outs, matrix)
}

/// The boxes of all outputs on a matrix, in the order of the rules and of their outputs.
#[tactic(auto, using(crate::proofs::CutLemmas::more_boxes, pb_region::proofs::RuleLemmas::held_at, crate::proofs::BoundLemmas::few_rules))]
fn boxes_on(
    alloc: Global,
    p: &Prog,
    t: u32,
    transform: &Transform,
    matrix: u32,
) -> Result<Vec<RuleBox>, Refusal>
    requires well_formed { IsWellFormed (bare_prog p.now) }
    requires there { slice_get (bare_prog p.now) t ≡ Some (bare_transform transform.now) }
    requires bounded { IsBounded (bare_transform transform.now) }
    ensures found { IfOk result (λ bs. map box_of bs.items ≡ boxes_on (bare_transform transform.now) matrix) }
    ensures small { IfOk result (λ bs. All IsSmallBox bs.items) }
    ensures refused { IfErr result (λ e. e ≡ Memory) }
{
    let mut boxes = Vec::new(alloc);
    for (r, rule) in transform.rules.iter().enumerate() {
        add_rule(alloc, &mut boxes, p, t, transform, r as u32, rule, matrix)?;
    }
    Ok(boxes)
}

/// The refusal of a matrix that can't be cut.
fn refusal_of(refusal: GridRefusal, t: u32, matrix: u32) -> Refusal
    ensures { result ≡ to_refusal t matrix refusal }
{
    match refusal {
        GridRefusal::Crossing {
            axis,
            first,
            second,
            over,
            under,
        } => Refusal::Crossing {
            transform: t,
            matrix,
            axis,
            first,
            second,
            over,
            under,
        },
        GridRefusal::TooManySegments => Refusal::TooManySegments {
            transform: t,
            matrix,
        },
        GridRefusal::Uncovered { area } => Refusal::Uncovered {
            transform: t,
            matrix,
            area,
        },
        GridRefusal::Memory => Refusal::Memory,
    }
}

/// The segments of a matrix that rules make.
#[tactic(auto, using(crate::proofs::CutLemmas::cut_is, crate::proofs::CutLemmas::uncut_is, crate::proofs::CutLemmas::small_width, crate::proofs::CutLemmas::small_height, crate::proofs::CutLemmas::ranges_fit))]
fn cut(
    alloc: Global,
    p: &Prog,
    t: u32,
    transform: &Transform,
    matrix: u32,
    decl: &Decl,
) -> Result<Vec<Segment>, Refusal>
    requires well_formed { IsWellFormed (bare_prog p.now) }
    requires there { slice_get (bare_prog p.now) t ≡ Some (bare_transform transform.now) }
    requires decl { slice_get transform.now.matrices matrix ≡ Some decl.now }
    requires bounded { IsBounded (bare_transform transform.now) }
    ensures found { IfOk result (λ ss. IsCut (bare_transform transform.now) matrix ss.items) }
    ensures refused { IfErr result (λ e. (e ≡ Memory) ⊎ IsUncut (bare_transform transform.now) t matrix e) }
{
    let boxes = boxes_on(alloc, p, t, transform, matrix)?;
    match grid(alloc, &boxes, &decl.w, &decl.h, &transform.ranges) {
        Ok(segments) => Ok(segments),
        Err(refusal) => Err(refusal_of(refusal, t, matrix)),
    }
}

/// Adds the segments of a matrix.
fn add_nodes(nodes: &mut Vec<Node>, matrix: u32, segments: Vec<Segment>) -> Result<(), Refusal>
    ensures found { OnOk result (nodes.new.items ≡ nodes.old.items ++ map (node matrix) segments.items) }
    ensures refused { IfErr result (λ e. e ≡ Memory) }
{
    for segment in segments {
        nodes.push(Node {
            matrix,
            area: segment.area,
            rules: segment.rules,
        })?;
    }
    Ok(())
}

/// How many matrices of a transform rules make.
fn count_made(transform: &Transform) -> usize
    requires { transform.now.inputs ≤ length transform.now.matrices }
    ensures { result ≡ length transform.now.matrices - transform.now.inputs }
{
    transform.matrices.len() - transform.inputs as usize
}

/// The number of the matrix at a place among those that rules make.
fn made_number(transform: &Transform, k: usize) -> u32
    requires few { length transform.now.matrices ≤ 16 }
    requires inside { k < length transform.now.matrices - transform.now.inputs }
    ensures number { result ≡ transform.now.inputs + k }
    ensures inside { result < length transform.now.matrices }
{
    transform.inputs + k as u32
}

/// The matrix with this number.
fn matrix_at(transform: &Transform, matrix: u32) -> &Decl
    requires { matrix < length transform.now.matrices }
    ensures { slice_get transform.now.matrices matrix ≡ Some result.now }
{
    &transform.matrices[matrix as usize]
}

/// The segments of a transform, numbered by matrix, then by y, then by x.
#[derive(Drop)]
pub(crate) struct CutTransform {
    pub(crate) nodes: Vec<Node>,
}

impl Model for CutTransform {
    ghost use Rattle.pb_check.specs.Cuts.{CutValue};

    ghost Value = { CutValue };

    ghost view = { λ c. record { nodes = c.nodes.items } };
}

/// The segments of all matrices of a transform that rules make, one matrix after the other.
#[tactic(auto, using(crate::proofs::CutLemmas::next_nodes, crate::proofs::CutLemmas::all_nodes, crate::proofs::CutLemmas::fails_at, crate::proofs::CutLemmas::parts_fit, crate::proofs::CutLemmas::few_matrices))]
pub(crate) fn transform_nodes(
    alloc: Global,
    p: &Prog,
    t: u32,
    transform: &Transform,
) -> Result<Vec<Node>, Refusal>
    requires well_formed { IsWellFormed (bare_prog p.now) }
    requires there { slice_get (bare_prog p.now) t ≡ Some (bare_transform transform.now) }
    requires bounded { IsBounded (bare_transform transform.now) }
    ensures found { IfOk result (λ ns. AreNodes (bare_transform transform.now) ns.items) }
    ensures refused { IfErr result (λ e. (e ≡ Memory) ⊎ FailsCut (bare_transform transform.now) t e) }
{
    let mut nodes = Vec::new(alloc);
    for k in 0..count_made(transform) {
        let matrix = made_number(transform, k);
        let segments = cut(alloc, p, t, transform, matrix, matrix_at(transform, matrix))?;
        add_nodes(&mut nodes, matrix, segments)?;
    }
    Ok(nodes)
}

/// The segments of each transform.
#[tactic(auto, using(crate::proofs::BoundLemmas::few_transforms, pb_region::proofs::RuleLemmas::held_at))]
pub(crate) fn cut_all(alloc: Global, p: &Prog) -> Result<Vec<CutTransform>, Refusal>
    requires well_formed { IsWellFormed (bare_prog p.now) }
    requires bounded { All IsBounded (bare_prog p.now) }
    ensures found { IfOk result (λ cuts. AreCutInto (bare_prog p.now) cuts.items) }
    ensures refused { IfErr result (λ e. (e ≡ Memory) ⊎ IsUncuttable (bare_prog p.now) e) }
{
    let mut cuts = Vec::new(alloc);
    for (t, transform) in p.transforms.iter().enumerate() {
        let nodes = transform_nodes(alloc, p, t as u32, transform)?;
        cuts.push(CutTransform { nodes })?;
    }
    Ok(cuts)
}
