ghost use Rattle.std.specs.Prelude.{◌≡◌, ◌∷◌, [], ◌++◌, if◌then◌else◌, IfOk, OnOk, map};
ghost use Rattle.std.specs.List.{All};
ghost use Rattle.pb_program.specs.Trees.{bare_prog, bare_rule, bare_transform};
ghost use Rattle.pb_program.specs.WellFormed.{IsWellFormed};
ghost use Rattle.pb_region.specs.Boxes.{is_wide};
ghost use Rattle.pb_region.specs.Reads.{is_made, read_of, read_value, reads_of};
ghost use Rattle.pb_region.specs.Rules.{AtRule};
ghost use Rattle.pb_region.specs.Small.{IsSmallDecl, IsSmallRead, IsSmallRule, IsSmallTransform};

use crate::boxes::is_wide;
use crate::ends::ends_of;
use crate::place::{rule_at, transform_at};
use pb_linear::ReadBox;
use pb_program::{Decl, Prog, Read, Rule, Transform};
use std::alloc::{AllocError, Global};

/// The cells that rule `r` of transform `t` reads of `through` and `to` matrices, in the order of its reads.
#[tactic(auto, using(crate::proofs::RuleLemmas::at_rule, crate::proofs::RuleLemmas::no_transform, crate::proofs::RuleLemmas::no_rule))]
pub fn read_boxes(alloc: Global, p: &Prog, t: u32, r: u32) -> Result<Vec<ReadBox>, AllocError>
    requires { IsWellFormed (bare_prog p.now) }
    ensures { IfOk result (λ bs. AtRule (bare_prog p.now) t r (λ transform rule. map read_value bs.items ≡ reads_of transform r rule)) }
{
    let Some(transform) = transform_at(p, t) else {
        return Ok(Vec::new(alloc));
    };
    let Some(rule) = rule_at(transform, r) else {
        return Ok(Vec::new(alloc));
    };
    rule_reads(alloc, transform, rule, r)
}

#[tactic(auto, using(crate::proofs::ReadLemmas::reads_more), unfolding(crate::specs::Reads::reads_of))]
fn rule_reads(
    alloc: Global,
    transform: &Transform,
    rule: &Rule,
    r: u32,
) -> Result<Vec<ReadBox>, AllocError>
    requires transform { IsSmallTransform (bare_transform transform.now) }
    requires rule { IsSmallRule (bare_rule rule.now) }
    ensures { IfOk result (λ bs. map read_value bs.items ≡ reads_of (bare_transform transform.now) r (bare_rule rule.now)) }
{
    let wide = is_wide(rule.kind);
    let mut boxes = Vec::new(alloc);
    for read in &rule.reads {
        push_read(&mut boxes, transform, r, wide, read)?;
    }
    Ok(boxes)
}

fn push_read(
    boxes: &mut Vec<ReadBox>,
    transform: &Transform,
    rule: u32,
    wide: bool,
    read: &Read,
) -> Result<(), AllocError>
    requires matrices { All IsSmallDecl transform.now.matrices }
    requires read { IsSmallRead read.now }
    ensures { OnOk result (map read_value boxes.new.items ≡ map read_value boxes.old.items ++ (if is_made transform.now.inputs read.now then read_of transform.now.matrices rule wide read.now ∷ [] else [])) }
{
    if transform.inputs <= read.matrix {
        boxes.push(read_box(&transform.matrices, rule, wide, read))?;
    }
    Ok(())
}

fn read_box(matrices: &[Decl], rule: u32, wide: bool, read: &Read) -> ReadBox
    requires matrices { All IsSmallDecl matrices.now }
    requires read { IsSmallRead read.now }
    ensures { read_value result ≡ read_of matrices.now rule wide read.now }
{
    let ends = ends_of(matrices, read);
    ReadBox {
        rule,
        wide,
        matrix: read.matrix,
        x0: ends.x.low,
        x1: ends.x.high,
        y0: ends.y.low,
        y1: ends.y.high,
    }
}
