ghost use Rattle.std.specs.Prelude.{◌≡◌, ◌<◌, ◌≤◌, ◌++◌, IfOk, OnOk, length, map};
ghost use Rattle.std.specs.List.{All, flat_map};
ghost use Rattle.pb_linear.specs.Sizes.{sizes_of};
ghost use Rattle.pb_program.specs.Trees.{bare_transform};
ghost use Rattle.pb_frame.specs.Frames.{JobValue};
ghost use Rattle.pb_frame.specs.declared.part.FramePart.{FramePart};
ghost use Rattle.pb_views.specs.Windows.{AreLaid};
ghost use Rattle.pb_plan.specs.Boxes.{HasNodes, HasRule, IsBoxed, IsJob, IsReadable, boxes_by, part_boxes, places_of, spot_of, whole_boxes};

use crate::boxes::{add_over, add_whole};
use pb_frame::{FramePart, Job};
use pb_graph::Node;
use pb_linear::{SIZE_TOP, Sizes};
use pb_links::{Places, Spot};
use pb_program::Transform;
use pb_values::View;
use std::alloc::{AllocError, Global};

/// Where a part lies.
fn spot_of(nodes: &[Node], part: &FramePart) -> Spot
    requires { part.now.node < length nodes.now }
    ensures { result ≡ spot_of nodes.now part.now }
{
    let node = &nodes[part.node as usize];
    Spot {
        base: node.matrix,
        rect: part.rect,
    }
}

fn spots_of(alloc: Global, nodes: &[Node], parts: &[FramePart]) -> Result<Vec<Spot>, AllocError>
    requires { HasNodes nodes.now parts.now }
    ensures { IfOk result (λ spots. spots.items ≡ map (spot_of nodes.now) parts.now) }
{
    let mut spots = Vec::new(alloc);
    for part in parts {
        spots.push(spot_of(nodes, part))?;
    }
    Ok(spots)
}

/// Adds the boxes of a part whose cells are made one by one.
fn add_part(
    boxes: &mut Vec<Spot>,
    transform: &Transform,
    views: &[View],
    s: &Sizes,
    part: &FramePart,
) -> Result<(), AllocError>
    requires sizes { All (λ size. size ≤ SIZE_TOP) s.now.of }
    requires laid { AreLaid transform.now.matrices (sizes_of s.now) views.now }
    requires rule { HasRule (bare_transform transform.now) part.now.rule (λ rule. IsBoxed transform.now.matrices (sizes_of s.now) rule.reads part.now.rect) }
    ensures { OnOk result (boxes.new.items ≡ boxes.old.items ++ part_boxes (bare_transform transform.now) (sizes_of s.now) part.now) }
{
    let rule = &transform.rules[part.rule as usize];
    add_over(
        boxes,
        &transform.matrices,
        &rule.reads,
        views,
        s,
        &part.rect,
    )
}

fn part_boxes(
    alloc: Global,
    transform: &Transform,
    views: &[View],
    s: &Sizes,
    parts: &[FramePart],
) -> Result<Vec<Spot>, AllocError>
    requires sizes { All (λ size. size ≤ SIZE_TOP) s.now.of }
    requires laid { AreLaid transform.now.matrices (sizes_of s.now) views.now }
    requires parts { All (λ (part : FramePart). HasRule (bare_transform transform.now) part.rule (λ rule. IsBoxed transform.now.matrices (sizes_of s.now) rule.reads part.rect)) parts.now }
    ensures { IfOk result (λ boxes. boxes.items ≡ flat_map (part_boxes (bare_transform transform.now) (sizes_of s.now)) parts.now) }
{
    let mut boxes = Vec::new(alloc);
    for part in parts {
        add_part(&mut boxes, transform, views, s, part)?;
    }
    Ok(boxes)
}

/// Adds the boxes of the rule with this number, which isn't for single cells.
fn add_rule(
    boxes: &mut Vec<Spot>,
    transform: &Transform,
    views: &[View],
    s: &Sizes,
    k: u32,
) -> Result<(), AllocError>
    requires sizes { All (λ size. size ≤ SIZE_TOP) s.now.of }
    requires laid { AreLaid transform.now.matrices (sizes_of s.now) views.now }
    requires rule { HasRule (bare_transform transform.now) k (λ rule. IsReadable transform.now.matrices (sizes_of s.now) rule.reads 0 0) }
    ensures { OnOk result (boxes.new.items ≡ boxes.old.items ++ whole_boxes (bare_transform transform.now) (sizes_of s.now) k) }
{
    let rule = &transform.rules[k as usize];
    add_whole(boxes, &transform.matrices, &rule.reads, views, s)
}

fn whole_boxes(
    alloc: Global,
    transform: &Transform,
    views: &[View],
    s: &Sizes,
    k: u32,
) -> Result<Vec<Spot>, AllocError>
    requires sizes { All (λ size. size ≤ SIZE_TOP) s.now.of }
    requires laid { AreLaid transform.now.matrices (sizes_of s.now) views.now }
    requires rule { HasRule (bare_transform transform.now) k (λ rule. IsReadable transform.now.matrices (sizes_of s.now) rule.reads 0 0) }
    ensures { IfOk result (λ boxes. boxes.items ≡ whole_boxes (bare_transform transform.now) (sizes_of s.now) k) }
{
    let mut boxes = Vec::new(alloc);
    add_rule(&mut boxes, transform, views, s, k)?;
    Ok(boxes)
}

fn boxes_of(
    alloc: Global,
    transform: &Transform,
    views: &[View],
    s: &Sizes,
    job: &Job,
) -> Result<Vec<Spot>, AllocError>
    requires sizes { All (λ size. size ≤ SIZE_TOP) s.now.of }
    requires laid { AreLaid transform.now.matrices (sizes_of s.now) views.now }
    requires job { IsJob (bare_transform transform.now) (sizes_of s.now) job.now.rule job.now.parts }
    ensures { IfOk result (λ boxes. boxes.items ≡ boxes_by (bare_transform transform.now) (sizes_of s.now) job.now.rule job.now.parts) }
{
    match job.rule {
        Some(k) => whole_boxes(alloc, transform, views, s, k),
        None => part_boxes(alloc, transform, views, s, &job.parts),
    }
}

/// What a job makes and reads.
pub fn job_places(
    alloc: Global,
    transform: &Transform,
    nodes: &[Node],
    views: &[View],
    s: &Sizes,
    job: &Job,
) -> Result<Places, AllocError>
    requires sizes { All (λ size. size ≤ SIZE_TOP) s.now.of }
    requires laid { AreLaid transform.now.matrices (sizes_of s.now) views.now }
    requires job { IsJob (bare_transform transform.now) (sizes_of s.now) job.now.rule job.now.parts }
    requires nodes { HasNodes nodes.now job.now.parts }
    ensures { IfOk result (λ places. places ≡ places_of (bare_transform transform.now) nodes.now (sizes_of s.now) job.now) }
{
    Ok(Places {
        parts: spots_of(alloc, nodes, &job.parts)?,
        boxes: boxes_of(alloc, transform, views, s, job)?,
    })
}

/// What each job of an instance makes and reads, where its matrices are these views.
pub fn places(
    alloc: Global,
    transform: &Transform,
    nodes: &[Node],
    views: &[View],
    s: &Sizes,
    jobs: &[Job],
) -> Result<Vec<Places>, AllocError>
    requires sizes { All (λ size. size ≤ SIZE_TOP) s.now.of }
    requires laid { AreLaid transform.now.matrices (sizes_of s.now) views.now }
    requires jobs { All (λ (job : JobValue). IsJob (bare_transform transform.now) (sizes_of s.now) job.rule job.parts) jobs.now }
    requires nodes { All (λ (job : JobValue). HasNodes nodes.now job.parts) jobs.now }
    ensures { IfOk result (λ found. found.items ≡ map (places_of (bare_transform transform.now) nodes.now (sizes_of s.now)) jobs.now) }
{
    let mut found = Vec::new(alloc);
    for job in jobs {
        found.push(job_places(alloc, transform, nodes, views, s, job)?)?;
    }
    Ok(found)
}
