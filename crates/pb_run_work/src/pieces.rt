ghost use Rattle.std.specs.Prelude.{◌≡◌, ◌<◌, IfOk, Some, length, map, slice_get};
ghost use Rattle.std.specs.List.{All, AllZip};
ghost use Rattle.pb_check.specs.Orders.{AnalysisValue};
ghost use Rattle.pb_frame.specs.declared.part.FramePart.{FramePart};
ghost use Rattle.pb_plan.specs.Boxes.{HasNodes, spot_of};
ghost use Rattle.pb_run_work.specs.Holding.{CanBeCut};
ghost use Rattle.pb_run_work.specs.Running.{AreJobPieces, ArePieces, HasRoomForStep};

use crate::drawn::Pieces;
use pb_check::Accepted;
use pb_frame::{FramePart, Job};
use pb_graph::Node;
use pb_jobs::{Job as Made, Rooms, job_rooms};
use pb_links::Spot;
use pb_steps::{Instance, Step};
use std::alloc::{AllocError, Global};

/// The segments of the transform with this number.
fn nodes_at(a: &Accepted, t: u32) -> &[Node]
    requires { t < length a.now.found }
    ensures { (x : AnalysisValue) → slice_get a.now.found t ≡ Some x → result.now ≡ x.nodes }
{
    a.analyses()[t as usize].nodes()
}

/// Where a part lies.
fn spot_of(nodes: &[Node], part: &FramePart) -> Spot
    requires { part.now.node < length nodes.now }
    ensures { result ≡ spot_of nodes.now part.now }
{
    let node = &nodes[part.node as usize];
    Spot {
        base: node.matrix,
        rect: part.rect,
    }
}

/// Where parts lie in the matrices of their instance.
fn spots_of(alloc: Global, nodes: &[Node], parts: &[FramePart]) -> Result<Vec<Spot>, AllocError>
    requires { HasNodes nodes.now parts.now }
    ensures { IfOk result (λ spots. spots.items ≡ map (spot_of nodes.now) parts.now) }
{
    let mut spots = Vec::new(alloc);
    for part in parts {
        spots.push(spot_of(nodes, part))?;
    }
    Ok(spots)
}

/// The rules of parts.
fn rules_of(alloc: Global, parts: &[FramePart]) -> Result<Vec<u32>, AllocError>
    ensures { IfOk result (λ rules. rules.items ≡ map (λ (part : FramePart). part.rule) parts.now) }
{
    let mut rules = Vec::new(alloc);
    for part in parts {
        rules.push(part.rule)?;
    }
    Ok(rules)
}

/// The rectangles of a job.
fn job_pieces(alloc: Global, nodes: &[Node], job: &Job) -> Result<Pieces, AllocError>
    requires { HasNodes nodes.now job.now.parts }
    ensures { IfOk result (AreJobPieces nodes.now job.now) }
{
    Ok(Pieces {
        parts: spots_of(alloc, nodes, &job.parts)?,
        rules: rules_of(alloc, &job.parts)?,
    })
}

/// The rectangles of a step in the matrices of its instance.
fn step_pieces(
    alloc: Global,
    a: &Accepted,
    instances: &[Instance],
    step: &Step,
) -> Result<Pieces, AllocError>
    requires { CanBeCut a.now instances.now step.now }
    ensures { IfOk result (ArePieces a.now instances.now step.now) }
{
    match step {
        Step::Job { instance, job } => {
            let here = &instances[*instance as usize];
            job_pieces(
                alloc,
                nodes_at(a, here.transform),
                &here.jobs[*job as usize],
            )
        }
        Step::Copy(copied) => {
            let here = &instances[copied.instance as usize];
            Ok(Pieces {
                parts: spots_of(alloc, nodes_at(a, here.transform), &copied.parts)?,
                rules: Vec::new(alloc),
            })
        }
        Step::Trap(_) => Ok(Pieces {
            parts: Vec::new(alloc),
            rules: Vec::new(alloc),
        }),
    }
}

/// The room that a step needs.
fn step_rooms(a: &Accepted, instances: &[Instance], step: &Step, pieces: &Pieces) -> Rooms
    requires can { CanBeCut a.now instances.now step.now }
    requires pieces { ArePieces a.now instances.now step.now pieces.now }
    ensures { HasRoomForStep a.now instances.now result step.now }
{
    match step {
        Step::Job { instance, job } => {
            let here = &instances[*instance as usize];
            let made = Made {
                parts: &pieces.parts,
                rule: here.jobs[*job as usize].rule,
                rules: &pieces.rules,
                steps: &[],
            };
            job_rooms(a.prog(), here.transform, &here.sizes, &made)
        }
        Step::Copy(copied) => Rooms {
            locals: 0,
            outs: 0,
            pieces: copied.parts.len(),
        },
        Step::Trap(_) => Rooms::none(),
    }
}

/// The rectangles of each step, and the most room that any needs.
pub(crate) fn all_pieces(
    alloc: Global,
    a: &Accepted,
    instances: &[Instance],
    steps: &[Step],
) -> Result<(Vec<Pieces>, Rooms), AllocError>
    requires { All (CanBeCut a.now instances.now) steps.now }
    ensures pieces { IfOk result (λ r. AllZip (ArePieces a.now instances.now) steps.now r.0.items) }
    ensures rooms { IfOk result (λ r. All (HasRoomForStep a.now instances.now r.1) steps.now) }
{
    let mut all = Vec::new(alloc);
    let mut rooms = Rooms::none();
    for step in steps {
        let pieces = step_pieces(alloc, a, instances, step)?;
        rooms = rooms.greater(step_rooms(a, instances, step, &pieces));
        all.push(pieces)?;
    }
    Ok((all, rooms))
}
