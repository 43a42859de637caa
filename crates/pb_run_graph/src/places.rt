ghost use Rattle.std.specs.Prelude.{◌≡◌, IfOk, [], Some, map, slice_get};
ghost use Rattle.std.specs.List.{All, AllZip};
ghost use Rattle.pb_linear.specs.Sizes.{sizes_of};
ghost use Rattle.pb_program.specs.Trees.{bare_prog, bare_transform};
ghost use Rattle.pb_frame.specs.Frames.{JobValue};
ghost use Rattle.pb_plan.specs.Boxes.{places_of as job_places};
ghost use Rattle.pb_links.specs.declared.places.Spot.{Spot};
ghost use Rattle.pb_views.specs.Windows.{AreLaid};
ghost use Rattle.pb_views.specs.declared.seat.Seat.{Seat};
ghost use Rattle.pb_steps.specs.Handed.{Instance as RunInstance, Step as RunStep, by_job, places_of};
ghost use Rattle.pb_steps.specs.Stands.{IsInstance};
ghost use Rattle.pb_run_graph.specs.Ready.{AreStanding, CanMake, CanPlace, CanPlaceJob, CanPlaceParts, HasSeat, IsMadeFor, copied_places, seated_places};

use crate::instances::{nodes_at, transform_at};
use crate::spots::{part_spots, source_spots, through};
use pb_check::Accepted;
use pb_frame::Job;
use pb_graph::Node;
use pb_linear::Sizes;
use pb_links::{Places, Spot};
use pb_plan::job_places;
use pb_program::{Decl, Transform};
use pb_steps::{Copied, Failed, Instance, Step, Unrolled, views_of};
use pb_values::View;
use pb_views::Seat;
use std::alloc::{AllocError, Global};

/// The matrices of an instance as views of cells.
#[tactic(auto, using(crate::proofs::MadeLemmas::as_many))]
fn views_for(
    alloc: Global,
    decls: &[Decl],
    seats: &[Seat],
    s: &Sizes,
) -> Result<Vec<View>, AllocError>
    requires { AreStanding decls.now seats.now (sizes_of s.now) }
    ensures { IfOk result (λ views. AreLaid decls.now (sizes_of s.now) views.items) }
{
    views_of(alloc, decls, seats)
}

/// What a job of an instance makes and reads.
fn job_step(
    alloc: Global,
    transform: &Transform,
    nodes: &[Node],
    seats: &[Seat],
    s: &Sizes,
    job: &Job,
) -> Result<Places, AllocError>
    requires { CanPlace (bare_transform transform.now) nodes.now seats.now s.now job.now }
    ensures { IfOk result (λ places. places ≡ seated_places seats.now (job_places (bare_transform transform.now) nodes.now (sizes_of s.now) job.now)) }
{
    let views = views_for(alloc, &transform.matrices, seats, s)?;
    let places = job_places(alloc, transform, nodes, &views, s, job)?;
    Ok(Places {
        parts: through(alloc, seats, &places.parts)?,
        boxes: through(alloc, seats, &places.boxes)?,
    })
}

/// What the job of an instance with this number makes and reads.
fn job_in(alloc: Global, a: &Accepted, here: &Instance, job: u32) -> Result<Places, AllocError>
    requires { CanPlaceJob (bare_prog a.now.program) a.now.found here.now job }
    ensures { IfOk result (λ places. (i : RunInstance) (j : JobValue) → IsInstance (bare_prog a.now.program) a.now.found here.now i → slice_get here.now.jobs job ≡ Some j → places ≡ places_of (by_job i j)) }
{
    let transform = transform_at(a, here.transform);
    let nodes = nodes_at(a, here.transform);
    job_step(
        alloc,
        transform,
        nodes,
        &here.seats,
        &here.sizes,
        &here.jobs[job as usize],
    )
}

/// What a copy makes and reads.
fn copy_step(
    alloc: Global,
    nodes: &[Node],
    seats: &[Seat],
    copied: &Copied,
) -> Result<Places, AllocError>
    requires { All (HasSeat nodes.now seats.now) copied.now.parts }
    ensures { IfOk result (λ places. places ≡ copied_places nodes.now seats.now copied.now) }
{
    Ok(Places {
        parts: part_spots(alloc, nodes, seats, &copied.parts)?,
        boxes: source_spots(alloc, copied)?,
    })
}

/// What a copy for an instance makes and reads.
fn copy_in(
    alloc: Global,
    a: &Accepted,
    here: &Instance,
    copied: &Copied,
) -> Result<Places, AllocError>
    requires { CanPlaceParts (bare_prog a.now.program) a.now.found here.now copied.now.parts }
    ensures { IfOk result (λ places. (i : RunInstance) → IsInstance (bare_prog a.now.program) a.now.found here.now i → places ≡ copied_places i.found.nodes i.seats copied.now) }
{
    let nodes = nodes_at(a, here.transform);
    copy_step(alloc, nodes, &here.seats, copied)
}

/// What a call that can't be made makes.
fn trap_step(alloc: Global, failed: &Failed) -> Result<Places, AllocError>
    ensures { IfOk result (λ places. places ≡ record { parts = map (λ (s : Seat). record { base = s.base; rect = s.rect }) failed.now.seats; boxes = [] }) }
{
    let mut parts = Vec::new(alloc);
    for seat in &failed.seats {
        parts.push(Spot {
            base: seat.base,
            rect: seat.rect,
        })?;
    }
    Ok(Places {
        parts,
        boxes: Vec::new(alloc),
    })
}

/// What a step makes and reads, as rectangles of the matrices of the run.
fn step_places(
    alloc: Global,
    a: &Accepted,
    instances: &[Instance],
    step: &Step,
) -> Result<Places, AllocError>
    requires { CanMake (bare_prog a.now.program) a.now.found instances.now step.now }
    ensures { IfOk result (λ places. IsMadeFor (bare_prog a.now.program) a.now.found instances.now (λ s q. q ≡ places_of s) step.now places) }
{
    match step {
        Step::Job { instance, job } => job_in(alloc, a, &instances[*instance as usize], *job),
        Step::Copy(copied) => { copy_in(alloc, a, &instances[copied.instance as usize], copied) }
        Step::Trap(failed) => trap_step(alloc, failed),
    }
}

/// What each step of a run makes and reads.
pub(crate) fn all_places(
    alloc: Global,
    a: &Accepted,
    run: &Unrolled,
) -> Result<Vec<Places>, AllocError>
    requires { All (CanMake (bare_prog a.now.program) a.now.found run.now.instances) run.now.steps }
    ensures { IfOk result (λ found. AllZip (IsMadeFor (bare_prog a.now.program) a.now.found run.now.instances (λ s q. q ≡ places_of s)) run.now.steps found.items) }
{
    let mut found = Vec::new(alloc);
    for step in &run.steps {
        found.push(step_places(alloc, a, &run.instances, step)?)?;
    }
    Ok(found)
}
