ghost use Rattle.std.specs.Prelude.{◌≡◌, ◌+◌, ◌-◌, IfOk, map};
ghost use Rattle.std.specs.List.{All, AllZip};
ghost use Rattle.pb_values.specs.Views.{Shows};
ghost use Rattle.pb_program.specs.Trees.{bare_prog};
ghost use Rattle.pb_views.specs.Seats.{IsSmall, LiesWithin, cell_at};
ghost use Rattle.pb_views.specs.declared.seat.Seat.{Seat};
ghost use Rattle.pb_taskgraph.specs.declared.task.Part.{Part};
ghost use Rattle.pb_steps.specs.Handed.{Instance as RunInstance};
ghost use Rattle.pb_run_plan.specs.RunTasks.{IsPartOf, piece_of, pieces_of, trapped_piece};
ghost use Rattle.pb_steps.specs.Stands.{IsInstance};
ghost use Rattle.pb_run_graph.specs.Ready.{CanMake, CanPlaceParts, IsMadeFor, IsPartIn, IsSeatedPart, IsTarget, failed_of};

use crate::instances::{nodes_at, transform_at};
use pb_check::Accepted;
use pb_frame::FramePart;
use pb_graph::Node;
use pb_program::Decl;
use pb_steps::{Failed, Instance, Step};
use pb_taskgraph::Part;
use pb_values::{Name, Rect, View};
use pb_views::Seat;
use std::alloc::{AllocError, Global};

fn copy_of(alloc: Global, name: &Name) -> Result<Name, AllocError>
    ensures { IfOk result (λ copy. copy ≡ name.now) }
{
    Ok(Name::new(name.bytes().to_vec(alloc)?, name.at()))
}

/// The cells of a rectangle of what is seated so.
fn view_of(seat: &Seat, dims: u8, rect: &Rect) -> View
    requires small { IsSmall seat.now }
    requires lies { LiesWithin seat.now rect.now }
    ensures { Shows result (record { dims = dims; w = rect.now.x1 - rect.now.x0; h = rect.now.y1 - rect.now.y0 }) (λ x y. cell_at seat.now (rect.now.x0 + x) (rect.now.y0 + y)) }
{
    seat.view(dims).region(rect)
}

/// A rectangle of what is seated so, with the name of the matrix.
fn part_of(
    alloc: Global,
    name: &Name,
    dims: u8,
    seat: &Seat,
    rect: &Rect,
) -> Result<Part, AllocError>
    requires small { IsSmall seat.now }
    requires lies { LiesWithin seat.now rect.now }
    ensures { IfOk result (IsPartOf (record { name = name.now; dims = dims; rect = rect.now; seat = seat.now })) }
{
    Ok(Part {
        name: copy_of(alloc, name)?,
        rect: *rect,
        view: view_of(seat, dims, rect),
    })
}

/// A part of a matrix of an instance.
fn part_in(
    alloc: Global,
    decls: &[Decl],
    nodes: &[Node],
    seats: &[Seat],
    part: &FramePart,
) -> Result<Part, AllocError>
    requires { IsSeatedPart decls.now nodes.now seats.now part.now }
    ensures { IfOk result (IsPartIn decls.now nodes.now seats.now part.now) }
{
    let node = &nodes[part.node as usize];
    let decl = &decls[node.matrix as usize];
    let seat = &seats[node.matrix as usize];
    part_of(alloc, &decl.name, decl.dims, seat, &part.rect)
}

/// Parts of matrices of an instance.
fn parts_in(
    alloc: Global,
    decls: &[Decl],
    nodes: &[Node],
    seats: &[Seat],
    parts: &[FramePart],
) -> Result<Vec<Part>, AllocError>
    requires { All (IsSeatedPart decls.now nodes.now seats.now) parts.now }
    ensures { IfOk result (λ found. AllZip (IsPartIn decls.now nodes.now seats.now) parts.now found.items) }
{
    let mut found = Vec::new(alloc);
    for part in parts {
        found.push(part_in(alloc, decls, nodes, seats, part)?)?;
    }
    Ok(found)
}

/// The matrix of a target of a call that can't be made.
fn trapped_part(alloc: Global, failed: &Failed, seat: &Seat) -> Result<Part, AllocError>
    requires { IsTarget failed.now seat.now }
    ensures { IfOk result (IsPartOf (trapped_piece (failed_of failed.now) seat.now)) }
{
    let target = &failed.targets[(seat.base - failed.first) as usize];
    let whole = Rect {
        x0: 0,
        y0: 0,
        x1: seat.across(),
        y1: seat.down(),
    };
    part_of(alloc, &target.name, target.dims, seat, &whole)
}

/// The matrices of the targets of a call that can't be made.
fn trapped_parts(alloc: Global, failed: &Failed) -> Result<Vec<Part>, AllocError>
    requires { All (IsTarget failed.now) failed.now.seats }
    ensures { IfOk result (λ found. AllZip (λ (s : Seat) (part : Part). IsPartOf (trapped_piece (failed_of failed.now) s) part) failed.now.seats found.items) }
{
    let mut found = Vec::new(alloc);
    for seat in &failed.seats {
        found.push(trapped_part(alloc, failed, seat)?)?;
    }
    Ok(found)
}

/// Parts of matrices of an instance, whose transform has a number.
fn parts_of(
    alloc: Global,
    a: &Accepted,
    here: &Instance,
    parts: &[FramePart],
) -> Result<Vec<Part>, AllocError>
    requires { CanPlaceParts (bare_prog a.now.program) a.now.found here.now parts.now }
    ensures { IfOk result (λ found. (i : RunInstance) → IsInstance (bare_prog a.now.program) a.now.found here.now i → AllZip IsPartOf (map (piece_of i) parts.now) found.items) }
{
    let transform = transform_at(a, here.transform);
    let nodes = nodes_at(a, here.transform);
    parts_in(alloc, &transform.matrices, nodes, &here.seats, parts)
}

/// The parts of the task of a step.
pub(crate) fn step_parts(
    alloc: Global,
    a: &Accepted,
    instances: &[Instance],
    step: &Step,
) -> Result<Vec<Part>, AllocError>
    requires { CanMake (bare_prog a.now.program) a.now.found instances.now step.now }
    ensures { IfOk result (λ found. IsMadeFor (bare_prog a.now.program) a.now.found instances.now (λ s parts. AllZip IsPartOf (pieces_of s) parts) step.now found.items) }
{
    match step {
        Step::Job { instance, job } => {
            let here = &instances[*instance as usize];
            let job = &here.jobs[*job as usize];
            parts_of(alloc, a, here, &job.parts)
        }
        Step::Copy(copied) => parts_of(
            alloc,
            a,
            &instances[copied.instance as usize],
            &copied.parts,
        ),
        Step::Trap(failed) => trapped_parts(alloc, failed),
    }
}
