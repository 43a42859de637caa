ghost use Rattle.std.specs.Prelude.{◌≡◌, ◌+◌, IfOk, map};
ghost use Rattle.std.specs.List.{All};
ghost use Rattle.pb_views.specs.Seats.{spot_at};
ghost use Rattle.pb_steps.specs.Handed.{from_corner};
ghost use Rattle.pb_run_graph.specs.Ready.{HasSeat, IsAmong, part_spot, seated, source_spot};

use pb_frame::FramePart;
use pb_graph::Node;
use pb_links::Spot;
use pb_steps::Copied;
use pb_values::Rect;
use pb_views::Seat;
use std::alloc::{AllocError, Global};

/// A sum of places, which stays far below the greatest number.
fn sum(a: u64, b: u64) -> Result<u64, AllocError>
    ensures { IfOk result (λ n. n ≡ a + b) }
{
    match a.checked_add(b) {
        Some(n) => Ok(n),
        None => Err(AllocError),
    }
}

/// A rectangle of what is seated so, in the matrix of the run.
fn spot_at(seat: &Seat, rect: &Rect) -> Result<Spot, AllocError>
    ensures { IfOk result (λ spot. spot ≡ spot_at seat.now rect.now) }
{
    let corner = &seat.rect;
    let placed = if seat.turned {
        Rect {
            x0: sum(corner.x0, rect.y0)?,
            y0: sum(corner.y0, rect.x0)?,
            x1: sum(corner.x0, rect.y1)?,
            y1: sum(corner.y0, rect.x1)?,
        }
    } else {
        Rect {
            x0: sum(corner.x0, rect.x0)?,
            y0: sum(corner.y0, rect.y0)?,
            x1: sum(corner.x0, rect.x1)?,
            y1: sum(corner.y0, rect.y1)?,
        }
    };
    Ok(Spot {
        base: seat.base,
        rect: placed,
    })
}

/// Rectangles of an instance's matrices, in the run.
pub(crate) fn through(
    alloc: Global,
    seats: &[Seat],
    spots: &[Spot],
) -> Result<Vec<Spot>, AllocError>
    requires { All (IsAmong seats.now) spots.now }
    ensures { IfOk result (λ found. found.items ≡ map (seated seats.now) spots.now) }
{
    let mut found = Vec::new(alloc);
    for spot in spots {
        found.push(spot_at(&seats[spot.base as usize], &spot.rect)?)?;
    }
    Ok(found)
}

/// Where a part of an instance's matrix lies in the run.
fn part_spot(nodes: &[Node], seats: &[Seat], part: &FramePart) -> Result<Spot, AllocError>
    requires { HasSeat nodes.now seats.now part.now }
    ensures { IfOk result (λ spot. spot ≡ part_spot nodes.now seats.now part.now) }
{
    let node = &nodes[part.node as usize];
    spot_at(&seats[node.matrix as usize], &part.rect)
}

/// Where parts lie in the run.
pub(crate) fn part_spots(
    alloc: Global,
    nodes: &[Node],
    seats: &[Seat],
    parts: &[FramePart],
) -> Result<Vec<Spot>, AllocError>
    requires { All (HasSeat nodes.now seats.now) parts.now }
    ensures { IfOk result (λ found. found.items ≡ map (part_spot nodes.now seats.now) parts.now) }
{
    let mut found = Vec::new(alloc);
    for part in parts {
        found.push(part_spot(nodes, seats, part)?)?;
    }
    Ok(found)
}

/// A rectangle of an output, in the matrix that a plan made for it.
fn from_corner(corner: (u64, u64), r: &Rect) -> Rect
    ensures { result ≡ from_corner corner r.now }
{
    Rect {
        x0: r.x0.saturating_sub(corner.0),
        y0: r.y0.saturating_sub(corner.1),
        x1: r.x1.saturating_sub(corner.0),
        y1: r.y1.saturating_sub(corner.1),
    }
}

/// Where what is copied stands in the run, part by part.
pub(crate) fn source_spots(alloc: Global, copied: &Copied) -> Result<Vec<Spot>, AllocError>
    ensures { IfOk result (λ found. found.items ≡ map (source_spot copied.now) copied.now.parts) }
{
    let mut found = Vec::new(alloc);
    for part in &copied.parts {
        let rect = from_corner(copied.corner, &part.rect);
        found.push(spot_at(&copied.source, &rect)?)?;
    }
    Ok(found)
}
