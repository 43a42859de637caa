ghost use Rattle.std.specs.Prelude.{◌≡◌, ◌<◌, ◌≤◌, IfOk, length, map, slice_index_or};
ghost use Rattle.std.specs.List.{All};
ghost use Rattle.pb_linear.specs.Sizes.{sizes_of};
ghost use Rattle.pb_recursion.specs.Shapes.{sides_of_decl};
ghost use Rattle.pb_plan.specs.Boxes.{whole_box};
ghost use Rattle.pb_views.specs.Seats.{IsSmall, LiesWithin, no_seat, part_seat, sides_of_seat};
ghost use Rattle.pb_steps.specs.Stands.{AreViewsOf, IsShowing, shown_seat};

use crate::instance::Instance;
use pb_counts::sides_of_decl;
use pb_linear::{SIZE_TOP, Sizes};
use pb_links::Spot;
use pb_plan::view_boxes;
use pb_program::{Decl, Read, Transform};
use pb_values::View;
use pb_views::Seat;
use std::alloc::{AllocError, Global};

/// The sides of matrices that are declared so, one after the other, at sizes of at most `SIZE_TOP`.
pub(crate) fn sides_of_decls(
    alloc: Global,
    decls: &[Decl],
    s: &Sizes,
) -> Result<Vec<(i64, i64)>, AllocError>
    requires { All (λ size. size ≤ SIZE_TOP) s.now.of }
    ensures { IfOk result (λ sides. sides.items ≡ map (sides_of_decl (sizes_of s.now)) decls.now) }
{
    let mut sides = Vec::new(alloc);
    for decl in decls {
        sides.push(sides_of_decl(decl, s))?;
    }
    Ok(sides)
}

/// What some seats have across and down.
pub(crate) fn sides_of_seats(alloc: Global, seats: &[Seat]) -> Result<Vec<(i64, i64)>, AllocError>
    requires { All IsSmall seats.now }
    ensures { IfOk result (λ sides. sides.items ≡ map sides_of_seat seats.now) }
{
    let mut sides = Vec::new(alloc);
    for seat in seats {
        sides.push((seat.across() as i64, seat.down() as i64))?;
    }
    Ok(sides)
}

/// Matrices that stand so as views of cells.
pub fn views_of(alloc: Global, decls: &[Decl], seats: &[Seat]) -> Result<Vec<View>, AllocError>
    requires small { All IsSmall seats.now }
    requires count { length seats.now ≡ length decls.now }
    ensures { IfOk result (λ views. AreViewsOf decls.now seats.now views.items) }
{
    let mut views = Vec::new(alloc);
    for k in 0..seats.len() {
        let decl = &decls[k];
        views.push(seats[k].view(decl.dims))?;
    }
    Ok(views)
}

/// What views of a plan show of the matrices of an instance, view by view.
pub(crate) fn boxes_in(
    alloc: Global,
    t: &Transform,
    here: &Instance,
    views: &[Read],
) -> Result<Vec<Spot>, AllocError>
    requires { IsShowing t.now.matrices here.now views.now }
    ensures { IfOk result (λ boxes. boxes.items ≡ map (whole_box t.now.matrices (sizes_of here.now.sizes)) views.now) }
{
    let matrices = views_of(alloc, &t.matrices, &here.seats)?;
    view_boxes(alloc, &t.matrices, views, &matrices, &here.sizes)
}

/// Where what a view shows stands, which is a rectangle of a matrix of an instance.
fn seat_of(seats: &[Seat], view: &Read, shown: &Spot) -> Seat
    requires there { shown.now.base < length seats.now }
    requires small { All IsSmall seats.now }
    requires lies { LiesWithin (slice_index_or seats.now shown.now.base no_seat) shown.now.rect }
    ensures seat { result ≡ part_seat view.now.view (slice_index_or seats.now shown.now.base no_seat) shown.now.rect }
    ensures small { IsSmall result }
{
    let seat = &seats[shown.base as usize];
    seat.part(view.view, &shown.rect)
}

/// Where what views of a plan show of the matrices of an instance stands, view by view.
pub(crate) fn view_seats(
    alloc: Global,
    t: &Transform,
    here: &Instance,
    views: &[Read],
) -> Result<Vec<Seat>, AllocError>
    requires { IsShowing t.now.matrices here.now views.now }
    ensures seats { IfOk result (λ found. found.items ≡ map (shown_seat t.now.matrices (sizes_of here.now.sizes) here.now.seats) views.now) }
    ensures small { IfOk result (λ found. All IsSmall found.items) }
{
    let boxes = boxes_in(alloc, t, here, views)?;
    let seats = &here.seats;
    let mut found = Vec::new(alloc);
    for k in 0..views.len() {
        let seat = seat_of(seats, &views[k], &boxes[k]);
        found.push(seat)?;
    }
    Ok(found)
}
