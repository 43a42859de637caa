ghost use Rattle.std.specs.Prelude.{◌≡◌, ◌+◌, ◌*◌, ◌≤◌, ◌^◌, ◌<◌, ℕ, IfSome, pos};
ghost use Rattle.pb_values.specs.Views.{FitsInto, IsInside, cell_of};
ghost use Rattle.pb_region.specs.Within.{IsWithin};
ghost use Rattle.pb_views.specs.Windows.{IsRect, shown_by};
ghost use Rattle.pb_walk.specs.Stretches.{place_on};
ghost use Rattle.pb_jobs.specs.Advances.{IsAdvance, IsWindowOn};
ghost use Rattle.pb_jobs.specs.Distances.{CanMove, IsBetween, IsFromTo, IsMoved, IsShaped, IsStep};

use pb_program::ReadView;
use pb_values::{Rect, Shape, View};
use pb_views::Window;
use pb_walk::Stretch;

/// How far it is from one cell of the run to another: up to a greater one, or down to a smaller one.
#[derive(Clone, Copy)]
pub enum Distance {
    Up(u64),
    Down(u64),
}

/// How a view moves from one place of a line to the next: how far its first cell goes, and its steps and its shape, which stay.
#[derive(Clone, Copy)]
pub struct Advance {
    pub far: Distance,
    pub step_x: u64,
    pub step_y: u64,
    pub shape: Shape,
}

impl Distance {
    /// As much to add, modulo 2^64.
    pub(crate) fn step(&self) -> u64
        ensures { IsStep self.now result }
    {
        match self {
            Distance::Up(by) => *by,
            Distance::Down(by) => by.wrapping_neg(),
        }
    }
}

impl Advance {
    /// The view with this first cell that moves so.
    pub(crate) fn at(&self, first: u64) -> View
        requires { first + (self.now.shape.w * self.now.step_x + self.now.shape.h * self.now.step_y) ≤ 2 ^ 63 }
        ensures first { result.first ≡ first }
        ensures shaped { IsShaped self.now result }
    {
        View {
            first,
            step_x: self.step_x,
            step_y: self.step_y,
            shape: Shape {
                dims: self.shape.dims,
                w: self.shape.w,
                h: self.shape.h,
            },
        }
    }

    /// The view after one that moves so: only its first cell is another.
    #[inline(always)]
    pub(crate) fn after(&self, view: &View) -> View
        requires can { CanMove self.now view.now.first }
        requires shaped { IsShaped self.now view.now }
        ensures { IsMoved self.now view.now.first result }
    {
        let next = match self.far {
            Distance::Up(by) => view.first + by,
            Distance::Down(by) => view.first - by,
        };
        View {
            first: next,
            step_x: view.step_x,
            step_y: view.step_y,
            shape: Shape {
                dims: view.shape.dims,
                w: view.shape.w,
                h: view.shape.h,
            },
        }
    }
}

/// From one cell to another.
fn distance_from(here: u64, next: u64) -> Distance
    ensures { IsFromTo here next result }
{
    if here <= next {
        Distance::Up(next - here)
    } else {
        Distance::Down(here - next)
    }
}

/// From a view of the places of a rectangle to that of another with the same sides, unless they are empty.
fn advance_between(matrix: &View, here: &Rect, next: &Rect) -> Option<Advance>
    requires here { FitsInto matrix.now.shape here.now }
    requires next { FitsInto matrix.now.shape next.now }
    ensures { IfSome result (IsBetween matrix.now here.now next.now) }
{
    let w = here.x1 - here.x0;
    let h = here.y1 - here.y0;
    if w == 0 || h == 0 {
        return None;
    }
    if next.x1 - next.x0 != w || next.y1 - next.y0 != h {
        return None;
    }
    let first = matrix.place(here.x0, here.y0);
    let second = matrix.place(next.x0, next.y0);
    Some(Advance {
        far: distance_from(first, second),
        step_x: matrix.step_x,
        step_y: matrix.step_y,
        shape: Shape {
            dims: matrix.shape.dims,
            w,
            h,
        },
    })
}

/// How what a window shows of a matrix moves along a line of two places or more, where it has the same sides at the first two places:
/// by as much as from the first to the second. It isn't known of columns and of what is empty.
pub(crate) fn advance_along(window: &Window, matrix: &View, stretch: &Stretch) -> Option<Advance>
    requires { (i : ℕ) → i < stretch.now.count → IsWindowOn window.now matrix.now stretch.now i }
    ensures { IfSome result (IsAdvance window.now matrix.now stretch.now) }
{
    if stretch.count < 2 {
        return None;
    }
    match window.view {
        ReadView::Column => None,
        _ => {
            let (x, y) = stretch.place(0);
            let (a, b) = stretch.place(1);
            let here = window.rect(matrix, x, y);
            let next = window.rect(matrix, a, b);
            advance_between(matrix, &here, &next)
        }
    }
}
