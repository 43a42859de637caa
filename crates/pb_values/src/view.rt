ghost use Rattle.std.specs.Prelude.{◌≡◌, ◌+◌, ◌-◌, ◌*◌, ◌≤◌, ◌<◌, ◌^◌};

use crate::rect::Rect;
use crate::shape::{MOST_SIDE, Shape};

/// Some of the cells of a run, as a matrix of its own: the cell at the place `(x, y)` is `first`, plus `x` times `step_x`,
/// plus `y` times `step_y`.
#[derive(Clone, Copy)]
pub struct View {
    pub first: u64,
    pub step_x: u64,
    pub step_y: u64,
    pub shape: Shape,
    pub ghost small: { first + (shape.w * step_x + shape.h * step_y) ≤ 2 ^ 63 },
}

impl View {
    ghost use Rattle.pb_values.specs.Views.{IsInside, FitsInto, Shows, cell_of};

    /// The cells from `first` on, row by row. `first` is at most 2^62, and each side at most `MOST_SIDE`.
    pub fn whole(first: u64, shape: Shape) -> View
        requires first { first ≤ 2 ^ 62 }
        requires width { shape.w ≤ MOST_SIDE }
        requires height { shape.h ≤ MOST_SIDE }
        ensures { Shows result shape (λ x y. first + (y * shape.w + x)) }
    {
        View {
            first,
            step_x: 1,
            step_y: shape.w,
            shape,
        }
    }

    /// The cell at a place inside the shape.
    pub fn place(&self, x: u64, y: u64) -> u64
        requires { IsInside self.now.shape x y }
        ensures { result ≡ cell_of self.now x y }
    {
        self.first + (x * self.step_x + y * self.step_y)
    }

    /// The part of the view in a rectangle inside its shape.
    pub fn region(&self, r: &Rect) -> View
        requires { FitsInto self.now.shape r.now }
        ensures { Shows result (record { dims = self.now.shape.dims; w = r.now.x1 - r.now.x0; h = r.now.y1 - r.now.y0 })
            (λ x y. cell_of self.now (r.now.x0 + x) (r.now.y0 + y)) }
    {
        View {
            first: self.first + (r.x0 * self.step_x + r.y0 * self.step_y),
            step_x: self.step_x,
            step_y: self.step_y,
            shape: Shape {
                dims: self.shape.dims,
                w: r.x1 - r.x0,
                h: r.y1 - r.y0,
            },
        }
    }

    /// A row, as a view of one dimension.
    pub fn row(&self, y: u64) -> View
        requires { y < self.now.shape.h }
        ensures { Shows result (record { dims = 1; w = self.now.shape.w; h = 1 }) (λ x z. cell_of self.now x (y + z)) }
    {
        View {
            first: self.first + y * self.step_y,
            step_x: self.step_x,
            step_y: self.step_y,
            shape: Shape {
                dims: 1,
                w: self.shape.w,
                h: 1,
            },
        }
    }

    /// A column, as a view of one dimension, whose width is the height of the view.
    pub fn column(&self, x: u64) -> View
        requires { x < self.now.shape.w }
        ensures { Shows result (record { dims = 1; w = self.now.shape.h; h = 1 }) (λ y z. cell_of self.now (x + z) y) }
    {
        View {
            first: self.first + x * self.step_x,
            step_x: self.step_y,
            step_y: self.step_x,
            shape: Shape {
                dims: 1,
                w: self.shape.h,
                h: 1,
            },
        }
    }
}
