ghost use Rattle.std.specs.Prelude.{◌≡◌, ◌^◌, ◌≤◌, ℤ, pos};
ghost use Rattle.std.specs.List.{All};
ghost use Rattle.pb_linear.specs.Sizes.{sizes_of};
ghost use Rattle.pb_program.specs.declared.view.ReadView.TheVariants as view;
ghost use Rattle.pb_region.specs.Within.{IsWithin};
ghost use Rattle.pb_views.specs.Windows.{AreSteady, IsRect, IsShown, IsWindow, area_by, shown_by};

use crate::line::Line;
use pb_linear::{SIZE_TOP, Sizes};
use pb_program::{Read, ReadView};
use pb_values::{Rect, View};

/// A view of a rule at fixed sizes: what it shows of its matrix, `flat` where it is written for one dimension, and its
/// coordinates.
#[derive(Clone, Copy)]
pub struct Window {
    pub view: ReadView,
    pub flat: bool,
    pub x0: Line,
    pub y0: Line,
    pub x1: Line,
    pub y1: Line,
}

impl Window {
    /// A view at sizes of at most `SIZE_TOP`. The coefficients of the rule variables are at most 2^26 in absolute value.
    pub fn new(read: &Read, sizes: &Sizes) -> Window
        requires sizes { All (λ size. size ≤ SIZE_TOP) sizes.now.of }
        requires coefficients { AreSteady read.now }
        ensures { IsWindow read.now (sizes_of sizes.now) result }
    {
        Window {
            view: read.view,
            flat: read.dims == 1,
            x0: Line::new(&read.x0, sizes),
            y0: Line::new(&read.y0, sizes),
            x1: Line::new(&read.x1, sizes),
            y1: Line::new(&read.y1, sizes),
        }
    }

    /// The place of a view of one cell, which lies within its matrix.
    fn cell_rect(&self, x: u64, y: u64) -> Rect
        requires x { x ≤ 2 ^ 23 }
        requires y { y ≤ 2 ^ 23 }
        requires within { (w h : ℤ) × IsWithin (area_by self.now w h (pos x) (pos y) view.Cell) w h }
        ensures { (w h : ℤ) → IsRect (area_by self.now w h (pos x) (pos y) view.Cell) result }
    {
        let left = self.x0.place(x, y);
        let low = if self.flat { 0 } else { self.y0.place(x, y) };
        Rect {
            x0: left,
            y0: low,
            x1: left + 1,
            y1: low + 1,
        }
    }

    /// The places of a region, which lies within its matrix.
    fn region_rect(&self, x: u64, y: u64) -> Rect
        requires x { x ≤ 2 ^ 23 }
        requires y { y ≤ 2 ^ 23 }
        requires within { (w h : ℤ) × IsWithin (area_by self.now w h (pos x) (pos y) view.Region) w h }
        ensures { (w h : ℤ) → IsRect (area_by self.now w h (pos x) (pos y) view.Region) result }
    {
        let (low, high) = if self.flat {
            (0, 1)
        } else {
            (self.y0.place(x, y), self.y1.place(x, y))
        };
        Rect {
            x0: self.x0.place(x, y),
            y0: low,
            x1: self.x1.place(x, y),
            y1: high,
        }
    }

    /// A view of one cell.
    fn show_cell(&self, matrix: &View, x: u64, y: u64) -> View
        requires x { x ≤ 2 ^ 23 }
        requires y { y ≤ 2 ^ 23 }
        requires within { IsWithin (shown_by self.now matrix.now x y view.Cell) (pos matrix.now.shape.w) (pos matrix.now.shape.h) }
        ensures { IsShown matrix.now view.Cell (shown_by self.now matrix.now x y view.Cell) result }
    {
        matrix.region(&self.cell_rect(x, y))
    }

    fn show_region(&self, matrix: &View, x: u64, y: u64) -> View
        requires x { x ≤ 2 ^ 23 }
        requires y { y ≤ 2 ^ 23 }
        requires within { IsWithin (shown_by self.now matrix.now x y view.Region) (pos matrix.now.shape.w) (pos matrix.now.shape.h) }
        ensures { IsShown matrix.now view.Region (shown_by self.now matrix.now x y view.Region) result }
    {
        matrix.region(&self.region_rect(x, y))
    }

    fn show_row(&self, matrix: &View, x: u64, y: u64) -> View
        requires x { x ≤ 2 ^ 23 }
        requires y { y ≤ 2 ^ 23 }
        requires within { IsWithin (shown_by self.now matrix.now x y view.Row) (pos matrix.now.shape.w) (pos matrix.now.shape.h) }
        ensures { IsShown matrix.now view.Row (shown_by self.now matrix.now x y view.Row) result }
    {
        matrix.row(self.y0.place(x, y))
    }

    fn show_column(&self, matrix: &View, x: u64, y: u64) -> View
        requires x { x ≤ 2 ^ 23 }
        requires y { y ≤ 2 ^ 23 }
        requires within { IsWithin (shown_by self.now matrix.now x y view.Column) (pos matrix.now.shape.w) (pos matrix.now.shape.h) }
        ensures { IsShown matrix.now view.Column (shown_by self.now matrix.now x y view.Column) result }
    {
        matrix.column(self.x0.place(x, y))
    }

    /// The cells that the view shows of a matrix at rule variables of at most 2^23, at which it lies within the matrix.
    pub fn show(&self, matrix: &View, x: u64, y: u64) -> View
        requires x { x ≤ 2 ^ 23 }
        requires y { y ≤ 2 ^ 23 }
        requires within { IsWithin (shown_by self.now matrix.now x y self.now.view) (pos matrix.now.shape.w) (pos matrix.now.shape.h) }
        ensures { IsShown matrix.now self.now.view (shown_by self.now matrix.now x y self.now.view) result }
    {
        match self.view {
            ReadView::Cell => self.show_cell(matrix, x, y),
            ReadView::Row => self.show_row(matrix, x, y),
            ReadView::Column => self.show_column(matrix, x, y),
            ReadView::Region => self.show_region(matrix, x, y),
            ReadView::Whole => *matrix,
        }
    }

    /// The places that the view shows of a matrix, as `show` does.
    pub fn rect(&self, matrix: &View, x: u64, y: u64) -> Rect
        requires x { x ≤ 2 ^ 23 }
        requires y { y ≤ 2 ^ 23 }
        requires within { IsWithin (shown_by self.now matrix.now x y self.now.view) (pos matrix.now.shape.w) (pos matrix.now.shape.h) }
        ensures { IsRect (shown_by self.now matrix.now x y self.now.view) result }
    {
        match self.view {
            ReadView::Cell => self.cell_rect(x, y),
            ReadView::Row => self.row_rect(matrix, x, y),
            ReadView::Column => self.column_rect(matrix, x, y),
            ReadView::Region => self.region_rect(x, y),
            ReadView::Whole => Rect {
                x0: 0,
                y0: 0,
                x1: matrix.shape.w,
                y1: matrix.shape.h,
            },
        }
    }

    fn row_rect(&self, matrix: &View, x: u64, y: u64) -> Rect
        requires x { x ≤ 2 ^ 23 }
        requires y { y ≤ 2 ^ 23 }
        requires within { IsWithin (shown_by self.now matrix.now x y view.Row) (pos matrix.now.shape.w) (pos matrix.now.shape.h) }
        ensures { IsRect (shown_by self.now matrix.now x y view.Row) result }
    {
        let row = self.y0.place(x, y);
        Rect {
            x0: 0,
            y0: row,
            x1: matrix.shape.w,
            y1: row + 1,
        }
    }

    fn column_rect(&self, matrix: &View, x: u64, y: u64) -> Rect
        requires x { x ≤ 2 ^ 23 }
        requires y { y ≤ 2 ^ 23 }
        requires within { IsWithin (shown_by self.now matrix.now x y view.Column) (pos matrix.now.shape.w) (pos matrix.now.shape.h) }
        ensures { IsRect (shown_by self.now matrix.now x y view.Column) result }
    {
        let column = self.x0.place(x, y);
        Rect {
            x0: column,
            y0: 0,
            x1: column + 1,
            y1: matrix.shape.h,
        }
    }
}
