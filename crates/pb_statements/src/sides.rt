ghost use Rattle.std.specs.Prelude.{◌≡◌, ◌==◌, ◌^◌, ◌≤◌, if◌then◌else◌, unsigned_abs};
ghost use Rattle.std.specs.List.{All};
ghost use Rattle.pb_linear.specs.Numbers.{exact_value};
ghost use Rattle.pb_linear.specs.Sizes.{sizes_of};
ghost use Rattle.pb_model.specs.Cells.{natural};
ghost use Rattle.pb_statements.specs.Outputs.{free_by, gap_of, low_by};

use pb_linear::{SIZE_TOP, Sizes};
use pb_program::{Coordinate, Decl, Read, ReadView};

/// A width and a height.
#[derive(Clone, Copy)]
pub struct Sides {
    pub width: u64,
    pub height: u64,
}

/// A number, or 0 in the place of a negative one.
fn natural(z: i64) -> u64
    requires { unsigned_abs z ≤ 2 ^ 53 }
    ensures value { result ≡ natural z }
    ensures small { result ≤ 2 ^ 53 }
{
    if z < 0 { 0 } else { z as u64 }
}

/// From one coordinate to before another, at sizes; neither has rule variables.
fn gap(low: &Coordinate, high: &Coordinate, s: &Sizes) -> u64
    requires { All (λ size. size ≤ SIZE_TOP) s.now.of }
    ensures value { result ≡ gap_of (sizes_of s.now) low.now high.now }
    ensures small { result ≤ 2 ^ 53 }
{
    natural(high.form.rest.at(s) - low.form.rest.at(s))
}

/// The sides of a view whose coordinates have no rule variables, or which is a cell.
pub fn view_sides(read: &Read, decl: &Decl, s: &Sizes) -> Sides
    requires { All (λ size. size ≤ SIZE_TOP) s.now.of }
    ensures width { result.width ≡ (free_by read.now.view (sizes_of s.now) read.now decl.now).0 }
    ensures height { result.height ≡ (free_by read.now.view (sizes_of s.now) read.now decl.now).1 }
    ensures wide { result.width ≤ 2 ^ 53 }
    ensures tall { result.height ≤ 2 ^ 53 }
{
    match read.view {
        ReadView::Cell => Sides {
            width: 1,
            height: 1,
        },
        ReadView::Row => Sides {
            width: natural(decl.w.at(s)),
            height: 1,
        },
        ReadView::Column => Sides {
            width: natural(decl.h.at(s)),
            height: 1,
        },
        ReadView::Region => Sides {
            width: gap(&read.x0, &read.x1, s),
            height: rows(read, s),
        },
        ReadView::Whole => Sides {
            width: natural(decl.w.at(s)),
            height: natural(decl.h.at(s)),
        },
    }
}

/// How many rows a region has.
fn rows(read: &Read, s: &Sizes) -> u64
    requires { All (λ size. size ≤ SIZE_TOP) s.now.of }
    ensures value { result ≡ (if read.now.dims == 1 then 1 else gap_of (sizes_of s.now) read.now.y0 read.now.y1) }
    ensures small { result ≤ 2 ^ 53 }
{
    if read.dims == 1 {
        1
    } else {
        gap(&read.y0, &read.y1, s)
    }
}

/// The lowest corner of a view whose coordinates have no rule variables, as a width and a height.
pub fn lowest(read: &Read, s: &Sizes) -> Sides
    requires { All (λ size. size ≤ SIZE_TOP) s.now.of }
    ensures width { result.width ≡ (low_by read.now.view (sizes_of s.now) read.now).0 }
    ensures height { result.height ≡ (low_by read.now.view (sizes_of s.now) read.now).1 }
{
    match read.view {
        ReadView::Row => Sides {
            width: 0,
            height: natural(read.y0.form.rest.at(s)),
        },
        ReadView::Column => Sides {
            width: natural(read.x0.form.rest.at(s)),
            height: 0,
        },
        ReadView::Whole => Sides {
            width: 0,
            height: 0,
        },
        ReadView::Cell | ReadView::Region => Sides {
            width: natural(read.x0.form.rest.at(s)),
            height: low_row(read, s),
        },
    }
}

/// The lowest row of a cell or a region.
fn low_row(read: &Read, s: &Sizes) -> u64
    requires { All (λ size. size ≤ SIZE_TOP) s.now.of }
    ensures { result ≡ (if read.now.dims == 1 then 0 else natural (exact_value read.now.y0.rest (sizes_of s.now))) }
{
    if read.dims == 1 {
        0
    } else {
        natural(read.y0.form.rest.at(s))
    }
}
