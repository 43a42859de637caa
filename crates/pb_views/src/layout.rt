ghost use Rattle.std.specs.Prelude.{◌≡◌, ◌+◌, ◌≤◌, ◌^◌, IfOk};
ghost use Rattle.std.specs.List.{All};
ghost use Rattle.pb_linear.specs.Sizes.{sizes_of};
ghost use Rattle.pb_values.specs.Views.{Shows};
ghost use Rattle.pb_views.specs.Layouts.{AreInARow, HasShortSides, cell_count, shape_of};
ghost use Rattle.pb_linear.specs.Form.{value};
ghost use Rattle.pb_model.specs.Cells.{natural};

use pb_linear::{Form, SIZE_TOP, Sizes};
use pb_program::Decl;
use pb_values::{Shape, View};
use std::alloc::{AllocError, Global};

/// The value of a side, 0 in the place of a negative one.
fn natural(side: &Form, s: &Sizes) -> u64
    requires { All (λ size. size ≤ SIZE_TOP) s.now.of }
    ensures { result ≡ natural (value side.now (sizes_of s.now)) }
{
    let value = side.at(s);
    if value < 0 { 0 } else { value as u64 }
}

/// The shape of a matrix at sizes of at most `SIZE_TOP`; a side that would be negative is 0.
pub fn shape_of(decl: &Decl, s: &Sizes) -> Shape
    requires { All (λ size. size ≤ SIZE_TOP) s.now.of }
    ensures { result ≡ shape_of (sizes_of s.now) decl.now }
{
    Shape {
        dims: decl.dims,
        w: natural(&decl.w, s),
        h: natural(&decl.h, s),
    }
}

/// The cells of matrices at sizes of at most `SIZE_TOP`: from `first` on, one matrix after the other, each row by row. No side
/// is above `MOST_SIDE`, and the cells end at 2^62 or before.
pub fn lay_out(
    alloc: Global,
    decls: &[Decl],
    s: &Sizes,
    first: u64,
) -> Result<Vec<View>, AllocError>
    requires sizes { All (λ size. size ≤ SIZE_TOP) s.now.of }
    requires sides { All (HasShortSides (sizes_of s.now)) decls.now }
    requires cells { first + cell_count (sizes_of s.now) decls.now ≤ 2 ^ 62 }
    ensures { IfOk result (λ views. AreInARow first (sizes_of s.now) decls.now views.items) }
{
    let mut next = first;
    let mut views = Vec::new(alloc);
    for decl in decls {
        let shape = shape_of(decl, s);
        views.push(View::whole(next, shape))?;
        next += shape.cells();
    }
    Ok(views)
}
