ghost use Rattle.std.specs.Prelude.{◌≡◌, ◌≤◌, ◌++◌, IfNone, IfSome, None, OnOk, Some, length, slice_get};
ghost use Rattle.pb_prog.specs.FormText.{form_text};
ghost use Rattle.pb_program.specs.Trees.{bare_transform};
ghost use Rattle.pb_lines.specs.Lines.{area_by, interval_text, segment_text};

use pb_graph::Node;
use pb_linear::{Form, SymBox};
use pb_prog::print_form;
use pb_program::{Decl, Transform};
use pb_values::Name;
use std::alloc::{AllocError, Global};

/// The names of a transform's size variables.
pub(crate) fn names_of(transform: &Transform) -> &[Name]
    ensures { result.now ≡ transform.now.sizes }
{
    &transform.sizes
}

/// Its matrix with this number.
pub(crate) fn matrix_at(transform: &Transform, matrix: u32) -> Option<&Decl>
    ensures found { IfSome result (λ d. slice_get transform.now.matrices matrix ≡ Some d.now) }
    ensures none { IfNone result (slice_get transform.now.matrices matrix ≡ None) }
{
    transform.matrices.get(matrix as usize)
}

pub(crate) fn write_form(
    alloc: Global,
    text: &mut Vec<u8>,
    form: &Form,
    names: &[Name],
) -> Result<(), AllocError>
    requires { length names.now ≤ 8 }
    ensures { OnOk result (text.new.items ≡ text.old.items ++ form_text form.now names.now) }
{
    let printed = print_form(alloc, form, names)?;
    text.extend_from_slice(&printed)
}

/// The numbers from one form to before another.
fn write_interval(
    alloc: Global,
    text: &mut Vec<u8>,
    names: &[Name],
    low: &Form,
    high: &Form,
) -> Result<(), AllocError>
    requires { length names.now ≤ 8 }
    ensures { OnOk result (text.new.items ≡ text.old.items ++ interval_text names.now low.now high.now) }
{
    text.extend_from_slice(b"[")?;
    write_form(alloc, text, low, names)?;
    text.extend_from_slice(b",")?;
    write_form(alloc, text, high, names)?;
    text.extend_from_slice(b")")
}

/// An area of a matrix of so many dimensions.
fn write_area(
    alloc: Global,
    text: &mut Vec<u8>,
    names: &[Name],
    dims: u8,
    area: &SymBox,
) -> Result<(), AllocError>
    requires { length names.now ≤ 8 }
    ensures { OnOk result (text.new.items ≡ text.old.items ++ area_by dims names.now area.now) }
{
    write_interval(alloc, text, names, &area.x0, &area.x1)?;
    if dims == 1 {
        return Ok(());
    }
    text.extend_from_slice(b"x")?;
    write_interval(alloc, text, names, &area.y0, &area.y1)
}

/// An area of a matrix.
pub(crate) fn write_area_on(
    alloc: Global,
    text: &mut Vec<u8>,
    names: &[Name],
    matrix: &Decl,
    area: &SymBox,
) -> Result<(), AllocError>
    requires { length names.now ≤ 8 }
    ensures { OnOk result (text.new.items ≡ text.old.items ++ area_by matrix.now.dims names.now area.now) }
{
    write_area(alloc, text, names, matrix.dims, area)
}

/// Adds a segment of a transform as refusals and the report name it: its matrix and its area, `B[0,1)`, or `B[0,w)x[0,h)` with two
/// dimensions. Nothing where there is no matrix of its number. The transform has at most 8 size variables.
pub fn write_segment(
    alloc: Global,
    text: &mut Vec<u8>,
    transform: &Transform,
    node: &Node,
) -> Result<(), AllocError>
    requires few { length transform.now.sizes ≤ 8 }
    ensures segment { OnOk result (text.new.items ≡ text.old.items ++ segment_text (bare_transform transform.now) node.now) }
{
    match matrix_at(transform, node.matrix) {
        Some(matrix) => {
            text.extend_from_slice(matrix.name.bytes())?;
            write_area_on(alloc, text, names_of(transform), matrix, &node.area)
        }
        None => Ok(()),
    }
}
