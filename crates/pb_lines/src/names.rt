ghost use Rattle.std.specs.Prelude.{◌≡◌, ◌++◌, OnOk, map, slice_get};
ghost use Rattle.pb_program.specs.Trees.{bare_transform};
ghost use Rattle.pb_linear.specs.Sizes.{sizes_of};
ghost use Rattle.pb_lines.specs.Lines.{axis_text, matrix_text, named, sizes_in, sizes_text, transform_text};

use crate::text::{write_number, write_place};
use pb_linear::Sizes;
use pb_program::Transform;
use pb_values::Name;
use std::alloc::AllocError;

/// The word for what is too many, or a name, and its place.
pub(crate) fn write_named(text: &mut Vec<u8>, name: &[u8], at: u32) -> Result<(), AllocError>
    ensures { OnOk result (text.new.items ≡ text.old.items ++ named name.now at) }
{
    text.extend_from_slice(name)?;
    text.extend_from_slice(b" at ")?;
    write_place(text, at)
}

/// Adds the name of a transform, if there is one with this number.
pub fn write_transform(text: &mut Vec<u8>, program: &[Transform], t: u32) -> Result<(), AllocError>
    ensures { OnOk result (text.new.items ≡ text.old.items ++ transform_text (map bare_transform program.now) t) }
{
    match program.get(t as usize) {
        Some(t) => text.extend_from_slice(t.name.bytes()),
        None => Ok(()),
    }
}

/// Adds the name of a matrix of a transform, if there is one with this number, after a point.
pub fn write_matrix(
    text: &mut Vec<u8>,
    program: &[Transform],
    t: u32,
    matrix: u32,
) -> Result<(), AllocError>
    ensures { OnOk result (text.new.items ≡ text.old.items ++ matrix_text (map bare_transform program.now) t matrix) }
{
    let Some(t) = program.get(t as usize) else {
        return Ok(());
    };
    match t.matrices.get(matrix as usize) {
        Some(matrix) => {
            text.extend_from_slice(b".")?;
            text.extend_from_slice(matrix.name.bytes())
        }
        None => Ok(()),
    }
}

/// Adds the letter of an axis: `x` for 0, else `y`.
pub fn write_axis(text: &mut Vec<u8>, axis: u8) -> Result<(), AllocError>
    ensures { OnOk result (text.new.items ≡ text.old.items ++ axis_text axis) }
{
    if axis == 0 {
        text.extend_from_slice(b"x")
    } else {
        text.extend_from_slice(b"y")
    }
}

/// The sizes with their names, each after a separator, which is `,` after the first.
pub(crate) fn write_sizes(
    text: &mut Vec<u8>,
    separator: &[u8],
    names: &[Name],
    sizes: &[u64],
) -> Result<(), AllocError>
    ensures { OnOk result (text.new.items ≡ text.old.items ++ sizes_text separator.now names.now sizes.now) }
{
    let [name, names @ ..] = names else {
        return Ok(());
    };
    let [size, sizes @ ..] = sizes else {
        return Ok(());
    };
    text.extend_from_slice(separator)?;
    text.extend_from_slice(name.bytes())?;
    text.extend_from_slice(b"=")?;
    write_number(text, *size)?;
    write_sizes(text, b",", names, sizes)
}

/// The sizes of a transform, if there is one with this number.
pub(crate) fn write_sizes_of(
    text: &mut Vec<u8>,
    program: &[Transform],
    t: u32,
    sizes: &Sizes,
) -> Result<(), AllocError>
    ensures { OnOk result (text.new.items ≡ text.old.items ++ sizes_in (slice_get (map bare_transform program.now) t) (sizes_of sizes.now)) }
{
    match program.get(t as usize) {
        Some(t) => write_sizes(text, b"", &t.sizes, &sizes.of[..sizes.count as usize]),
        None => Ok(()),
    }
}
