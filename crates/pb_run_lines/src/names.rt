ghost use Rattle.std.specs.Prelude.{◌≡◌, ◌++◌, OnOk, map, slice_get};
ghost use Rattle.pb_program.specs.Trees.{bare_transform};
ghost use Rattle.pb_run_lines.specs.RunLines.{matrix_name, size_name};

use pb_program::Transform;
use std::alloc::AllocError;

/// The name of a matrix of a transform, if there are such.
pub(crate) fn write_matrix_name(
    text: &mut Vec<u8>,
    program: &[Transform],
    t: u32,
    matrix: u32,
) -> Result<(), AllocError>
    ensures { OnOk result (text.new.items ≡ text.old.items ++ matrix_name (slice_get (map bare_transform program.now) t) matrix) }
{
    let Some(t) = program.get(t as usize) else {
        return Ok(());
    };
    match t.matrices.get(matrix as usize) {
        Some(matrix) => text.extend_from_slice(matrix.name.bytes()),
        None => Ok(()),
    }
}

/// The name of a size variable of a transform, if there are such.
pub(crate) fn write_size_name(
    text: &mut Vec<u8>,
    program: &[Transform],
    t: u32,
    size: u32,
) -> Result<(), AllocError>
    ensures { OnOk result (text.new.items ≡ text.old.items ++ size_name (slice_get (map bare_transform program.now) t) size) }
{
    let Some(t) = program.get(t as usize) else {
        return Ok(());
    };
    match t.sizes.get(size as usize) {
        Some(name) => text.extend_from_slice(name.bytes()),
        None => Ok(()),
    }
}
