ghost use Rattle.std.specs.Prelude.{◌≡◌, ◌<◌, false, slice_index_or};
ghost use Rattle.std.specs.List.{flat_map};
ghost use Rattle.pb_values.specs.Views.{row_cells, view_cells};
ghost use Rattle.pb_core.specs.Cores.{TellsWritten};

use pb_taskgraph::Part;
use pb_values::View;

/// Whether a cell is written.
pub(crate) fn is_written(written: &[bool], cell: u64) -> bool
    ensures { result ≡ slice_index_or written.now cell false }
{
    match written.get(cell as usize) {
        Some(is) => *is,
        None => false,
    }
}

fn row_written(written: &[bool], view: &View, y: u64) -> bool
    requires { y < view.now.shape.h }
    ensures { TellsWritten written.now (row_cells view.now y) result }
{
    for x in 0..view.shape.w {
        if !is_written(written, view.place(x, y)) {
            return false;
        }
    }
    true
}

fn view_written(written: &[bool], view: &View) -> bool
    ensures { TellsWritten written.now (view_cells view.now) result }
{
    // A view without columns may have any number of rows.
    if view.shape.w == 0 {
        return true;
    }
    for y in 0..view.shape.h {
        if !row_written(written, view, y) {
            return false;
        }
    }
    true
}

/// Whether all cells of these parts are written.
pub(crate) fn parts_written(written: &[bool], parts: &[Part]) -> bool
    ensures { TellsWritten written.now (flat_map (λ part. view_cells part.view) parts.now) result }
{
    for part in parts {
        if !view_written(written, &part.view) {
            return false;
        }
    }
    true
}
