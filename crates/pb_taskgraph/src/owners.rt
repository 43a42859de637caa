ghost use Rattle.std.specs.Prelude.{◌≡◌, ◌<◌, length};
ghost use Rattle.std.specs.List.{All, flat_map};
ghost use Rattle.pb_values.specs.Views.{row_cells, view_cells};
ghost use Rattle.pb_taskgraph.specs.Owners.{HasEntry, filled};

use crate::task::Part;
use pb_values::View;

// The table is a slice here and the view a copy, so that the loop reads neither again.
fn fill_row(owners: &mut [u32], first: u64, view: View, y: u64, task: u32)
    requires row { y < view.shape.h }
    requires inside { All (HasEntry first (length owners.old)) (row_cells view y) }
    ensures { owners.new ≡ filled first owners.old (row_cells view y) task }
{
    for x in 0..view.shape.w {
        owners[(view.place(x, y) - first) as usize] = task;
    }
}

fn fill_view(owners: &mut Vec<u32>, first: u64, view: &View, task: u32)
    requires { All (HasEntry first (length owners.old.items)) (view_cells view.now) }
    ensures { owners.new.items ≡ filled first owners.old.items (view_cells view.now) task }
{
    // A view without columns may have any number of rows.
    if view.shape.w == 0 {
        return;
    }
    for y in 0..view.shape.h {
        fill_row(owners, first, *view, y, task);
    }
}

/// Writes the number of a task in the entries of its parts' cells. The first entry is that of the cell `first`.
pub(crate) fn fill_task(owners: &mut Vec<u32>, first: u64, parts: &[Part], task: u32)
    requires { All (HasEntry first (length owners.old.items)) (flat_map (λ part. view_cells part.view) parts.now) }
    ensures { owners.new.items ≡ filled first owners.old.items (flat_map (λ part. view_cells part.view) parts.now) task }
{
    for part in parts {
        fill_view(owners, first, &part.view, task);
    }
}
