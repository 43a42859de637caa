ghost use Rattle.std.specs.Prelude.{◌≡◌, ◌+◌, ◌<◌, ◌^◌, length};
ghost use Rattle.std.specs.List.{All};
ghost use Rattle.pb_unroll.specs.ShownCells.{IsShort, place_in};

use pb_values::View;

/// The number of the matrix that has the cell with this number, and the cell's place there, among matrices that stand one
/// after the other and whose numbers begin with `first`.
pub(crate) fn place_of(views: &[View], first: u32, cell: u64) -> Option<(u32, u64, u64)>
    requires short { All IsShort views.now }
    requires few { first + length views.now < 2 ^ 32 }
    ensures { result ≡ place_in views.now first cell }
{
    let mut matrix = first;
    let mut left = cell;
    for view in views {
        let shape = view.shape;
        let cells = shape.cells();
        if left < cells {
            return Some((matrix, left % shape.w, left / shape.w));
        }
        left -= cells;
        matrix += 1;
    }
    None
}
