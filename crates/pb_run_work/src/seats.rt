ghost use Rattle.std.specs.Prelude.{◌≡◌, ◌<◌, ◌^◌};
ghost use Rattle.pb_views.specs.Seats.{cell_at};

use pb_views::Seat;

/// The number of the cell at a place of what is seated so.
pub(crate) fn cell_at(seat: &Seat, x: u64, y: u64) -> u64
    requires { cell_at seat.now x y < 2 ^ 64 }
    ensures { result ≡ cell_at seat.now x y }
{
    let corner = &seat.rect;
    let (right, down) = if seat.turned { (y, x) } else { (x, y) };
    let row = corner.y0.saturating_add(down).saturating_mul(seat.row);
    seat.first
        .saturating_add(row.saturating_add(corner.x0.saturating_add(right)))
}
