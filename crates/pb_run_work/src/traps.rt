ghost use Rattle.std.specs.Prelude.{◌≡◌, [], List};
ghost use Rattle.std.specs.List.{flat_map};
ghost use Rattle.pb_taskgraph.specs.Turns.{after_all};
ghost use Rattle.pb_views.specs.Seats.{seat_cells};
ghost use Rattle.pb_run_work.specs.Traps.{AreNumbers, Begins, IsLeft, Wrote, seat_row};

use crate::seats::cell_at;
use pb_taskgraph::CellPort;
use pb_values::{Outcome, Trap};
use pb_views::Seat;

/// Writes a trap into a row of what is seated so.
fn trap_row<C: CellPort>(seat: &Seat, y: u64, trap: Trap, port: &mut C)
    requires numbers { AreNumbers (seat_row seat.now y) }
    requires left { Begins trap (seat_row seat.now y) (C.turn port.old) }
    ensures { Wrote trap (seat_row seat.now y) [] (C.turn port.old) (C.turn port.new) }
{
    for x in 0..seat.across() {
        port.write(cell_at(seat, x, y), Outcome::Trapped(trap));
    }
}

/// Writes it into each cell of what is seated so.
fn trap_seat<C: CellPort>(seat: &Seat, trap: Trap, port: &mut C)
    requires numbers { AreNumbers (seat_cells seat.now) }
    requires left { Begins trap (seat_cells seat.now) (C.turn port.old) }
    ensures { Wrote trap (seat_cells seat.now) [] (C.turn port.old) (C.turn port.new) }
{
    for y in 0..seat.down() {
        trap_row(seat, y, trap, port);
    }
}

/// Writes a trap into each cell of the matrices that stand so, one matrix after another, and in each row by row, where these are all
/// the cells that are still to be written.
pub fn run_trap<C: CellPort>(seats: &[Seat], trap: Trap, port: &mut C)
    requires numbers { AreNumbers (flat_map seat_cells seats.now) }
    requires left { IsLeft trap (flat_map seat_cells seats.now) (C.turn port.old) }
    ensures written { C.turn port.new ≡ after_all (C.turn port.old) }
{
    for seat in seats {
        trap_seat(seat, trap, port);
    }
}
