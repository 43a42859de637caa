ghost use Rattle.std.specs.Prelude.{◌≡◌, ◌≤◌, [], length};
ghost use Rattle.pb_taskgraph.specs.Turns.{after_all};
ghost use Rattle.pb_walk.specs.Walks.{walk_of};
ghost use Rattle.pb_run_work.specs.Copies.{IsCopy};

use crate::seats::cell_at;
use pb_links::Spot;
use pb_taskgraph::CellPort;
use pb_values::View;
use pb_views::Seat;
use pb_walk::Walk;

/// Copies the cells of some rectangles of an instance's matrices, by their numbers: `views` are the matrices, and the place of an
/// output with the lowest corner `corner` stands as far from the corner of `source`.
pub fn run_copy<C: CellPort>(
    views: &[View],
    parts: &[Spot],
    corner: (u64, u64),
    source: &Seat,
    port: &mut C,
    walk: &mut Walk,
)
    requires copy { IsCopy views.now corner source.now (walk_of [] parts.now) (C.turn port.old) }
    requires room { length parts.now ≤ walk.old.room }
    ensures written { C.turn port.new ≡ after_all (C.turn port.old) }
    ensures room { walk.new.room ≡ walk.old.room }
{
    walk.begin(&[], parts);
    while let Some(stop) = walk.next() {
        let x = stop.x.saturating_sub(corner.0);
        let y = stop.y.saturating_sub(corner.1);
        let outcome = port.read(cell_at(source, x, y));
        let cell = views[stop.base as usize].place(stop.x, stop.y);
        port.write(cell, outcome);
    }
}
