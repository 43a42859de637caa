ghost use Rattle.std.specs.Prelude.{◌≡◌, ◌≤◌, [], length};
ghost use Rattle.pb_program.specs.Trees.{bare_prog};
ghost use Rattle.pb_taskgraph.specs.Turns.{after_all};
ghost use Rattle.pb_walk.specs.Walks.{walk_of};
ghost use Rattle.pb_jobs.specs.Instances.{IsReady, of_sizes};
ghost use Rattle.pb_jobs.specs.Jobs.{IsWhole};
ghost use Rattle.pb_jobs.specs.Rooms.{HasRoomFor, rooms_of};

use crate::instance::Instance;
use crate::scratch::RunScratch;
use pb_links::Spot;
use pb_taskgraph::CellPort;

impl<'a> Instance<'a> {
    /// Makes all cells of rectangles at once, by a rule.
    pub(crate) fn run_whole<C: CellPort>(
        &self,
        parts: &[Spot],
        rule: u32,
        port: &mut C,
        scratch: &mut RunScratch,
    )
        requires ready { IsReady self.now }
        requires whole { IsWhole self.now rule (walk_of [] parts.now) (C.turn port.old) }
        requires pieces { length parts.now ≤ scratch.old.walk.room }
        requires room { HasRoomFor (bare_prog self.now.program) self.now.number (of_sizes self.now) (rooms_of scratch.old) rule }
        ensures written { C.turn port.new ≡ after_all (C.turn port.old) }
        ensures room { rooms_of scratch.new ≡ rooms_of scratch.old }
    {
        let views = self.views();
        let gave = self.gives(rule, 0, 0, port, &mut scratch.rule);
        scratch.walk.begin(&[], parts);
        while let Some(stop) = scratch.walk.next() {
            let outcome = self.outcome(rule, gave, stop, &scratch.rule);
            let cell = views[stop.base as usize].place(stop.x, stop.y);
            port.write(cell, outcome);
        }
    }
}
