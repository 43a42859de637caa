ghost use Rattle.std.specs.Prelude.{◌≡◌, ◌≤◌, ◌<◌, Some, length, slice_get};
ghost use Rattle.std.specs.List.{All};
ghost use Rattle.pb_program.specs.Trees.{bare_prog};
ghost use Rattle.pb_taskgraph.specs.Turns.{after_all};
ghost use Rattle.pb_walk.specs.Walks.{walk_of};
ghost use Rattle.pb_jobs.specs.Instances.{IsReady, of_sizes};
ghost use Rattle.pb_jobs.specs.Jobs.{IsBlock};
ghost use Rattle.pb_jobs.specs.Rooms.{HasRoomFor, rooms_of};

use crate::instance::Instance;
use crate::scratch::RunScratch;
use pb_linear::Step;
use pb_links::Spot;
use pb_taskgraph::CellPort;

/// The rule of the rectangle with this number.
fn rule_of(rules: &[u32], piece: usize) -> u32
    requires { piece < length rules.now }
    ensures { slice_get rules.now piece ≡ Some result }
{
    rules[piece]
}

impl<'a> Instance<'a> {
    /// Makes the cells of rectangles one by one, each by its rectangle's rule, in the order of the steps.
    pub(crate) fn run_block<C: CellPort>(
        &self,
        parts: &[Spot],
        rules: &[u32],
        steps: &[Step],
        port: &mut C,
        scratch: &mut RunScratch,
    )
        requires ready { IsReady self.now }
        requires block { IsBlock self.now rules.now (walk_of steps.now parts.now) (C.turn port.old) }
        requires pieces { length parts.now ≤ scratch.old.walk.room }
        requires room { All (HasRoomFor (bare_prog self.now.program) self.now.number (of_sizes self.now) (rooms_of scratch.old)) rules.now }
        ensures written { C.turn port.new ≡ after_all (C.turn port.old) }
        ensures room { rooms_of scratch.new ≡ rooms_of scratch.old }
    {
        scratch.walk.begin(steps, parts);
        while let Some(stretch) = scratch.walk.stretch() {
            let rule = rule_of(rules, stretch.piece);
            self.run_stretch(rule, &stretch, port, &mut scratch.rule);
        }
    }
}
