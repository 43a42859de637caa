ghost use Rattle.std.specs.Prelude.{◌≡◌, ◌<◌};
ghost use Rattle.pb_taskgraph.specs.Turns.{after_some};
ghost use Rattle.pb_jobs.specs.Instances.{IsReady};
ghost use Rattle.pb_jobs.specs.Jobs.{AreMadeHere};
ghost use Rattle.pb_jobs.specs.Rooms.{HasRoomIn, SameRoom};

use crate::formulas::{needs_cells_alone, take_terms};
use crate::instance::Instance;
use crate::scratch::RuleScratch;
use pb_taskgraph::CellPort;
use pb_walk::Stretch;

impl<'a> Instance<'a> {
    /// Makes the cells of a line one by one, by a rule.
    pub(crate) fn run_stretch<C: CellPort>(
        &self,
        rule: u32,
        stretch: &Stretch,
        port: &mut C,
        scratch: &mut RuleScratch,
    )
        requires ready { IsReady self.now }
        requires some { 0 < stretch.now.count }
        requires made { AreMadeHere self.now rule (C.turn port.old) stretch.now }
        requires room { HasRoomIn self.now rule scratch.old.body }
        ensures written { C.turn port.new ≡ after_some stretch.now.count (C.turn port.old) }
        ensures room { SameRoom scratch.old.body scratch.new.body }
    {
        let reads = self.reads(rule);
        let windows = self.read_windows(rule);
        let matrices = self.views();
        let view = matrices[stretch.base as usize];
        let moves = scratch.shown.begin(reads, windows, matrices, stretch);
        let formula = self.begin_formula(rule, &mut scratch.body);
        take_terms(formula, &mut scratch.terms);
        let untrapped = port.is_untrapped();
        if needs_cells_alone(
            moves,
            untrapped,
            formula,
            &scratch.terms,
            reads.len() as u64,
        ) {
            return self.run_line(rule, reads, windows, stretch, port, scratch);
        }
        for i in 0..stretch.count {
            let (x, y) = stretch.place(i);
            let shown = &mut scratch.shown;
            let outcome = self.cell(
                formula,
                &scratch.terms,
                rule,
                x,
                y,
                &shown.views,
                port,
                &mut scratch.body,
            );
            port.write(view.place(x, y), outcome);
            if moves {
                shown.go_on(reads, windows, matrices, stretch, i);
            } else {
                shown.show_next(reads, windows, matrices, stretch, i);
            }
        }
    }
}
