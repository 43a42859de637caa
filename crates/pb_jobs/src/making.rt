ghost use Rattle.std.specs.Prelude.{◌≡◌, Some, slice_get};
ghost use Rattle.pb_program.specs.Trees.{ProgRule};
ghost use Rattle.pb_program.specs.declared.rule.RuleKind.TheVariants as kind;
ghost use Rattle.pb_model.specs.Equations.{own_outcome, rule_gives};
ghost use Rattle.pb_eval.specs.CanRun.{AreReads, at_variables};
ghost use Rattle.pb_eval.specs.Running.{Gives};
ghost use Rattle.pb_statements.specs.Shown.{seen_by};
ghost use Rattle.pb_jobs.specs.Instances.{AreReadsOf, CanRunRule, IsReady, given_by, of_sizes, of_transform};
ghost use Rattle.pb_jobs.specs.Rooms.{HasRoomIn, SameRoom};

use crate::instance::Instance;
use crate::scratch::RuleScratch;
use pb_eval::{Scratch, run_body};
use pb_values::{CellReader, Outcome, Trap, View};

impl<'a> Instance<'a> {
    /// Runs a rule for these rule variables over views of what it reads.
    fn run_over<C: CellReader>(
        &self,
        rule: u32,
        x: u64,
        y: u64,
        views: &[View],
        port: &mut C,
        scratch: &mut Scratch,
    ) -> Result<u64, Trap>
        requires ready { IsReady self.now }
        requires can { CanRunRule self.now rule x y (C.turn port.old) }
        requires reads { (r : ProgRule) → slice_get (of_transform self.now).rules rule ≡ Some r → AreReads (of_transform self.now).matrices (of_sizes self.now) (at_variables x y) r views.now (C.turn port.old) }
        requires room { HasRoomIn self.now rule scratch.old }
        ensures found { (r : ProgRule) → slice_get (of_transform self.now).rules rule ≡ Some r
            → Gives (rule_gives (of_transform self.now).matrices (of_sizes self.now) (at_variables x y) self.now.number rule r (seen_by (C.turn port.old) views.now)) result scratch.new }
        ensures room { SameRoom scratch.old scratch.new }
        ensures stays { C.turn port.new ≡ C.turn port.old }
    {
        run_body(
            self.program(),
            self.transform_number(),
            rule,
            self.sizes(),
            x,
            y,
            views,
            port,
            scratch,
        )
    }

    /// Runs a rule for these rule variables; the numbers of its outputs stand in the scratch.
    pub(crate) fn gives<C: CellReader>(
        &self,
        rule: u32,
        x: u64,
        y: u64,
        port: &mut C,
        scratch: &mut RuleScratch,
    ) -> Result<u64, Trap>
        requires ready { IsReady self.now }
        requires can { CanRunRule self.now rule x y (C.turn port.old) }
        requires room { HasRoomIn self.now rule scratch.old.body }
        ensures found { (r : ProgRule) → slice_get (of_transform self.now).rules rule ≡ Some r → Gives (given_by self.now rule r x y (C.turn port.old)) result scratch.new.body }
        ensures room { SameRoom scratch.old.body scratch.new.body }
        ensures stays { C.turn port.new ≡ C.turn port.old }
    {
        let shown = &mut scratch.shown;
        shown.show(
            self.reads(rule),
            self.read_windows(rule),
            self.views(),
            x,
            y,
        );
        self.run_over(rule, x, y, &shown.views, port, &mut scratch.body)
    }

    /// The outcome of a cell by the body of a rule for single cells, over views of what it reads.
    pub(crate) fn by_body<C: CellReader>(
        &self,
        rule: u32,
        x: u64,
        y: u64,
        views: &[View],
        port: &mut C,
        scratch: &mut Scratch,
    ) -> Outcome
        requires ready { IsReady self.now }
        requires can { CanRunRule self.now rule x y (C.turn port.old) }
        requires one { (r : ProgRule) → slice_get (of_transform self.now).rules rule ≡ Some r → r.kind ≡ kind.Cell }
        requires shown { AreReadsOf self.now rule x y views.now }
        requires room { HasRoomIn self.now rule scratch.old }
        ensures outcome { (r : ProgRule) → slice_get (of_transform self.now).rules rule ≡ Some r
            → result ≡ own_outcome (of_transform self.now).matrices (of_sizes self.now) (at_variables x y) r (given_by self.now rule r x y (C.turn port.old)) }
        ensures room { SameRoom scratch.old scratch.new }
        ensures stays { C.turn port.new ≡ C.turn port.old }
    {
        match self.run_over(rule, x, y, views, port, scratch) {
            Ok(_) => Outcome::Value(scratch.out(0)),
            Err(trap) => Outcome::Trapped(trap),
        }
    }
}
