ghost use Rattle.std.specs.Prelude.{◌≡◌, ◌<◌, IfSome, Some, length, slice_get};
ghost use Rattle.pb_values.specs.Cells.{HasNoTrap};
ghost use Rattle.pb_values.specs.Views.{IsInside, cell_of};
ghost use Rattle.pb_values.specs.declared.outcome.Outcome.TheVariants.{Value};
ghost use Rattle.pb_program.specs.Trees.{ProgRule};
ghost use Rattle.pb_program.specs.declared.rule.RuleKind.TheVariants as kind;
ghost use Rattle.pb_model.specs.Equations.{own_outcome};
ghost use Rattle.pb_taskgraph.specs.Turns.{after_some};
ghost use Rattle.pb_eval.specs.CanRun.{at_variables};
ghost use Rattle.pb_eval.specs.FirstCells.{AreOfCells};
ghost use Rattle.pb_eval.specs.Moving.{cells_at};
ghost use Rattle.pb_eval.specs.Sums.{StandsInFor};
ghost use Rattle.pb_jobs.specs.Advances.{AreAdvances, AreShaped};
ghost use Rattle.pb_jobs.specs.Distances.{IsStep, step_in, way_on};
ghost use Rattle.pb_jobs.specs.Instances.{CanRunRule, IsReady, given_by, of_sizes, of_transform};
ghost use Rattle.pb_jobs.specs.Jobs.{AreMadeHere};
ghost use Rattle.pb_jobs.specs.Lines.{AreTermsOf, ReadFrom};
ghost use Rattle.pb_jobs.specs.Rooms.{HasRoomIn, SameRoom};
ghost use Rattle.pb_jobs.specs.Shown.{AreShown, AreWindows};
ghost use Rattle.pb_walk.specs.Stretches.{place_on};

use crate::advance::Distance;
use crate::instance::Instance;
use crate::scratch::RuleScratch;
use pb_eval::{Along, Moving, Terms, run_sum, run_terms};
use pb_linear::Sign;
use pb_program::Read;
use pb_taskgraph::CellPort;
use pb_values::{CellReader, Outcome, View};
use pb_views::Window;
use pb_walk::Stretch;

/// Where the cells of a line are, which are made one after another.
fn own_cells(view: &View, stretch: &Stretch) -> Moving
    requires some { 0 < stretch.now.count }
    requires inside { IsInside view.now.shape (place_on stretch.now 0).x (place_on stretch.now 0).y }
    ensures first { result.from ≡ cell_of view.now (place_on stretch.now 0).x (place_on stretch.now 0).y }
    ensures by { IsStep (way_on stretch.now.sign (step_in stretch.now.down view.now)) result.by }
{
    let (x, y) = stretch.place(0);
    let step = if stretch.down {
        view.step_y
    } else {
        view.step_x
    };
    let far = match stretch.sign {
        Sign::Plus => Distance::Up(step),
        Sign::Minus => Distance::Down(step),
    };
    Moving {
        from: view.place(x, y),
        by: far.step(),
    }
}

impl<'a> Instance<'a> {
    /// The outcome of a cell by the terms of its rule's formula, where what the rule reads begins at these cells and nothing that is
    /// told is trapped.
    fn by_cells<C: CellReader>(
        &self,
        terms: &Terms,
        rule: u32,
        x: u64,
        y: u64,
        cells: &Along<'_>,
        port: &mut C,
    ) -> Outcome
        requires ready { IsReady self.now }
        requires can { CanRunRule self.now rule x y (C.turn port.old) }
        requires one { (r : ProgRule) → slice_get (of_transform self.now).rules rule ≡ Some r → r.kind ≡ kind.Cell }
        requires untrapped { HasNoTrap (C.turn port.old) }
        requires terms { AreTermsOf self.now rule terms.now }
        requires of_cells { AreOfCells (length cells.now) terms.now }
        requires from { ReadFrom self.now rule x y cells.now }
        ensures outcome { (r : ProgRule) → slice_get (of_transform self.now).rules rule ≡ Some r
            → result ≡ own_outcome (of_transform self.now).matrices (of_sizes self.now) (at_variables x y) r (given_by self.now rule r x y (C.turn port.old)) }
        ensures stays { C.turn port.new ≡ C.turn port.old }
    {
        run_terms(terms, self.transform_number(), rule, x, y, cells, port)
    }

    /// The outcome of a cell by the body of its rule, over views that are shown anew.
    fn by_shown<C: CellReader>(
        &self,
        rule: u32,
        x: u64,
        y: u64,
        port: &mut C,
        scratch: &mut RuleScratch,
    ) -> Outcome
        requires ready { IsReady self.now }
        requires can { CanRunRule self.now rule x y (C.turn port.old) }
        requires one { (r : ProgRule) → slice_get (of_transform self.now).rules rule ≡ Some r → r.kind ≡ kind.Cell }
        requires room { HasRoomIn self.now rule scratch.old.body }
        ensures outcome { (r : ProgRule) → slice_get (of_transform self.now).rules rule ≡ Some r
            → result ≡ own_outcome (of_transform self.now).matrices (of_sizes self.now) (at_variables x y) r (given_by self.now rule r x y (C.turn port.old)) }
        ensures room { SameRoom scratch.old.body scratch.new.body }
        ensures stays { C.turn port.new ≡ C.turn port.old }
        ensures terms { scratch.new.terms ≡ scratch.old.terms }
        ensures advances { scratch.new.shown.advances ≡ scratch.old.shown.advances }
        ensures cells { scratch.new.shown.cells ≡ scratch.old.shown.cells }
        ensures sum { scratch.new.sum ≡ scratch.old.sum }
    {
        let shown = &mut scratch.shown;
        shown.show(
            self.reads(rule),
            self.read_windows(rule),
            self.views(),
            x,
            y,
        );
        self.by_body(rule, x, y, &shown.views, port, &mut scratch.body)
    }

    /// The outcome of the cell at a place of a line, which is counted from 0: by the terms, or by the body where the port doesn't say that
    /// nothing is trapped.
    fn line_cell<C: CellReader>(
        &self,
        rule: u32,
        place: u64,
        x: u64,
        y: u64,
        port: &mut C,
        scratch: &mut RuleScratch,
    ) -> Outcome
        requires ready { IsReady self.now }
        requires can { CanRunRule self.now rule x y (C.turn port.old) }
        requires one { (r : ProgRule) → slice_get (of_transform self.now).rules rule ≡ Some r → r.kind ≡ kind.Cell }
        requires room { HasRoomIn self.now rule scratch.old.body }
        requires terms { AreTermsOf self.now rule scratch.old.terms }
        requires of_cells { AreOfCells (length scratch.old.shown.cells.items) scratch.old.terms }
        requires from { ReadFrom self.now rule x y (cells_at scratch.old.shown.cells.items place) }
        ensures outcome { (r : ProgRule) → slice_get (of_transform self.now).rules rule ≡ Some r
            → result ≡ own_outcome (of_transform self.now).matrices (of_sizes self.now) (at_variables x y) r (given_by self.now rule r x y (C.turn port.old)) }
        ensures room { SameRoom scratch.old.body scratch.new.body }
        ensures stays { C.turn port.new ≡ C.turn port.old }
        ensures terms { scratch.new.terms ≡ scratch.old.terms }
        ensures advances { scratch.new.shown.advances ≡ scratch.old.shown.advances }
        ensures cells { scratch.new.shown.cells ≡ scratch.old.shown.cells }
        ensures sum { scratch.new.sum ≡ scratch.old.sum }
    {
        if port.is_untrapped() {
            let shown = &scratch.shown;
            let cells = Along {
                cells: &shown.cells,
                place,
            };
            return self.by_cells(&scratch.terms, rule, x, y, &cells, port);
        }
        self.by_shown(rule, x, y, port, scratch)
    }

    /// The number of a cell at a place of a line, by the sum that stands in for the terms of its rule's formula; none tells nothing.
    #[inline(always)]
    fn by_sum<C: CellReader>(
        &self,
        rule: u32,
        place: u64,
        x: u64,
        y: u64,
        port: &mut C,
        scratch: &RuleScratch,
    ) -> Option<i64>
        requires ready { IsReady self.now }
        requires can { CanRunRule self.now rule x y (C.turn port.old) }
        requires one { (r : ProgRule) → slice_get (of_transform self.now).rules rule ≡ Some r → r.kind ≡ kind.Cell }
        requires terms { AreTermsOf self.now rule scratch.now.terms }
        requires of_cells { AreOfCells (length scratch.now.shown.cells.items) scratch.now.terms }
        requires from { ReadFrom self.now rule x y (cells_at scratch.now.shown.cells.items place) }
        requires sum { StandsInFor scratch.now.shown.cells.items scratch.now.terms scratch.now.sum }
        ensures outcome { IfSome result (λ n. (r : ProgRule) → slice_get (of_transform self.now).rules rule ≡ Some r
            → Value n ≡ own_outcome (of_transform self.now).matrices (of_sizes self.now) (at_variables x y) r (given_by self.now rule r x y (C.turn port.old))) }
        ensures stays { C.turn port.new ≡ C.turn port.old }
    {
        if !scratch.sum.is_known() {
            return None;
        }
        if !port.is_untrapped() {
            return None;
        }
        run_sum(&scratch.sum, place, port)
    }

    /// Makes the cells of a line by the terms of their rule's formula, which are numbers and first cells of reads alone, where it is
    /// known how what the rule reads moves along the line.
    pub(crate) fn run_line<C: CellPort>(
        &self,
        rule: u32,
        reads: &[Read],
        windows: &[Window],
        stretch: &Stretch,
        port: &mut C,
        scratch: &mut RuleScratch,
    )
        requires ready { IsReady self.now }
        requires some { 0 < stretch.now.count }
        requires made { AreMadeHere self.now rule (C.turn port.old) stretch.now }
        requires reads { (r : ProgRule) → slice_get (of_transform self.now).rules rule ≡ Some r → reads.now ≡ r.reads }
        requires windows { (r : ProgRule) → slice_get (of_transform self.now).rules rule ≡ Some r → AreWindows (of_sizes self.now) r.reads windows.now }
        requires room { HasRoomIn self.now rule scratch.old.body }
        requires terms { AreTermsOf self.now rule scratch.old.terms }
        requires of_cells { AreOfCells (length reads.now) scratch.old.terms }
        requires shown { AreShown self.now.views (place_on stretch.now 0).x (place_on stretch.now 0).y reads.now windows.now (length reads.now) scratch.old.shown.views.items }
        requires advances { AreAdvances self.now.views stretch.now reads.now windows.now (length reads.now) scratch.old.shown.advances.items }
        requires shaped { AreShaped scratch.old.shown.advances.items scratch.old.shown.views.items }
        ensures written { C.turn port.new ≡ after_some stretch.now.count (C.turn port.old) }
        ensures room { SameRoom scratch.old.body scratch.new.body }
    {
        let matrices = self.views();
        let view = matrices[stretch.base as usize];
        let own = own_cells(&view, stretch);
        scratch.shown.begin_cells();
        scratch.sum.take(&scratch.terms, &scratch.shown.cells);
        for i in 0..stretch.count {
            let (x, y) = stretch.place(i);
            let cell = own.at(i);
            if let Some(n) = self.by_sum(rule, i, x, y, port, scratch) {
                port.write(cell, Outcome::Value(n));
            } else {
                let outcome = self.line_cell(rule, i, x, y, port, scratch);
                port.write(cell, outcome);
            }
        }
    }
}
