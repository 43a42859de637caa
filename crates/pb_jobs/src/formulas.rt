ghost use Rattle.std.specs.Prelude.{◌≡◌, ◌<◌, IfSome, IsTrue, Some, is_some, length, slice_get};
ghost use Rattle.pb_program.specs.Trees.{ProgRule};
ghost use Rattle.pb_program.specs.declared.rule.RuleKind.TheVariants as kind;
ghost use Rattle.pb_model.specs.Equations.{own_outcome};
ghost use Rattle.pb_eval.specs.CanRun.{at_variables};
ghost use Rattle.pb_statements.specs.Stored.{IsBlank};
ghost use Rattle.pb_eval.specs.FirstCells.{AreOfCells};
ghost use Rattle.pb_eval.specs.Terms.{StandFor};
ghost use Rattle.pb_jobs.specs.Instances.{AreReadsOf, CanRunRule, HasFormula, IsReady, given_by, of_sizes, of_transform};
ghost use Rattle.pb_jobs.specs.Rooms.{HasRoomIn, SameRoom};

use crate::instance::Instance;
use pb_eval::{Scratch, Terms, formula_of, run_formula};
use pb_program::Expr;
use pb_values::{CellReader, Outcome, View};

impl<'a> Instance<'a> {
    /// The formula of the rule with this number, if one is found.
    fn formula(&self, rule: u32) -> Option<&Expr>
        requires { rule < length self.now.transform.rules }
        ensures { IfSome result (λ e. HasFormula self.now rule e.now) }
    {
        let transform = self.transform;
        formula_of(&transform.rules[rule as usize])
    }

    /// The formula of a rule for single cells, if one is found, for which the scratch then is ready.
    pub(crate) fn begin_formula(&self, rule: u32, scratch: &mut Scratch) -> Option<&Expr>
        requires ready { IsReady self.now }
        requires below { rule < length self.now.transform.rules }
        requires one { (r : ProgRule) → slice_get (of_transform self.now).rules rule ≡ Some r → r.kind ≡ kind.Cell }
        requires room { HasRoomIn self.now rule scratch.old }
        ensures formula { IfSome result (λ e. HasFormula self.now rule e.now) }
        ensures blank { IfSome result (λ e. IsBlank scratch.new) }
        ensures room { SameRoom scratch.old scratch.new }
    {
        let formula = self.formula(rule);
        if formula.is_some() {
            scratch.begin_cell();
        }
        formula
    }

    /// The outcome of a cell by a formula, over views of what its rule reads.
    fn by_formula<C: CellReader>(
        &self,
        e: &Expr,
        terms: &Terms,
        rule: u32,
        x: u64,
        y: u64,
        views: &[View],
        port: &mut C,
        scratch: &Scratch,
    ) -> Outcome
        requires ready { IsReady self.now }
        requires can { CanRunRule self.now rule x y (C.turn port.old) }
        requires one { (r : ProgRule) → slice_get (of_transform self.now).rules rule ≡ Some r → r.kind ≡ kind.Cell }
        requires formula { HasFormula self.now rule e.now }
        requires terms { StandFor e.now terms.now }
        requires shown { AreReadsOf self.now rule x y views.now }
        requires blank { IsBlank scratch.now }
        ensures outcome { (r : ProgRule) → slice_get (of_transform self.now).rules rule ≡ Some r
            → result ≡ own_outcome (of_transform self.now).matrices (of_sizes self.now) (at_variables x y) r (given_by self.now rule r x y (C.turn port.old)) }
        ensures stays { C.turn port.new ≡ C.turn port.old }
    {
        run_formula(
            e,
            terms,
            self.transform_number(),
            rule,
            self.sizes(),
            x,
            y,
            views,
            port,
            scratch,
        )
    }

    /// The outcome of a cell by a rule for single cells, by its formula where that is given, over views of what it reads.
    pub(crate) fn cell<C: CellReader>(
        &self,
        formula: Option<&Expr>,
        terms: &Terms,
        rule: u32,
        x: u64,
        y: u64,
        views: &[View],
        port: &mut C,
        scratch: &mut Scratch,
    ) -> Outcome
        requires ready { IsReady self.now }
        requires can { CanRunRule self.now rule x y (C.turn port.old) }
        requires one { (r : ProgRule) → slice_get (of_transform self.now).rules rule ≡ Some r → r.kind ≡ kind.Cell }
        requires formula { IfSome formula (λ e. HasFormula self.now rule e.now) }
        requires terms { IfSome formula (λ e. StandFor e.now terms.now) }
        requires shown { AreReadsOf self.now rule x y views.now }
        requires blank { IfSome formula (λ e. IsBlank scratch.old) }
        requires room { HasRoomIn self.now rule scratch.old }
        ensures outcome { (r : ProgRule) → slice_get (of_transform self.now).rules rule ≡ Some r
            → result ≡ own_outcome (of_transform self.now).matrices (of_sizes self.now) (at_variables x y) r (given_by self.now rule r x y (C.turn port.old)) }
        ensures blank { IfSome formula.entry (λ e. IsBlank scratch.new) }
        ensures room { SameRoom scratch.old scratch.new }
        ensures stays { C.turn port.new ≡ C.turn port.old }
    {
        match formula {
            Some(e) => self.by_formula(e, terms, rule, x, y, views, port, scratch),
            None => self.by_body(rule, x, y, views, port, scratch),
        }
    }
}

/// Takes the terms of a formula, if there is one.
pub(crate) fn take_terms(formula: Option<&Expr>, terms: &mut Terms)
    ensures { IfSome formula.entry (λ e. StandFor e.now terms.new) }
{
    if let Some(e) = formula {
        terms.take(e);
    }
}

/// True only where a line can be made by the terms of its rule's formula: it is known how what the rule reads moves, there is a formula,
/// and its terms need only the first cells of so many reads; and where that is worth it, since nothing is trapped as yet.
pub(crate) fn needs_cells_alone(
    moves: bool,
    untrapped: bool,
    formula: Option<&Expr>,
    terms: &Terms,
    reads: u64,
) -> bool
    ensures moves { IsTrue result → IsTrue moves }
    ensures formula { IsTrue result → IsTrue (is_some formula.entry) }
    ensures terms { IsTrue result → AreOfCells reads terms.now }
{
    moves && untrapped && formula.is_some() && terms.are_of_cells(reads)
}
