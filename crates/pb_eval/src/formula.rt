ghost use Rattle.std.specs.Prelude.{◌≡◌, ◌<◌, ◌^◌, ◌≤◌, IfNone, IfSome, IsTrue, List, is_some, length, ℕ};
ghost use Rattle.std.specs.List.{All};
ghost use Rattle.pb_linear.specs.Sizes.{sizes_of};
ghost use Rattle.pb_linear.specs.declared.sizes.Sizes.{Sizes as SizesValue};
ghost use Rattle.pb_values.specs.Cells.{HasNoTrap};
ghost use Rattle.pb_values.specs.declared.view.View.{View as Seen};
ghost use Rattle.pb_program.specs.Forms.{DeclValue};
ghost use Rattle.pb_program.specs.Trees.{ProgRule, bare_rule};
ghost use Rattle.pb_program.specs.declared.expression.Expr.{Expr as Held};
ghost use Rattle.pb_program.specs.declared.rule.RuleKind.TheVariants as kind;
ghost use Rattle.pb_model.specs.Equations.{own_outcome, rule_gives};
ghost use Rattle.pb_eval.specs.CanRun.{AreReads, IsRunnable, at_variables};
ghost use Rattle.pb_eval.specs.FirstCells.{AreOfCells, BeginAt};
ghost use Rattle.pb_eval.specs.Formulas.{IsFormula};
ghost use Rattle.pb_statements.specs.Stored.{IsBlank, bound, store_of};
ghost use Rattle.pb_statements.specs.Shown.{IsTold, seen_by};
ghost use Rattle.pb_eval.specs.Moving.{cells_at};
ghost use Rattle.pb_eval.specs.Sums.{IsSumOf, IsToldAt};
ghost use Rattle.pb_eval.specs.Terms.{StandFor, TermsValue};
ghost use Rattle.pb_eval.specs.declared.moving.Moving.{Moving as Moves};
ghost use Rattle.pb_values.specs.declared.outcome.Outcome.TheVariants.{Value};
ghost use Rattle.pb_statements.specs.Working.{value_in};

use crate::cells::cells_value;
use crate::chain::chain_value;
use crate::moving::Along;
use crate::place::body_of_rule;
use crate::sum::{Sum, small_sum};
use crate::terms::Terms;
use crate::traps::first_trap;
use pb_linear::{SIZE_TOP, Sizes};
use pb_numbers::KindWord;
use pb_program::{Expr, Meaning, Rule, Stmt};
use pb_statements::{NamesTurn, Port, Scene, Scratch};
use pb_values::{CellReader, Outcome, Trap, View};
use std::marker::{Brand, PhantomData};

/// The expression that a rule's body assigns to the first output, by its name, where the body does only that; none for any other body.
pub fn formula_of(rule: &Rule) -> Option<&Expr>
    ensures found { IfSome result (λ e. IsFormula (bare_rule rule.now) e.now) }
    ensures none { IfNone result ((e : Held) → IsFormula (bare_rule rule.now) e → ⊥) }
{
    let [only] = body_of_rule(rule) else {
        return None;
    };
    let Stmt::Assign { target, value } = only else {
        return None;
    };
    match target.what {
        Meaning::Output(0) => Some(value),
        _ => None,
    }
}

/// The value of a formula, by its terms where they are whole.
fn formula_value<C: CellReader, N: NamesTurn>(
    scene: &Scene<N>,
    e: &Expr,
    terms: &Terms,
    scratch: &Scratch,
    port: &mut Port<C, N>,
) -> Result<i64, KindWord>
    requires terms { StandFor e.now terms.now }
    ensures value { result ≡ value_in (bound scene.now scratch.now) (store_of scratch.now) e.now }
    ensures same_reference { port.new.reader.ghost_name ≡ port.old.reader.ghost_name }
{
    if terms.is_whole {
        return chain_value(scene, terms, scratch, port);
    }
    scene.value(e, scratch, port)
}

/// The outcome of a cell by a formula, for a reader that tells just that.
fn outcome_by<C: CellReader, N: NamesTurn>(
    e: &Expr,
    terms: &Terms,
    t: u32,
    r: u32,
    s: &Sizes,
    x: u64,
    y: u64,
    views: &[View],
    port: &mut C,
    scratch: &Scratch,
) -> Outcome
    requires turn { C.turn port.old ≡ N.turn }
    requires sizes { All (λ size. size ≤ SIZE_TOP) s.now.of }
    requires x { x < 2 ^ 63 }
    requires y { y < 2 ^ 63 }
    requires told { All (IsTold N.turn) views.now }
    requires blank { IsBlank scratch.now }
    requires terms { StandFor e.now terms.now }
    ensures outcome { (matrices : List DeclValue) (rule : ProgRule) → IsRunnable matrices rule → rule.kind ≡ kind.Cell → IsFormula rule e.now
        → AreReads matrices (sizes_of s.now) (at_variables x y) rule views.now N.turn
        → result ≡ own_outcome matrices (sizes_of s.now) (at_variables x y) rule (rule_gives matrices (sizes_of s.now) (at_variables x y) t r rule (seen_by N.turn views.now)) }
    ensures stays { C.turn port.new ≡ C.turn port.old }
{
    let mut told = Port::<C, N> {
        reader: port,
        of: PhantomData,
    };
    if let Some(trap) = first_trap(views, &mut told) {
        return Outcome::Trapped(trap);
    }
    let scene = Scene::<N> {
        sizes: s,
        x,
        y,
        views,
        of: PhantomData,
    };
    match formula_value(&scene, e, terms, scratch, &mut told) {
        Ok(n) => Outcome::Value(n),
        Err(kind) => Outcome::Trapped(Trap {
            kind: kind.kind(),
            transform: t,
            rule: r,
            x,
            y,
        }),
    }
}

/// The outcome of a cell by rule `r` of transform `t`, a rule for single cells with the formula `e`, over a view for each of its
/// reads. Sizes are at most `SIZE_TOP`, the rule variables below 2^63; the views have sides of at most `MOST_SIDE`, and the reader
/// tells each of their cells; the scratch is as `begin_cell` leaves it, and `terms` has
/// taken the formula.
pub fn run_formula<C: CellReader>(
    e: &Expr,
    terms: &Terms,
    t: u32,
    r: u32,
    s: &Sizes,
    x: u64,
    y: u64,
    views: &[View],
    port: &mut C,
    scratch: &Scratch,
) -> Outcome
    requires sizes { All (λ size. size ≤ SIZE_TOP) s.now.of }
    requires x { x < 2 ^ 63 }
    requires y { y < 2 ^ 63 }
    requires told { All (IsTold (C.turn port.old)) views.now }
    requires blank { IsBlank scratch.now }
    requires terms { StandFor e.now terms.now }
    ensures outcome { (matrices : List DeclValue) (rule : ProgRule) → IsRunnable matrices rule → rule.kind ≡ kind.Cell → IsFormula rule e.now
        → AreReads matrices (sizes_of s.now) (at_variables x y) rule views.now (C.turn port.old)
        → result ≡ own_outcome matrices (sizes_of s.now) (at_variables x y) rule (rule_gives matrices (sizes_of s.now) (at_variables x y) t r rule (seen_by (C.turn port.old) views.now)) }
    ensures stays { C.turn port.new ≡ C.turn port.old }
{
    outcome_by::<C, Brand>(e, terms, t, r, s, x, y, views, port, scratch)
}

/// The outcome of a cell by terms, over the first cells of its reads, for a reader that tells just that, and no trap.
fn outcome_of<C: CellReader, N: NamesTurn>(
    terms: &Terms,
    t: u32,
    r: u32,
    x: u64,
    y: u64,
    cells: &Along<'_>,
    port: &mut C,
) -> Outcome
    requires turn { C.turn port.old ≡ N.turn }
    requires untrapped { HasNoTrap N.turn }
    requires told { All (λ c. IsTrue (is_some (N.turn.outcomes c))) cells.now }
    requires terms { AreOfCells (length cells.now) terms.now }
    ensures outcome { (matrices : List DeclValue) (sizes : SizesValue) (rule : ProgRule) (e : Held) (views : List Seen) → IsRunnable matrices rule → rule.kind ≡ kind.Cell → IsFormula rule e → StandFor e terms.now
        → BeginAt cells.now views → AreReads matrices (sizes_of sizes) (at_variables x y) rule views N.turn
        → result ≡ own_outcome matrices (sizes_of sizes) (at_variables x y) rule (rule_gives matrices (sizes_of sizes) (at_variables x y) t r rule (seen_by N.turn views)) }
    ensures stays { C.turn port.new ≡ C.turn port.old }
{
    let mut told = Port::<C, N> {
        reader: port,
        of: PhantomData,
    };
    match cells_value(terms, cells, &mut told) {
        Ok(n) => Outcome::Value(n),
        Err(kind) => Outcome::Trapped(Trap {
            kind: kind.kind(),
            transform: t,
            rule: r,
            x,
            y,
        }),
    }
}

/// The outcome of a cell by rule `r` of transform `t`, a rule for single cells whose formula has these terms: at most 16, numbers and
/// first cells of reads alone. There is one cell for each read: no read is empty, and each begins at its cell. The reader tells
/// each of these cells, and nothing that it tells is trapped.
pub fn run_terms<C: CellReader>(
    terms: &Terms,
    t: u32,
    r: u32,
    x: u64,
    y: u64,
    cells: &Along<'_>,
    port: &mut C,
) -> Outcome
    requires untrapped { HasNoTrap (C.turn port.old) }
    requires told { All (λ c. IsTrue (is_some ((C.turn port.old).outcomes c))) cells.now }
    requires terms { AreOfCells (length cells.now) terms.now }
    ensures outcome { (matrices : List DeclValue) (sizes : SizesValue) (rule : ProgRule) (e : Held) (views : List Seen) → IsRunnable matrices rule → rule.kind ≡ kind.Cell → IsFormula rule e → StandFor e terms.now
        → BeginAt cells.now views → AreReads matrices (sizes_of sizes) (at_variables x y) rule views (C.turn port.old)
        → result ≡ own_outcome matrices (sizes_of sizes) (at_variables x y) rule (rule_gives matrices (sizes_of sizes) (at_variables x y) t r rule (seen_by (C.turn port.old) views)) }
    ensures stays { C.turn port.new ≡ C.turn port.old }
{
    outcome_of::<C, Brand>(terms, t, r, x, y, cells, port)
}

/// The sum at a place of a line, for a reader that tells just that, and no trap.
fn sum_at<C: CellReader, N: NamesTurn>(sum: &Sum, place: u64, port: &mut C) -> Option<i64>
    requires turn { C.turn port.old ≡ N.turn }
    requires untrapped { HasNoTrap N.turn }
    requires few { length sum.now.rest ≤ 15 }
    requires told { IsToldAt N.turn place sum.now }
    ensures outcome { IfSome result (λ n. (t r x y : ℕ) (ms : List Moves) (terms : TermsValue) (matrices : List DeclValue) (sizes : SizesValue) (rule : ProgRule) (e : Held) (views : List Seen) → IsSumOf ms terms sum.now → IsTrue terms.is_whole
        → IsRunnable matrices rule → rule.kind ≡ kind.Cell → IsFormula rule e → StandFor e terms → BeginAt (cells_at ms place) views → AreReads matrices (sizes_of sizes) (at_variables x y) rule views N.turn
        → Value n ≡ own_outcome matrices (sizes_of sizes) (at_variables x y) rule (rule_gives matrices (sizes_of sizes) (at_variables x y) t r rule (seen_by N.turn views))) }
    ensures stays { C.turn port.new ≡ C.turn port.old }
{
    let mut told = Port::<C, N> {
        reader: port,
        of: PhantomData,
    };
    small_sum(sum, place, &mut told)
}

/// The number of a cell by a rule for single cells, where a sum stands in for the terms of its formula, and its reads begin at the cells of
/// the sum at a place of the line; none tells nothing. The reader tells each of these cells, and nothing that it tells is trapped.
pub fn run_sum<C: CellReader>(sum: &Sum, place: u64, port: &mut C) -> Option<i64>
    requires untrapped { HasNoTrap (C.turn port.old) }
    requires few { length sum.now.rest ≤ 15 }
    requires told { IsToldAt (C.turn port.old) place sum.now }
    ensures outcome { IfSome result (λ n. (t r x y : ℕ) (ms : List Moves) (terms : TermsValue) (matrices : List DeclValue) (sizes : SizesValue) (rule : ProgRule) (e : Held) (views : List Seen) → IsSumOf ms terms sum.now → IsTrue terms.is_whole
        → IsRunnable matrices rule → rule.kind ≡ kind.Cell → IsFormula rule e → StandFor e terms → BeginAt (cells_at ms place) views → AreReads matrices (sizes_of sizes) (at_variables x y) rule views (C.turn port.old)
        → Value n ≡ own_outcome matrices (sizes_of sizes) (at_variables x y) rule (rule_gives matrices (sizes_of sizes) (at_variables x y) t r rule (seen_by (C.turn port.old) views))) }
    ensures stays { C.turn port.new ≡ C.turn port.old }
{
    sum_at::<C, Brand>(sum, place, port)
}
