//! Bodies of cell rules and of rules for regions, run for a cell.
ghost use Rattle.std.specs.Prelude.{◌≡◌, ◌≢◌, ◌≤◌, ℕ, IfSome, IsTrue, List, Some, map, slice_get};
ghost use Rattle.std.specs.List.{All};
ghost use Rattle.pb_linear.specs.Sizes.{sizes_of};
ghost use Rattle.pb_program.specs.declared.rule.RuleKind.TheVariants as kind;
ghost use Rattle.pb_program.specs.Trees.{bare_prog, bare_rule, bare_transform};
ghost use Rattle.pb_program.specs.WellFormed.{IsWellFormed};
ghost use Rattle.pb_model.specs.Cells.{Cell};
ghost use Rattle.pb_model.specs.Equations.{view_sides};
ghost use Rattle.pb_values.specs.declared.outcome.Outcome.{Outcome};
ghost use Rattle.pb_values.specs.declared.shape.TheConstants.{MOST_SIDE};
ghost use Rattle.pb_linear.specs.declared.sizes.TheConstants.{SIZE_TOP};
ghost use Rattle.pb_eval.specs.CanRun.{AreReads, IsRunnable, OfRule, shape_sides};
ghost use Rattle.pb_statements.specs.Stored.{outs_of};
ghost use Rattle.pb_instance_trials.specs.Tables.{told_by};

use crate::programs::{accepted, are_small, one, program};
use pb_check::Accepted;
use pb_eval::{Scratch, locals_room, outs_room, run_body};
use pb_linear::Sizes;
use pb_program::{Decl, Prog, Read, ReadView, Rule, RuleKind, Transform};
use pb_values::{CellReader, Kind, MOST_SIDE, Outcome, Shape, Trap, View};
use pb_views::shape_of;
use std::alloc::{AllocError, Global};
use std::test::Fail;

/// Tells outcomes by a table, 0 past its end.
#[derive(Drop)]
struct Table {
    outcomes: Vec<Outcome>,
}

impl CellReader for Table {
    ghost turn = { λ t. told_by t.outcomes.items };

    fn read(&mut self, cell: u64) -> Outcome {
        match self.outcomes.get(cell as usize) {
            Some(outcome) => *outcome,
            None => Outcome::Value(0),
        }
    }
}

fn has_sides(view: &View, w: u64, h: u64) -> bool
    ensures { IsTrue result → shape_sides view.now ≡ (w, h) }
{
    if view.shape.w != w {
        return false;
    }
    view.shape.h == h
}

// Whether a view has the sides of a read of a cell or of a whole matrix.
#[tactic(auto, using(crate::proofs::BodyLemmas::cell_fits, crate::proofs::BodyLemmas::whole_fits))]
fn fits(read: &Read, matrices: &[Decl], s: &Sizes, view: &View) -> bool
    requires { All (λ size. size ≤ SIZE_TOP) s.now.of }
    ensures { IsTrue result → (c : Cell) → shape_sides view.now ≡ view_sides matrices.now (sizes_of s.now) c read.now }
{
    if read.matrix as usize >= matrices.len() {
        return false;
    }
    let shape = shape_of(&matrices[read.matrix as usize], s);
    match read.view {
        ReadView::Cell => has_sides(view, 1, 1),
        ReadView::Whole => has_sides(view, shape.w, shape.h),
        _ => false,
    }
}

fn are_short(views: &[View]) -> bool
    ensures { IsTrue result → All (λ v. (v.shape.w ≤ MOST_SIDE) × (v.shape.h ≤ MOST_SIDE)) views.now }
{
    views.iter().all(|view| view.shape.w <= MOST_SIDE && view.shape.h <= MOST_SIDE)
}

// Whether two views have the sides of the reads of a rule.
#[tactic(auto, using(crate::proofs::BodyLemmas::two_fit))]
fn both_fit(reads: &[Read], matrices: &[Decl], s: &Sizes, views: &[View]) -> bool
    requires { All (λ size. size ≤ SIZE_TOP) s.now.of }
    ensures { IsTrue result → (c : Cell) → map shape_sides views.now ≡ map (view_sides matrices.now (sizes_of s.now) c) reads.now }
{
    let [first, second] = reads else {
        return false;
    };
    let [one, other] = views else {
        return false;
    };
    if !fits(first, matrices, s, one) {
        return false;
    }
    fits(second, matrices, s, other)
}

fn reads_of(rule: &Rule) -> &[Read]
    ensures { result.now ≡ (bare_rule rule.now).reads }
{
    rule.reads.as_slice()
}

fn matrices_of(transform: &Transform) -> &[Decl]
    ensures { result.now ≡ (bare_transform transform.now).matrices }
{
    transform.matrices.as_slice()
}

// Whether a rule computes.
fn computes(rule: &Rule) -> bool
    ensures { IsTrue result → (bare_rule rule.now).kind ≢ kind.Plan }
{
    match rule.kind {
        RuleKind::Cell | RuleKind::Wide => true,
        RuleKind::Plan => false,
    }
}

// Whether the views are the reads of a rule that computes.
#[tactic(auto, using(crate::proofs::BodyLemmas::are_reads))]
fn suits(transform: &Transform, rule: &Rule, s: &Sizes, views: &[View]) -> bool
    requires { All (λ size. size ≤ SIZE_TOP) s.now.of }
    ensures computes { IsTrue result → (bare_rule rule.now).kind ≢ kind.Plan }
    ensures reads { IsTrue result → (c : Cell) (outcomes : List Outcome) → AreReads (bare_transform transform.now).matrices (sizes_of s.now) c (bare_rule rule.now) views.now (told_by outcomes) }
{
    if !computes(rule) {
        return false;
    }
    if !are_short(views) {
        return false;
    }
    both_fit(reads_of(rule), matrices_of(transform), s, views)
}

#[tactic(auto, using(pb_eval::proofs::HeldLemmas::held_at))]
fn first_transform(p: &Prog) -> Option<&Transform>
    ensures { IfSome result (λ x. slice_get (bare_prog p.now) 0 ≡ Some (bare_transform x.now)) }
{
    p.transforms.get(0)
}

#[tactic(auto, using(pb_eval::proofs::HeldLemmas::held_at))]
fn first_rule(transform: &Transform) -> Option<&Rule>
    ensures { IfSome result (λ x. slice_get (bare_transform transform.now).rules 0 ≡ Some (bare_rule x.now)) }
{
    transform.rules.get(0)
}

// Whether the first rule of the first transform can be run over these views.
#[tactic(auto, using(crate::proofs::BodyLemmas::can_run, pb_eval::proofs::HeldLemmas::of_rule))]
fn can_be_run(p: &Prog, s: &Sizes, views: &[View]) -> bool
    requires well_formed { IsWellFormed (bare_prog p.now) }
    requires sizes { All (λ size. size ≤ SIZE_TOP) s.now.of }
    ensures runnable { IsTrue result → OfRule (bare_prog p.now) 0 0 (λ transform rule. IsRunnable transform.matrices rule) }
    ensures reads { IsTrue result → (c : Cell) (outcomes : List Outcome) → OfRule (bare_prog p.now) 0 0 (λ transform rule. AreReads transform.matrices (sizes_of s.now) c rule views.now (told_by outcomes)) }
{
    let Some(transform) = first_transform(p) else {
        return false;
    };
    let Some(rule) = first_rule(transform) else {
        return false;
    };
    suits(transform, rule, s, views)
}

fn word(kind: Kind) -> &'static str {
    match kind {
        Kind::Overflow => "overflow",
        Kind::DivideByZero => "divide by zero",
        Kind::OutOfView => "out of view",
        Kind::LoopLimit => "loop limit",
        Kind::BadShape => "bad shape",
        Kind::DepthEnded => "depth ended",
    }
}

fn trap_text(alloc: Global, trap: Trap) -> Result<String, AllocError> {
    let (kind, transform, rule, x, y) = (
        word(trap.kind),
        trap.transform,
        trap.rule,
        trap.x,
        trap.y,
    );
    format!(in alloc; "{kind} by {transform} {rule} at {x} {y}")
}

fn numbers(alloc: Global, scratch: &Scratch, count: u64) -> Result<String, AllocError>
    requires { count ≤ outs_of scratch.now }
{
    let mut text = String::new(alloc);
    for k in 0..count {
        let number = scratch.out(k);
        text.push_str(format!(in alloc; "{number} ")?.as_str())?;
    }
    Ok(text)
}

// The numbers of the first rule of the first transform at (x, y), or its trap; nothing where it can't be run.
fn run(
    alloc: Global,
    a: &Accepted,
    s: &Sizes,
    x: u32,
    y: u32,
    views: &[View],
    table: &mut Table,
) -> Result<String, AllocError> {
    let p = program(a);
    if !are_small(s) || !can_be_run(p, s, views) {
        return Ok(String::new(alloc));
    }
    let (locals, outs) = (locals_room(p, 0, 0), outs_room(p, 0, 0, s));
    if outs > 100 {
        return Ok(String::new(alloc));
    }
    let mut scratch = Scratch::new(alloc, locals, outs)?;
    match run_body(
        p,
        0,
        0,
        s,
        u64::from(x),
        u64::from(y),
        views,
        table,
        &mut scratch,
    ) {
        Ok(count) => numbers(alloc, &scratch, count.min(outs)),
        Err(trap) => trap_text(alloc, trap),
    }
}

const MOST: i64 = 9_223_372_036_854_775_807;

// Numbers, and a cell whose outcome is a trap.
fn outcomes_of(alloc: Global, numbers: &[i64], trapped: Option<Trap>) -> Result<Table, AllocError> {
    let mut outcomes = Vec::new(alloc);
    for number in numbers {
        outcomes.push(Outcome::Value(*number))?;
    }
    if let Some(trap) = trapped {
        outcomes.push(Outcome::Trapped(trap))?;
    }
    Ok(Table { outcomes })
}

fn line(first: u16, w: u16) -> View {
    View::whole(
        u64::from(first),
        Shape {
            dims: 1,
            w: u64::from(w),
            h: 1,
        },
    )
}

// What a body of a rule for `B` gives at x = 2, where n is 3 and `A` is 10, 20, 30, and `c` is the last number of all.
fn given(alloc: Global, to: &str, body: &str) -> Result<String, AllocError> {
    let text = format!(in alloc;
        "transform T from A[n] to B[n] {{ to ({to} b) from (A a, A.cell(2) c) {{ {body} }} secondary to (B.cell(i) b) from () {{ }} }}"
    )?;
    let Some(a) = accepted(alloc, text.as_str())? else {
        return format!(in alloc; "refused");
    };
    let mut cells = outcomes_of(alloc, &[10, 20, 30, MOST], None)?;
    run(
        alloc,
        &a,
        &one(3),
        2,
        0,
        &[line(0, 3), line(3, 1)],
        &mut cells,
    )
}

// A body of a rule for a cell `i`, and what it gives.
const CELLS: [(&str, &str); 16] = [
    ("b = sum(a) * i;", "120 "),
    (
        "let s = 1; for (k = 0 .. n) { s = s * a.cell(k) + k; } b = s;",
        "6032 ",
    ),
    (
        "if (i == 2 && c > 0) { b = dot(a, a); } else { b = 1; }",
        "1400 ",
    ),
    (
        "b = min(a.cell(0), -7) / 2 + max(7, 3) % 4 - abs(-5);",
        "-5 ",
    ),
    ("b = -c - 1;", "-9223372036854775808 "),
    ("b = c + 1;", "overflow by 0 0 at 2 0"),
    ("b = sum(a) / (i - 2);", "divide by zero by 0 0 at 2 0"),
    ("b = a.cell(n);", "out of view by 0 0 at 2 0"),
    ("b = a.cell(-1);", "out of view by 0 0 at 2 0"),
    ("for (k = 0 .. 1048576) { b = b + 1; }", "1048576 "),
    (
        "for (k = 0 .. 1048577) { b = b + 1; }",
        "loop limit by 0 0 at 2 0",
    ),
    ("for (k = 5 .. 5) { b = 1 / 0; }", "0 "),
    // From left to right, and no further than needed.
    ("b = c + 1 + 1 / 0;", "overflow by 0 0 at 2 0"),
    ("b = a.cell(1 / 0 + c + 1);", "divide by zero by 0 0 at 2 0"),
    ("if (i > 5 && 1 / 0 > 0) { b = 1; } else { b = 2; }", "2 "),
    ("if (i < 5 || 1 / 0 > 0) { b = 3; }", "3 "),
];

#[test]
fn a_cell_gets_its_number_or_the_first_trap(rt: HostRuntime) -> Result<(), Fail> {
    let alloc = rt.alloc();
    for (body, expected) in &CELLS {
        let found = given(alloc, "B.cell(i)", body)?;
        assert!(rt; found.as_str() == *expected, "{body}: {found}");
    }
    Ok(())
}

// A body of a rule for the cells from the second on, and what it gives.
const REGIONS: [(&str, &str); 7] = [
    (
        "for (k = 0 .. b.width()) { b.cell(k) = a.cell(n - 1 - k); }",
        "30 20 ",
    ),
    ("b.cell(1) = 7; b.cell(0) = b.cell(1) + b.cell(0);", "7 7 "),
    ("", "0 0 "),
    ("b.cell(2) = 1;", "out of view by 0 0 at 1 0"),
    ("b.cell(2) = 1 / 0;", "divide by zero by 0 0 at 1 0"),
    ("b.cell(0) = dot(a, b);", "bad shape by 0 0 at 1 0"),
    ("b.cell(0) = dot(b, b) + sum(b);", "0 0 "),
];

#[test]
fn a_region_gets_its_numbers_row_by_row(rt: HostRuntime) -> Result<(), Fail> {
    let alloc = rt.alloc();
    for (body, expected) in &REGIONS {
        let found = given(alloc, "B.region(1, n)", body)?;
        assert!(rt; found.as_str() == *expected, "{body}: {found}");
    }
    Ok(())
}

#[test]
fn a_trap_that_is_read_is_the_rules_own(rt: HostRuntime) -> Result<(), Fail> {
    let alloc = rt.alloc();
    let Some(a) = accepted(
        alloc,
        "transform T from A[n] to B[n] { to (B.cell(i) b) from (A a, A.cell(0) c) { b = 1 / 0; } }",
    )?
    else {
        assert!(rt; false, "the program is refused");
        return Ok(());
    };
    let trap = Trap {
        kind: Kind::DepthEnded,
        transform: 7,
        rule: 8,
        x: 9,
        y: 10,
    };
    let mut cells = outcomes_of(alloc, &[1, 2], Some(trap))?;
    let found = run(
        alloc,
        &a,
        &one(3),
        1,
        0,
        &[line(0, 3), line(0, 1)],
        &mut cells,
    )?;
    assert_eq!(rt; found.as_str(), "depth ended by 7 8 at 9 10");
    // Views of other sides aren't run.
    let other = run(
        alloc,
        &a,
        &one(3),
        1,
        0,
        &[line(0, 2), line(0, 1)],
        &mut cells,
    )?;
    assert_eq!(rt; other.as_str(), "");
    Ok(())
}
