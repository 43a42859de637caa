//! A run over the words of a table, driven by hand, and in the machine of its events.
ghost use Rattle.std.specs.Prelude.{◌≡◌, ◌≤◌, IfOk, IfSome, IsTrue, length};
ghost use Rattle.std.specs.List.{All};
ghost use Rattle.pb_program.specs.Configs.{IsValid};
ghost use Rattle.pb_program.specs.Trees.{bare_prog};
ghost use Rattle.pb_region.specs.Dims.{HasTransform};
ghost use Rattle.pb_unroll.specs.Handed.{IsWhole};
ghost use Rattle.pb_cells.specs.Handles.{new_job};
ghost use Rattle.pb_instance_trials.specs.Driven.{AreTwo};

use crate::programs::{accepted, program};
use pb_cells::{Cells, Hand, Job};
use pb_check::Accepted;
use pb_config::{ConfigRefusal, read_config};
use pb_core::{Event, EventsRefusal, run_events};
use pb_matrix::{Matrix, MatrixRefusal, read_matrix};
use pb_program::Config;
use pb_taskgraph::{NamesWork, Work};
use pb_unroll::{Run, RunRefusal, unroll};
use pb_values::Outcome;
use std::alloc::{AllocError, Global};
use std::marker::Brand;
use std::test::Fail;

// Sums from the first cell on: each anew, or by the sum before it.
const ROLL: &str =
    "transform RollingSum from A[n] to B[n] { to (B.cell(i) b) from (A.region(0, i + 1) a) { b = sum(a); } \
to (B.cell(i) b) from (A.cell(i) a, B.cell(i - 1) l) { b = a + l; } }";

// Whether there are two tasks, and only the first releases one, the second.
fn are_two<W: Work>(work: &W) -> bool
    ensures { IsTrue result → AreTwo (W.plan work.now).graph }
{
    let [first, second] = work.graph().tasks() else {
        return false;
    };
    let [next] = first.after.as_slice() else {
        return false;
    };
    let [] = second.after.as_slice() else {
        return false;
    };
    *next == 1
}

// The outcomes of all cells, by a Job of the second task, which has written its own.
fn read<W: Work, N: NamesWork>(
    alloc: Global,
    work: &W,
    cells: &Cells<N>,
    job: &mut Job<N>,
) -> Result<String, AllocError>
    requires name { W.plan work.now ≡ N.plan }
    requires two { AreTwo N.plan.graph }
    requires table { job.old.table ≡ cells.now }
    requires task { job.old.at.task ≡ 1 }
    requires written { length (N.plan.order 1) ≤ job.old.at.written }
    ensures { job.new ≡ job.old }
{
    let mut text = String::new(alloc);
    for cell in 0..work.graph().cells() {
        match cells.read(job, cell) {
            Outcome::Value(value) => text.push_str(format!(in alloc; "{value}, ")?.as_str())?,
            Outcome::Trapped(_) => text.push_str("trap, ")?,
        }
    }
    Ok(text)
}

// A hand runs both tasks; the first one's release gives a Job of the second.
fn drive<W: Work, N: NamesWork>(
    alloc: Global,
    work: &W,
    cells: &Cells<N>,
    mut hand: Hand<N>,
    job: Job<N>,
) -> Result<String, AllocError>
    requires name { W.plan work.now ≡ N.plan }
    requires two { AreTwo N.plan.graph }
    requires hand { hand.table ≡ cells.now }
    requires job { job ≡ new_job cells.now 0 }
{
    let mut scratch = work.scratch(alloc)?;
    let mut first = cells.run(work, job, &mut scratch);
    let one = cells.finish(&mut first);
    let Some(next) = cells.release(&mut first, 1) else {
        return format!(in alloc; "not released");
    };
    cells.end(&mut hand, first);
    let mut second = cells.run(work, next, &mut scratch);
    let two = cells.finish(&mut second);
    let text = read(alloc, work, cells, &mut second)?;
    cells.end(&mut hand, second);
    let finished = cells.finished(&mut hand);
    format!(in alloc; "{text}numbers {one} {two}, finished {finished}")
}

fn by_one_hand<W: Work, N: NamesWork>(alloc: Global, work: &W) -> Result<String, AllocError>
    requires { W.plan work.now ≡ N.plan }
{
    if !are_two(work) {
        return format!(in alloc; "other tasks");
    }
    let (cells, mut hands, mut jobs) = Cells::<N>::new(alloc, work, 1)?;
    match (hands.pop(), jobs.pop()) {
        (Some(hand), Some(job)) => drive(alloc, work, &cells, hand, job),
        _ => format!(in alloc; "no hand or no job"),
    }
}

fn run_by_hand(alloc: Global, run: &Run<'_>) -> Result<String, AllocError> {
    by_one_hand::<Run, Brand>(alloc, run)
}

// What comes of these events of one hand.
fn after<W: Work, N: NamesWork>(
    alloc: Global,
    work: &W,
    events: &[Event],
) -> Result<String, AllocError>
    requires { W.plan work.now ≡ N.plan }
{
    match run_events::<W, N>(alloc, work, 1, events) {
        Ok(core) => format!(in alloc; "done {}", core.done()),
        Err(EventsRefusal::NotEnabled { at }) => format!(in alloc; "{at} isn't enabled"),
        Err(EventsRefusal::Memory) => Err(AllocError),
    }
}

// A task with one cell is run; then it is started once more.
fn by_events<W: Work, N: NamesWork>(alloc: Global, work: &W) -> Result<String, AllocError>
    requires { W.plan work.now ≡ N.plan }
{
    let events = [
        Event::Start { hand: 0, task: 0 },
        Event::Write { hand: 0, cell: 1 },
        Event::Finish { hand: 0, task: 0 },
        Event::Start { hand: 0, task: 0 },
    ];
    let first = after::<W, N>(alloc, work, &events[..3])?;
    let second = after::<W, N>(alloc, work, &events)?;
    format!(in alloc; "{first}, {second}")
}

fn run_by_events(alloc: Global, run: &Run<'_>) -> Result<String, AllocError> {
    by_events::<Run, Brand>(alloc, run)
}

// Who drives a run.
#[derive(Clone, Copy)]
enum Driver {
    Hand,
    Events,
}

fn driven_by(alloc: Global, run: &Run<'_>, driver: Driver) -> Result<String, AllocError> {
    match driver {
        Driver::Hand => run_by_hand(alloc, run),
        Driver::Events => run_by_events(alloc, run),
    }
}

// The first transform, with these matrices.
fn unrolled(
    alloc: Global,
    a: &Accepted,
    c: &Config,
    inputs: Vec<Matrix>,
    driver: Driver,
) -> Result<String, AllocError>
    requires valid { IsValid (bare_prog a.now.program) c.now }
    requires count { HasTransform (bare_prog a.now.program) 0 (λ transform. length inputs.items ≡ transform.inputs) }
    requires whole { All IsWhole inputs.items }
{
    match unroll(alloc, a, c, 0, inputs, 64, 64) {
        Ok(run) => driven_by(alloc, &run, driver),
        Err(RunRefusal::Memory) => Err(AllocError),
        Err(_) => format!(in alloc; "refused"),
    }
}

// Whether the first transform takes so many matrices.
fn takes(a: &Accepted, given: usize) -> bool
    ensures { IsTrue result → HasTransform (bare_prog a.now.program) 0 (λ transform. given ≡ transform.inputs) }
{
    let Some(transform) = a.prog().transforms.get(0) else {
        return false;
    };
    if transform.inputs as usize != given {
        return false;
    }
    true
}

// A matrix by its text; None where it spells none.
fn matrix(alloc: Global, text: &str) -> Result<Option<Matrix>, AllocError>
    ensures { IfOk result (λ found. IfSome found IsWhole) }
{
    match read_matrix(alloc, text.as_bytes()) {
        Ok(found) => Ok(Some(found)),
        Err(MatrixRefusal::Memory) => Err(AllocError),
        Err(_) => Ok(None),
    }
}

// The first transform of a program, with a configuration and one matrix.
fn driven(
    alloc: Global,
    a: &Accepted,
    config: &str,
    input: Matrix,
    driver: Driver,
) -> Result<String, AllocError>
    requires { IsWhole input }
{
    if !takes(a, 1) {
        return format!(in alloc; "other matrices");
    }
    let inputs = vec![in alloc; input]?;
    match read_config(alloc, config.as_bytes(), program(a)) {
        Ok(c) => unrolled(alloc, a, &c, inputs, driver),
        Err(ConfigRefusal::Memory) => Err(AllocError),
        Err(_) => format!(in alloc; "no configuration"),
    }
}

fn said(
    alloc: Global,
    text: &str,
    config: &str,
    input: &str,
    driver: Driver,
) -> Result<String, AllocError> {
    match (accepted(alloc, text)?, matrix(alloc, input)?) {
        (Some(a), Some(found)) => driven(alloc, &a, config, found, driver),
        _ => Ok(String::new(alloc)),
    }
}

#[test]
fn a_hand_runs_what_a_release_opens(rt: HostRuntime) -> Result<(), Fail> {
    let alloc = rt.alloc();
    let config = "choose RollingSum.B {0,1} = 0 until 2 then 1";
    assert_eq!(rt;
        said(alloc, ROLL, config, "matrix 4\n1 2 3 4", Driver::Hand)?.as_str(),
        "1, 2, 3, 4, 1, 3, 6, 10, numbers 0 1, finished 2"
    );
    Ok(())
}

#[test]
fn three_events_of_one_hand_run_a_task(rt: HostRuntime) -> Result<(), Fail> {
    let alloc = rt.alloc();
    let double =
        "transform Double from A[n] to B[n] { to (B.cell(i) b) from (A.cell(i) a) { b = a + a; } }";
    assert_eq!(rt;
        said(alloc, double, "", "matrix 1\n4", Driver::Events)?.as_str(),
        "done true, 3 isn't enabled"
    );
    Ok(())
}
