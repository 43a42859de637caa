//! Cells, counts and turns as words of one table, driven by hand.
ghost use Rattle.std.specs.Prelude.{◌≡◌, ◌<◌, [], ◌∷◌, IfOk, length};
ghost use Rattle.pb_taskgraph.specs.Graphs.{after_of};
ghost use Rattle.pb_taskgraph.specs.Plans.{IsSmall};
ghost use Rattle.pb_cells.specs.Handles.{new_job};
ghost use Rattle.pb_run_trials.specs.Given.{IsGiven, given_plan};

use crate::given::Given;
use pb_cells::{Cells, Hand, Job};
use pb_taskgraph::{Finished, NamesWork, Work};
use pb_values::{Kind, Outcome, Trap};
use std::alloc::{AllocError, Global};
use std::marker::Brand;
use std::test::Fail;

fn kind_word(kind: Kind) -> &'static str {
    match kind {
        Kind::Overflow => "overflow",
        Kind::DivideByZero => "divide by zero",
        Kind::OutOfView => "out of view",
        Kind::LoopLimit => "loop limit",
        Kind::BadShape => "bad shape",
        Kind::DepthEnded => "depth ended",
    }
}

fn said(alloc: Global, v: Outcome) -> Result<String, AllocError> {
    match v {
        Outcome::Value(value) => format!(in alloc; "{value}"),
        Outcome::Trapped(trap) => {
            let kind = kind_word(trap.kind);
            format!(in alloc;
                "{kind} {} {} {} {}",
                trap.transform, trap.rule, trap.x, trap.y
            )
        }
    }
}

// The outcomes of all cells up to the last one of a task that is run.
fn read<N: NamesWork>(
    alloc: Global,
    work: &Given,
    cells: &Cells<N>,
    job: &mut Job<N>,
    task: u32,
) -> Result<String, AllocError>
    requires name { given_plan work.now ≡ N.plan }
    requires table { job.old.table ≡ cells.now }
    requires at { job.old.at.task ≡ task }
    requires written { job.old.at.written ≡ length (N.plan.order task) }
    requires task { task < length work.now.graph.tasks }
    ensures { job.new ≡ job.old }
{
    let mut text = String::new(alloc);
    for cell in 0..work.end(task) {
        text.push_str(said(alloc, cells.read(job, cell))?.as_str())?;
        text.push_str(", ")?;
    }
    Ok(text)
}

// What a run has come to: the outcomes of all cells, and the tasks by their finish numbers.
fn told(alloc: Global, finished: &Finished) -> Result<String, AllocError> {
    let mut text = String::new(alloc);
    for cell in 0..finished.outcomes.count() {
        text.push_str(said(alloc, finished.outcomes.get(cell))?.as_str())?;
        text.push_str(", ")?;
    }
    text.push_str("by")?;
    for task in &finished.order {
        text.push_str(format!(in alloc; " {task}")?.as_str())?;
    }
    Ok(text)
}

// Two hands by turns: the second runs the task that the first has released, before the first takes in its own Job.
fn by_two_hands<N: NamesWork>(
    alloc: Global,
    work: &Given,
    cells: Cells<N>,
    mut first: Hand<N>,
    mut second: Hand<N>,
    job: Job<N>,
) -> Result<String, AllocError>
    requires name { given_plan work.now ≡ N.plan }
    requires tasks { length work.now.graph.tasks ≡ 2 }
    requires after_one { after_of N.plan.graph 0 ≡ 1 ∷ [] }
    requires after_two { after_of N.plan.graph 1 ≡ [] }
    requires first { first.table ≡ cells }
    requires second { second.table ≡ cells }
    requires job { job ≡ new_job cells 0 }
{
    let none = cells.finished(&mut second);
    let mut own = cells.run(work, job, &mut ());
    let one = cells.finish(&mut own);
    let before = cells.finished(&mut first);
    let Some(released) = cells.release(&mut own, 1) else {
        return format!(in alloc; "not released");
    };
    let mut next = cells.run(work, released, &mut ());
    let two = cells.finish(&mut next);
    let text = read(alloc, work, &cells, &mut next, 1)?;
    cells.end(&mut second, next);
    let after = cells.finished(&mut second);
    cells.end(&mut first, own);
    let again = cells.finished(&mut first);
    let text = format!(in alloc;
        "{text}numbers {one} {two}, filed {none} {before} {after} {again}"
    )?;
    if again != 2 {
        return Ok(text);
    }
    let mut hands = Vec::new(alloc);
    hands.push(first)?;
    hands.push(second)?;
    let end = told(alloc, &cells.close(hands))?;
    format!(in alloc; "{text}; at the end {end}")
}

fn two_hands<N: NamesWork>(alloc: Global, work: &Given) -> Result<String, AllocError>
    requires name { given_plan work.now ≡ N.plan }
    requires given { IsGiven work.now }
{
    let (cells, mut hands, mut jobs) = Cells::<N>::new(alloc, work, 2)?;
    match (hands.pop(), hands.pop(), jobs.pop()) {
        (Some(second), Some(first), Some(job)) => {
            by_two_hands(alloc, work, cells, first, second, job)
        }
        _ => format!(in alloc; "no hands or no job"),
    }
}

fn counts<N: NamesWork>(alloc: Global, work: &Given, hands: u32) -> Result<String, AllocError>
    requires { given_plan work.now ≡ N.plan }
{
    let (_cells, hands, jobs) = Cells::<N>::new(alloc, work, hands)?;
    format!(in alloc; "{} hands, {} jobs", hands.len(), jobs.len())
}

fn value(number: i64) -> Outcome
    ensures { IsSmall result }
{
    Outcome::Value(number)
}

// The trap of this kind with the greatest numbers.
fn greatest(kind: Kind) -> Outcome
    ensures { IsSmall result }
{
    Outcome::Trapped(Trap {
        kind,
        transform: 63,
        rule: 31,
        x: 8_388_607,
        y: 8_388_607,
    })
}

fn sums(alloc: Global) -> Result<Given, AllocError>
    ensures { IfOk result (λ g. IsGiven g) }
{
    let outcomes = vec![in alloc;
        value(1),
        value(2),
        value(3),
        value(4),
        value(1),
        value(3),
        value(6),
        value(10),
    ]?;
    Given::new(alloc, 4, outcomes)
}

fn traps(alloc: Global) -> Result<Given, AllocError>
    ensures { IfOk result (λ g. IsGiven g) }
{
    let outcomes = vec![in alloc;
        greatest(Kind::Overflow),
        greatest(Kind::DivideByZero),
        greatest(Kind::OutOfView),
        value(i64::MAX),
        greatest(Kind::LoopLimit),
        greatest(Kind::BadShape),
        greatest(Kind::DepthEnded),
        value(i64::MIN),
        value(-1),
    ]?;
    Given::new(alloc, 3, outcomes)
}

// Two hands run the tasks; fewer or more are only made.
fn by_hands(alloc: Global, work: &Given, hands: u32) -> Result<String, AllocError>
    requires { IsGiven work.now }
{
    match hands {
        2 => two_hands::<Brand>(alloc, work),
        _ => counts::<Brand>(alloc, work, hands),
    }
}

#[test]
fn hands_take_in_jobs_by_turns(rt: HostRuntime) -> Result<(), Fail> {
    let alloc = rt.alloc();
    assert_eq!(rt;
        by_hands(alloc, &sums(alloc)?, 2)?.as_str(),
        "1, 2, 3, 4, 1, 3, 6, 10, numbers 0 1, filed 0 1 2 2; at the end 1, 2, 3, 4, 1, 3, 6, 10, by 0 1"
    );
    Ok(())
}

#[test]
fn outcomes_come_back_from_words(rt: HostRuntime) -> Result<(), Fail> {
    let alloc = rt.alloc();
    assert_eq!(rt;
        by_hands(alloc, &traps(alloc)?, 2)?.as_str(),
        "overflow 63 31 8388607 8388607, divide by zero 63 31 8388607 8388607, out of view 63 31 8388607 8388607, \
        9223372036854775807, loop limit 63 31 8388607 8388607, bad shape 63 31 8388607 8388607, \
        depth ended 63 31 8388607 8388607, -9223372036854775808, -1, numbers 0 1, filed 0 1 2 2; at the end overflow 63 31 8388607 8388607, \
        divide by zero 63 31 8388607 8388607, out of view 63 31 8388607 8388607, 9223372036854775807, loop limit 63 31 8388607 8388607, \
        bad shape 63 31 8388607 8388607, depth ended 63 31 8388607 8388607, -9223372036854775808, -1, by 0 1"
    );
    Ok(())
}

#[test]
fn a_table_has_its_hands_and_jobs(rt: HostRuntime) -> Result<(), Fail> {
    let alloc = rt.alloc();
    let work = sums(alloc)?;
    assert_eq!(rt; by_hands(alloc, &work, 0)?.as_str(), "0 hands, 1 jobs");
    assert_eq!(rt; by_hands(alloc, &work, 64)?.as_str(), "64 hands, 1 jobs");
    Ok(())
}
