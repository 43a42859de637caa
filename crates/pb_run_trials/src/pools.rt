//! Runs on many threads.
ghost use Rattle.std.specs.Prelude.{◌≤◌};

use crate::sums::Sums;
use pb_locked::run_locked;
use pb_steal::run_steal;
use pb_taskgraph::{Finished, OpenGate};
use pb_values::{Kind, Outcome};
use std::alloc::{AllocError, Global};
use std::sync::Wait;
use std::test::Fail;
use std::thread::Threads;

// The last outcome and how many tasks were run; a trap as its kind.
fn said(alloc: Global, finished: &Finished) -> Result<String, AllocError> {
    let outcomes = &finished.outcomes;
    let cells = outcomes.count();
    let tasks = finished.order.len();
    if cells == 0 {
        return format!(in alloc; "no cells");
    }
    match outcomes.get(cells - 1) {
        Outcome::Value(value) => format!(in alloc; "{value} by {tasks}"),
        Outcome::Trapped(trap) => {
            let overflow = trap.kind == Kind::Overflow;
            format!(in alloc; "overflow {overflow} by {tasks}")
        }
    }
}

// What so many workers make of a work over one lock, and what they make of it by stealing.
fn both<R: Threads + Wait + Sync>(
    rt: &R,
    alloc: Global,
    work: &Sums,
    workers: u32,
) -> Result<String, AllocError>
    requires some { 1 ≤ workers }
    requires few { workers ≤ 64 }
{
    let locked = run_locked(rt, alloc, work, workers, &OpenGate)?;
    let stolen = run_steal(rt, alloc, work, workers, &OpenGate)?;
    let first = said(alloc, &locked)?;
    let second = said(alloc, &stolen)?;
    format!(in alloc; "{first}, {second}")
}

#[test]
fn one_worker_runs_all_tasks(rt: HostRuntime) -> Result<(), Fail> {
    let alloc = rt.alloc();
    let work = Sums::new(alloc, 4, 1, 2)?;
    assert_eq!(rt; both(&rt, alloc, &work, 1)?.as_str(), "89 by 4, 89 by 4");
    Ok(())
}

#[test]
fn many_workers_run_a_few_tasks(rt: HostRuntime) -> Result<(), Fail> {
    let alloc = rt.alloc();
    let one = Sums::new(alloc, 1, 1, 2)?;
    assert_eq!(rt; both(&rt, alloc, &one, 64)?.as_str(), "5 by 1, 5 by 1");
    let none = Sums::new(alloc, 0, 7, -7)?;
    assert_eq!(rt; both(&rt, alloc, &none, 64)?.as_str(), "-7 by 0, -7 by 0");
    Ok(())
}

#[test]
fn tasks_wait_for_those_before_them(rt: HostRuntime) -> Result<(), Fail> {
    let alloc = rt.alloc();
    let work = Sums::new(alloc, 40, 1, 1)?;
    let locked = run_locked(&rt, alloc, &work, 8, &OpenGate)?;
    let stolen = run_steal(&rt, alloc, &work, 8, &OpenGate)?;
    for finished in [locked, stolen] {
        assert_eq!(rt; said(alloc, &finished)?.as_str(), "61305790721611591 by 40");
        for place in 0..finished.order.len() {
            assert_eq!(rt; finished.order[place] as usize, place);
        }
    }
    Ok(())
}

#[test]
fn a_trap_on_all_workers_stays(rt: HostRuntime) -> Result<(), Fail> {
    let alloc = rt.alloc();
    let work = Sums::new(alloc, 100, 1, 1)?;
    assert_eq!(rt;
        both(&rt, alloc, &work, 64)?.as_str(),
        "overflow true by 100, overflow true by 100"
    );
    Ok(())
}
