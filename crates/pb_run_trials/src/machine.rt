//! The machine of a work, over lists of events.
ghost use Rattle.std.specs.Prelude.{◌≡◌, ◌≤◌};
ghost use Rattle.pb_run_trials.specs.Sums.{plan_of};

use crate::sums::Sums;
use pb_core::{Core, Event, EventsRefusal, run_events};
use pb_taskgraph::{NamesWork, Work};
use pb_values::Outcome;
use std::alloc::{AllocError, Global};
use std::marker::Brand;
use std::test::Fail;

// The outcomes of the written cells and the finish numbers of the tasks.
fn state<N: NamesWork>(
    alloc: Global,
    work: &Sums,
    core: &Core<'_, Sums, N>,
) -> Result<String, AllocError>
    requires { plan_of work.now ≡ N.plan }
{
    let mut text = String::new(alloc);
    let graph = work.graph();
    for cell in 0..graph.cells() {
        text.push_str(match core.value(cell) {
            Some(Outcome::Value(value)) => format!(in alloc; "{value} ")?,
            Some(Outcome::Trapped(_trap)) => format!(in alloc; "trap ")?,
            None => format!(in alloc; "- ")?,
        }
        .as_str())?;
    }
    for task in 0..graph.tasks().len() {
        text.push_str(match core.number(task as u32) {
            Some(number) => format!(in alloc; "#{number} ")?,
            None => format!(in alloc; "# ")?,
        }
        .as_str())?;
    }
    text.push_str(if core.done() { "done" } else { "open" })?;
    Ok(text)
}

// What comes of these events on so many hands.
fn run<N: NamesWork>(
    alloc: Global,
    work: &Sums,
    hands: u32,
    events: &[Event],
) -> Result<String, AllocError>
    requires name { plan_of work.now ≡ N.plan }
    requires some { 1 ≤ hands }
    requires few { hands ≤ 64 }
{
    match run_events::<Sums, N>(alloc, work, hands, events) {
        Ok(core) => state::<N>(alloc, work, &core),
        Err(EventsRefusal::NotEnabled { at }) => format!(in alloc; "{at} isn't enabled"),
        Err(EventsRefusal::Memory) => format!(in alloc; "no memory"),
    }
}

fn said(alloc: Global, work: &Sums, hands: u32, events: &[Event]) -> Result<String, AllocError>
    requires some { 1 ≤ hands }
    requires few { hands ≤ 64 }
{
    run::<Brand>(alloc, work, hands, events)
}

#[test]
fn one_hand_runs_one_task(rt: HostRuntime) -> Result<(), Fail> {
    let alloc = rt.alloc();
    let work = Sums::new(alloc, 1, 1, 2)?;
    let events = [
        Event::Start { hand: 0, task: 0 },
        Event::Write { hand: 0, cell: 2 },
        Event::Write { hand: 0, cell: 3 },
        Event::Finish { hand: 0, task: 0 },
    ];
    assert_eq!(rt; said(alloc, &work, 1, &events)?.as_str(), "1 2 3 5 #0 done");
    Ok(())
}

#[test]
fn a_second_start_is_refused(rt: HostRuntime) -> Result<(), Fail> {
    let alloc = rt.alloc();
    let work = Sums::new(alloc, 1, 1, 2)?;
    let events = [
        Event::Start { hand: 0, task: 0 },
        Event::Start { hand: 0, task: 0 },
    ];
    assert_eq!(rt; said(alloc, &work, 1, &events)?.as_str(), "1 isn't enabled");
    Ok(())
}

#[test]
fn a_task_is_finished_after_its_last_write(rt: HostRuntime) -> Result<(), Fail> {
    let alloc = rt.alloc();
    let work = Sums::new(alloc, 1, 1, 2)?;
    let events = [
        Event::Start { hand: 0, task: 0 },
        Event::Write { hand: 0, cell: 3 },
        Event::Finish { hand: 0, task: 0 },
    ];
    assert_eq!(rt; said(alloc, &work, 1, &events)?.as_str(), "2 isn't enabled");
    assert_eq!(rt;
        said(alloc, &work, 1, &events[..2])?.as_str(),
        "1 2 - 5 # open"
    );
    Ok(())
}

#[test]
fn a_released_task_is_held_by_the_hand_that_released_it(rt: HostRuntime) -> Result<(), Fail> {
    let alloc = rt.alloc();
    let work = Sums::new(alloc, 2, 1, 2)?;
    let events = [
        Event::Give {
            giver: 0,
            taker: 1,
            task: 0,
        },
        Event::Start { hand: 1, task: 0 },
        Event::Write { hand: 1, cell: 2 },
        Event::Write { hand: 1, cell: 3 },
        Event::Finish { hand: 1, task: 0 },
        Event::Release {
            hand: 1,
            task: 0,
            next: 1,
        },
        Event::Start { hand: 1, task: 1 },
        Event::Write { hand: 1, cell: 5 },
        Event::Write { hand: 1, cell: 4 },
        Event::Finish { hand: 1, task: 1 },
    ];
    assert_eq!(rt;
        said(alloc, &work, 2, &events)?.as_str(),
        "1 2 3 5 8 13 #0 #1 done"
    );
    assert_eq!(rt;
        said(alloc, &work, 2, &events[1..])?.as_str(),
        "0 isn't enabled"
    );
    assert_eq!(rt;
        said(alloc, &work, 2, &events[..5])?.as_str(),
        "1 2 3 5 - - #0 # open"
    );
    Ok(())
}
