//! The state of a pool under one lock, step by step.
ghost use Rattle.std.specs.Prelude.{◌≡◌, ◌<◌, length};
ghost use Rattle.pb_run_trials.specs.Sums.{plan_of};

use crate::sums::Sums;
use pb_core::NotEnabled;
use pb_locked::Board;
use pb_taskgraph::{NamesWork, Outcomes, Work, run_serial};
use pb_values::Outcome;
use std::alloc::{AllocError, Global};
use std::marker::Brand;
use std::test::Fail;

// A hand completes a task, with the outcomes of its cells.
fn complete<N: NamesWork>(
    work: &Sums,
    board: &mut Board<'_, Sums, N>,
    hand: u32,
    task: u32,
    outcomes: &Outcomes,
) -> Result<(), NotEnabled>
    requires name { plan_of work.now ≡ N.plan }
    requires task { task < length N.plan.graph.tasks }
    requires outcomes { outcomes.now ≡ N.plan.solution }
{
    let _graph = work.graph();
    let first = work.first_cell(task);
    board.complete(hand, task, &[outcomes.get(first), outcomes.get(first + 1)])
}

// The outcomes of the written cells, and who has begun what.
fn state<N: NamesWork>(
    alloc: Global,
    work: &Sums,
    board: &Board<'_, Sums, N>,
) -> Result<String, AllocError>
    requires { plan_of work.now ≡ N.plan }
{
    let mut text = String::new(alloc);
    for cell in 0..work.graph().cells() {
        text.push_str(match board.value(cell) {
            Some(Outcome::Value(value)) => format!(in alloc; "{value} ")?,
            Some(Outcome::Trapped(_trap)) => format!(in alloc; "trap ")?,
            None => format!(in alloc; "- ")?,
        }
        .as_str())?;
    }
    match board.begun() {
        Some((hand, task)) => text.push_str(format!(in alloc; "{hand}:{task} ")?.as_str())?,
        None => {}
    }
    text.push_str(if board.done() { "done" } else { "open" })?;
    Ok(text)
}

// So many hands, one after the other, each complete the task that they take, which the next hand can't.
fn steps<N: NamesWork>(
    alloc: Global,
    work: &Sums,
    hands: u32,
    outcomes: &Outcomes,
) -> Result<String, AllocError>
    requires name { plan_of work.now ≡ N.plan }
    requires outcomes { outcomes.now ≡ N.plan.solution }
{
    let mut board = Board::<Sums, N>::new(alloc, work, 2)?;
    let mut text = String::new(alloc);
    for hand in 0..hands {
        match board.take(hand) {
            Some(task) => {
                text.push_str(state::<N>(alloc, work, &board)?.as_str())?;
                let other = complete::<N>(work, &mut board, hand ^ 1, task, outcomes).is_ok();
                let own = complete::<N>(work, &mut board, hand, task, outcomes).is_ok();
                let again = complete::<N>(work, &mut board, hand, task, outcomes).is_ok();
                text.push_str(format!(in alloc; " {task} {other} {own} {again} ")?.as_str())?;
            }
            None => text.push_str("none ")?,
        }
    }
    text.push_str(state::<N>(alloc, work, &board)?.as_str())?;
    Ok(text)
}

fn said(alloc: Global, hands: u32) -> Result<String, AllocError> {
    let work = Sums::new(alloc, 2, 1, 2)?;
    let finished = run_serial(alloc, &work)?;
    steps::<Brand>(alloc, &work, hands, &finished.outcomes)
}

#[test]
fn hands_complete_what_they_take(rt: HostRuntime) -> Result<(), Fail> {
    let alloc = rt.alloc();
    assert_eq!(rt;
        said(alloc, 1)?.as_str(),
        "1 2 - - - - 0:0 open 0 false true false 1 2 3 5 - - open"
    );
    assert_eq!(rt;
        said(alloc, 3)?.as_str(),
        "1 2 - - - - 0:0 open 0 false true false 1 2 3 5 - - 1:1 open 1 false true false none 1 2 3 5 8 13 done"
    );
    Ok(())
}
