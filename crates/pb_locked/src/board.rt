ghost use Rattle.std.specs.Prelude.{◌≡◌, ◌<◌, ◌≤◌, ◌↔◌, ℕ, IfOk, IsTrue, None, Some, length};
ghost use Rattle.pb_taskgraph.specs.Graphs.{cells_of};
ghost use Rattle.pb_core.specs.States.{first_state};
ghost use Rattle.pb_core.specs.Events.{AllEnabled, AllFinished, all_happen};
ghost use Rattle.pb_core.specs.Cores.{state_of};
ghost use Rattle.pb_locked.specs.Boards.{Completes, FindsBegun, HoldsOther, IsBoard, Takes, outcomes_of, taken_from};

use crate::complete::complete_task;
use crate::ready::{Ready, add_ready, first_ready};
use pb_core::{Core, Event, NotEnabled, Progress};
use pb_taskgraph::{NamesWork, Work};
use pb_values::Outcome;
use std::alloc::{AllocError, Global};
use std::marker::Model;

/// The hand that has begun a task with this progress.
fn begun_by(at: Progress) -> Option<u32>
    ensures { (hand : ℕ) → (result ≡ Some hand) ↔ ((at.runner ≡ Some hand) × (at.number ≡ None)) }
{
    if at.number.is_some() {
        return None;
    }
    at.runner
}

/// Whether a hand has begun a task with this progress.
fn has_begun(at: Progress, hand: u32) -> bool
    ensures { IsTrue result ↔ ((at.runner ≡ Some hand) × (at.number ≡ None)) }
{
    match begun_by(at) {
        Some(beginner) => beginner == hand,
        None => false,
    }
}

/// Another hand that holds a task with this progress.
fn other_holder(at: Progress, hand: u32) -> Option<u32>
    ensures { HoldsOther at.holder hand result }
{
    match at.holder {
        Some(holder) => { if holder == hand { None } else { Some(holder) } }
        None => None,
    }
}

/// A hand takes a ready task.
fn take_task<W: Work, N: NamesWork>(core: &mut Core<'_, W, N>, hand: u32, task: u32)
    requires task { task < length N.plan.graph.tasks }
    requires enabled { AllEnabled N.plan (state_of N.plan core.old) (taken_from ((state_of N.plan core.old).holder task) hand task) }
    ensures { state_of N.plan core.new ≡ all_happen N.plan (state_of N.plan core.old) (taken_from ((state_of N.plan core.old).holder task) hand task) }
{
    match other_holder(core.progress(task), hand) {
        Some(giver) => {
            let _given = core.step(Event::Give {
                giver,
                taker: hand,
                task,
            });
            let _started = core.step(Event::Start { hand, task });
        }
        None => {
            let _started = core.step(Event::Start { hand, task });
        }
    }
}

/// The value of the lock of a pool: a machine between two steps of its workers.
#[derive(Drop)]
pub struct Board<'w, W: Work, N: NamesWork> {
    core: Core<'w, W, N>,
    ready: Ready,
}

impl<'w, W: Work, N: NamesWork> Model for Board<'w, W, N> {
    ghost use Rattle.pb_core.specs.Cores.{CoreValue, state_of};
    ghost use Rattle.pb_locked.specs.Boards.{IsBoard};
    ghost use Rattle.pb_locked.specs.Ready.{HoldsReady};

    ghost Value = { CoreValue };

    ghost view = { λ b. b.core };

    ghost invariant = { λ b. IsBoard N.plan (state_of N.plan b.core) × HoldsReady N.plan (state_of N.plan b.core) b.ready };
}

impl<'w, W: Work, N: NamesWork> Board<'w, W, N> {
    /// The board before any event. It takes all memory that later calls need.
    pub fn new(alloc: Global, work: &'w W, hands: u32) -> Result<Board<'w, W, N>, AllocError>
        requires name { W.plan work.now ≡ N.plan }
        requires some { 1 ≤ hands }
        requires few { hands ≤ 64 }
        ensures { IfOk result (λ board. state_of N.plan board ≡ first_state N.plan hands) }
    {
        let ready = first_ready(alloc, work.graph())?;
        let core = Core::new(alloc, work, hands)?;
        Ok(Board { core, ready })
    }

    /// The outcome of a cell; None where it isn't written.
    pub fn value(&self, cell: u64) -> Option<Outcome>
        requires { cell < N.plan.graph.cells }
        ensures { result ≡ (state_of N.plan self.now).value cell }
    {
        self.core.value(cell)
    }

    /// The finish number of a task; None where it isn't finished.
    pub(crate) fn number(&self, task: u32) -> Option<u64>
        requires { task < length N.plan.graph.tasks }
        ensures { result ≡ (state_of N.plan self.now).number task }
    {
        self.core.number(task)
    }

    /// The ready task of least number, which this hand has now begun; None where no task is ready.
    pub fn take(&mut self, hand: u32) -> Option<u32>
        ensures { Takes N.plan self.old hand result self.new }
    {
        let task = match self.ready.take() {
            Some(task) => task,
            None => return None,
        };
        // What is known of a work is told with its graph.
        let _graph = self.core.graph();
        take_task(&mut self.core, hand, task);
        Some(task)
    }

    /// A hand completes a task that it has begun: its cells get the outcomes that the task gave, part by part, each row by row.
    /// NotEnabled comes where the hand hasn't begun the task or the task is finished, and then nothing changes.
    pub fn complete(&mut self, hand: u32, task: u32, values: &[Outcome]) -> Result<(), NotEnabled>
        requires { values.now ≡ outcomes_of N.plan (cells_of N.plan.graph task) }
        ensures { Completes N.plan self.old hand task result self.new }
    {
        let graph = self.core.graph();
        let links = match graph.tasks().get(task as usize) {
            Some(links) => links,
            None => return Err(NotEnabled),
        };
        if !has_begun(self.core.progress(task), hand) {
            return Err(NotEnabled);
        }
        complete_task(&mut self.core, hand, task, links, values);
        add_ready(&self.core, &mut self.ready, &links.after);
        Ok(())
    }

    /// A hand and a task that it has begun and that isn't finished.
    pub fn begun(&self) -> Option<(u32, u32)>
        ensures { FindsBegun (state_of N.plan self.now) result }
    {
        for task in 0..self.core.graph().tasks().len() {
            if let Some(hand) = begun_by(self.core.progress(task as u32)) {
                return Some((hand, task as u32));
            }
        }
        None
    }

    /// Whether all tasks are finished. The state of each board is that of a board.
    pub fn done(&self) -> bool
        ensures done { IsTrue result ↔ AllFinished N.plan.graph (state_of N.plan self.now) }
        ensures board { IsBoard N.plan (state_of N.plan self.now) }
    {
        self.core.done()
    }
}
