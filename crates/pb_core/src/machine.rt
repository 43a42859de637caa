ghost use Rattle.std.specs.Prelude.{◌≡◌, ◌<◌, ◌≤◌, ◌↔◌, IfOk, IsTrue, length, slice_index_or};
ghost use Rattle.pb_taskgraph.specs.Graphs.{cells_of};
ghost use Rattle.pb_taskgraph.specs.Plans.{IsPlan, outcome_at};
ghost use Rattle.pb_core.specs.declared.event.Event.TheVariants.{Finish, Give, Release, Start, Write};
ghost use Rattle.pb_core.specs.States.{first_state};
ghost use Rattle.pb_core.specs.Events.{AllFinished, IsReached};
ghost use Rattle.pb_core.specs.Cores.{FindsLink, FindsWriter, Steps, TellsWritten, state_of, untouched};

use crate::event::{Event, NotEnabled};
use crate::first::{first_links, first_outcomes, first_tasks, first_written};
use crate::learned::learn;
use crate::links::{Flags, open_place};
use crate::progress::{Progress, progress_of};
use crate::steps::{can_release, can_write, finish_task, give_task, release_task, start_task};
use crate::wholes::{is_written, parts_written};
use pb_taskgraph::{NamesWork, TaskGraph, Work};
use pb_values::Outcome;
use std::alloc::{AllocError, Global};
use std::marker::{Model, PhantomData};
use std::mem;

/// The machine of a work: what its tasks and cells have come to by the events so far.
#[derive(Drop)]
pub struct Core<'w, W: Work, N: NamesWork> {
    alloc: Global,
    work: &'w W,
    scratch: W::Scratch,
    tasks: Vec<Progress>,
    released: Vec<Flags>,
    written: Vec<bool>,
    finished: u64,
    run: Vec<bool>,
    outcomes: Vec<Outcome>,
    of: PhantomData<N>,
}

impl<'w, W: Work, N: NamesWork> Model for Core<'w, W, N> {
    ghost use Rattle.pb_core.specs.Cores.{CoreValue, IsMachine};

    ghost Value = { CoreValue };

    ghost view = { λ s. record { tasks = s.tasks.items; released = s.released.items; written = s.written.items; finished = s.finished } };

    ghost invariant = { λ s. IsMachine N.plan (W.plan s.work.now) (W.fits s.work.now s.scratch)
        (record { tasks = s.tasks.items; released = s.released.items; written = s.written.items; finished = s.finished }) s.run.items s.outcomes.items };
}

impl<'w, W: Work, N: NamesWork> Core<'w, W, N> {
    /// The machine before any event. A task without predecessors is held by the hand of its number modulo the hands. It takes
    /// all memory that later calls need.
    pub fn new(alloc: Global, work: &'w W, hands: u32) -> Result<Core<'w, W, N>, AllocError>
        requires name { W.plan work.now ≡ N.plan }
        requires some { 1 ≤ hands }
        requires few { hands ≤ 64 }
        ensures { IfOk result (λ core. state_of N.plan core ≡ first_state N.plan hands) }
    {
        let graph = work.graph();
        let inputs = graph.inputs();
        let cells = graph.cells();
        Ok(Core {
            alloc,
            work,
            scratch: work.scratch(alloc)?,
            tasks: first_tasks(alloc, graph, hands)?,
            released: first_links(alloc, graph)?,
            written: first_written(alloc, inputs, cells)?,
            finished: 0,
            run: vec![in alloc; false; graph.tasks().len()]?,
            outcomes: first_outcomes(alloc, work, inputs, cells)?,
            of: PhantomData,
        })
    }

    fn start(&mut self, hand: u32, task: u32) -> Result<(), NotEnabled>
        ensures { Steps N.plan self.old (Start hand task) result self.new }
    {
        start_task(&mut self.tasks, hand, task)
    }

    /// The graph of the work.
    pub fn graph(&self) -> &'w TaskGraph
        ensures graph { result.now ≡ N.plan.graph }
        ensures plan { IsPlan N.plan }
    {
        self.work.graph()
    }

    /// The task to which a hand may write a cell.
    fn writer(&self, hand: u32, cell: u64) -> Option<u32>
        ensures { FindsWriter N.plan self.now hand cell result }
    {
        let graph = self.graph();
        if cell < graph.inputs() {
            return None;
        }
        if cell >= graph.cells() {
            return None;
        }
        let task = graph.owner(cell);
        if !can_write(
            progress_of(&self.tasks, task),
            hand,
            is_written(&self.written, cell),
        ) {
            return None;
        }
        Some(task)
    }

    /// Writes a cell whose outcome is learned by running its task.
    fn write(&mut self, hand: u32, cell: u64) -> Result<(), NotEnabled>
        ensures { Steps N.plan self.old (Write hand cell) result self.new }
    {
        let task = match self.writer(hand, cell) {
            Some(task) => task,
            None => return Err(NotEnabled),
        };
        let outcomes = mem::replace(&mut self.outcomes, Vec::new(self.alloc));
        self.outcomes = learn::<N, W>(self.work, &mut self.scratch, &mut self.run, task, outcomes);
        self.written[cell as usize] = true;
        Ok(())
    }

    /// Writes a cell with the outcome that is handed in. It runs nothing.
    pub fn store(&mut self, hand: u32, cell: u64, v: Outcome) -> Result<(), NotEnabled>
        requires { v ≡ outcome_at N.plan.solution cell }
        ensures { Steps N.plan self.old (Write hand cell) result self.new }
    {
        let _task = match self.writer(hand, cell) {
            Some(task) => task,
            None => return Err(NotEnabled),
        };
        self.outcomes[cell as usize] = v;
        self.written[cell as usize] = true;
        Ok(())
    }

    /// Whether all cells of a task are written.
    fn is_whole(&self, task: u32) -> bool
        ensures { TellsWritten self.now.written (cells_of N.plan.graph task) result }
    {
        match self.graph().tasks().get(task as usize) {
            Some(task) => parts_written(&self.written, &task.parts),
            None => true,
        }
    }

    fn finish(&mut self, hand: u32, task: u32) -> Result<(), NotEnabled>
        ensures { Steps N.plan self.old (Finish hand task) result self.new }
    {
        if !self.is_whole(task) {
            return Err(NotEnabled);
        }
        finish_task(&mut self.tasks, &mut self.finished, hand, task)
    }

    /// The place of a successor, among those of a task, that a hand may release.
    fn link(&self, hand: u32, task: u32, next: u32) -> Option<usize>
        ensures { FindsLink N.plan self.now hand task next result }
    {
        if !can_release(progress_of(&self.tasks, task), hand) {
            return None;
        }
        let links = &self.graph().tasks()[task as usize];
        let flags = &self.released[task as usize];
        open_place(&links.after, &flags.list, next)
    }

    fn release(&mut self, hand: u32, task: u32, next: u32) -> Result<(), NotEnabled>
        ensures { Steps N.plan self.old (Release hand task next) result self.new }
    {
        let place = match self.link(hand, task, next) {
            Some(place) => place,
            None => return Err(NotEnabled),
        };
        self.released[task as usize].set(place);
        release_task(&mut self.tasks, hand, next);
        Ok(())
    }

    fn give(&mut self, giver: u32, taker: u32, task: u32) -> Result<(), NotEnabled>
        ensures { Steps N.plan self.old (Give giver taker task) result self.new }
    {
        give_task(&mut self.tasks, giver, taker, task)
    }

    /// Makes an event happen. NotEnabled comes where its condition fails, and then nothing changes. A write learns the
    /// outcome by running the task of the cell, at the first write of one of its cells.
    pub fn step(&mut self, event: Event) -> Result<(), NotEnabled>
        ensures { Steps N.plan self.old event result self.new }
    {
        match event {
            Event::Start { hand, task } => self.start(hand, task),
            Event::Write { hand, cell } => self.write(hand, cell),
            Event::Finish { hand, task } => self.finish(hand, task),
            Event::Release { hand, task, next } => self.release(hand, task, next),
            Event::Give { giver, taker, task } => self.give(giver, taker, task),
        }
    }

    /// The outcome of a cell; None where it isn't written.
    pub fn value(&self, cell: u64) -> Option<Outcome>
        requires { cell < N.plan.graph.cells }
        ensures { result ≡ (state_of N.plan self.now).value cell }
    {
        if self.written[cell as usize] {
            Some(self.outcomes[cell as usize])
        } else {
            None
        }
    }

    /// The finish number of a task; None where it isn't finished.
    pub fn number(&self, task: u32) -> Option<u64>
        requires { task < length N.plan.graph.tasks }
        ensures { result ≡ (state_of N.plan self.now).number task }
    {
        progress_of(&self.tasks, task).number
    }

    /// What a task has come to.
    pub fn progress(&self, task: u32) -> Progress
        requires { task < length N.plan.graph.tasks }
        ensures { result ≡ slice_index_or self.now.tasks task untouched }
    {
        progress_of(&self.tasks, task)
    }

    /// Whether all tasks are finished. Events led to the state of any machine.
    pub fn done(&self) -> bool
        ensures done { IsTrue result ↔ AllFinished N.plan.graph (state_of N.plan self.now) }
        ensures reached { IsReached N.plan (state_of N.plan self.now) }
    {
        self.finished == self.graph().tasks().len() as u64
    }
}
