ghost use Rattle.std.specs.Prelude.{◌≡◌, ◌<◌, ℕ, IfOk, IsSome, Some, length};
ghost use Rattle.pb_values.specs.declared.outcome.Outcome.{Outcome};
ghost use Rattle.pb_taskgraph.specs.Graphs.{cells_of};
ghost use Rattle.pb_taskgraph.specs.Plans.{outcome_at};
ghost use Rattle.pb_taskgraph.specs.Turns.{Begins, after_all};
ghost use Rattle.pb_core.specs.Cores.{state_of};
ghost use Rattle.pb_locked.specs.Boards.{HasBegun, outcomes_of};
ghost use Rattle.pb_locked.specs.Jobs.{TellsOthers, job_turn};

use crate::board::Board;
use crate::job::Job;
use crate::places::Places;
use crossbeam_utils::Backoff;
use pb_taskgraph::{CellPort, NamesWork, Work};
use pb_values::{CellReader, Outcome};
use std::alloc::{AllocError, Global};
use std::marker::{Model, PhantomData};
use std::sync::{Mutex, Wait};

/// One of those who run tasks: its number as a hand, and the room that its tasks use, one after another.
#[derive(Drop)]
pub(crate) struct Worker<'w, W: Work, N: NamesWork> {
    hand: u32,
    work: &'w W,
    scratch: W::Scratch,
    of: PhantomData<N>,
}

impl<'w, W: Work, N: NamesWork> Model for Worker<'w, W, N> {
    ghost use Rattle.std.specs.Prelude.{◌≡◌, ℕ};

    ghost Value = { ℕ };

    ghost view = { λ s. s.hand };

    ghost invariant = { λ s. (W.plan s.work.now ≡ N.plan) × W.fits s.work.now s.scratch };
}

impl<'w, W: Work, N: NamesWork> Worker<'w, W, N> {
    pub(crate) fn new(alloc: Global, work: &'w W, hand: u32) -> Result<Worker<'w, W, N>, AllocError>
        requires { W.plan work.now ≡ N.plan }
    {
        Ok(Worker {
            hand,
            work,
            scratch: work.scratch(alloc)?,
            of: PhantomData,
        })
    }

    pub(crate) fn hand(&self) -> u32 {
        self.hand
    }

    /// Runs a task.
    fn run<C: CellPort>(&mut self, task: u32, port: &mut C)
        requires task { task < length N.plan.graph.tasks }
        requires begins { Begins N.plan task (C.turn port.old) }
        ensures { C.turn port.new ≡ after_all (C.turn port.old) }
    {
        self.work.run(task, port, &mut self.scratch);
    }
}

/// The outcome of a cell that another task makes, once it is written.
fn wait_for<R: Wait, W: Work, N: NamesWork>(
    rt: &R,
    board: &Mutex<Board<'_, W, N>>,
    cell: u64,
) -> Outcome
    requires { cell < N.plan.graph.cells }
    ensures { result ≡ outcome_at N.plan.solution cell }
{
    let backoff = Backoff::new();
    for _ in rt.forever() {
        let found = board.lock(rt).value(cell);
        if let Some(outcome) = found {
            return outcome;
        }
        backoff.snooze();
    }
    unreachable!()
}

/// Where the outcomes of cells are asked for that other tasks make.
trait Source {
    /// The cells that it may be asked for.
    ghost asks: { Self → ℕ → Type 0 };

    /// What it answers.
    ghost answers: { Self → ℕ → Outcome → Type 0 };

    fn ask(&self, cell: u64) -> Outcome
        requires { asks self.now cell }
        ensures { answers self.now cell result };
}

/// A closure that is asked.
#[derive(Drop)]
struct Asked<F>(F);

impl<F: Fn(u64) -> Outcome> Source for Asked<F> {
    ghost asks = { λ s c. F.pre s.0 c };

    ghost answers = { λ s c v. F.post s.0 c v };

    fn ask(&self, cell: u64) -> Outcome {
        (self.0)(cell)
    }
}

/// The port of a task: it keeps what the task writes, and asks for the outcomes of cells that others make.
#[derive(Drop)]
struct TaskPort<'p, 'w, S: Source, N: NamesWork> {
    others: S,
    job: Job<'p, 'w, N>,
}

impl<'p, 'w, S: Source, N: NamesWork> Model for TaskPort<'p, 'w, S, N> {
    ghost use Rattle.pb_locked.specs.Jobs.{JobValue, TellsOthers};

    ghost Value = { JobValue };

    ghost view = { λ port. port.job };

    ghost invariant = { λ port. TellsOthers N.plan port.job.task (S.asks port.others) (S.answers port.others) };
}

impl<'p, 'w, S: Source + Drop, N: NamesWork> TaskPort<'p, 'w, S, N> {
    fn into_job(self) -> Job<'p, 'w, N>
        ensures { result ≡ self.entry }
    {
        self.job
    }
}

impl<'p, 'w, S: Source, N: NamesWork> CellReader for TaskPort<'p, 'w, S, N> {
    ghost turn = { job_turn N.plan };

    fn read(&mut self, cell: u64) -> Outcome {
        if let Some(outcome) = self.job.own(cell) {
            return outcome;
        }
        self.others.ask(cell)
    }
}

impl<'p, 'w, S: Source, N: NamesWork> CellPort for TaskPort<'p, 'w, S, N> {
    fn write(&mut self, cell: u64, v: Outcome) {
        self.job.put(cell, v);
    }
}

/// Runs a task, and gives the outcomes of its cells.
fn run_task<S: Source + Drop, W: Work, N: NamesWork>(
    alloc: Global,
    places: &Places<'_, N>,
    worker: &mut Worker<'_, W, N>,
    task: u32,
    others: S,
) -> Result<Vec<Outcome>, AllocError>
    requires task { task < length N.plan.graph.tasks }
    requires others { TellsOthers N.plan task (S.asks others) (S.answers others) }
    ensures { IfOk result (λ values. values.items ≡ outcomes_of N.plan (cells_of N.plan.graph task)) }
{
    let job = Job::new(alloc, places, task)?;
    let mut port = TaskPort { others, job };
    worker.run(task, &mut port);
    Ok(port.into_job().into_values())
}

/// Runs a task that this worker has taken, while others run theirs: cells of others are read under the lock, one by one.
pub(crate) fn run_beside<R: Wait, W: Work, N: NamesWork>(
    rt: &R,
    alloc: Global,
    board: &Mutex<Board<'_, W, N>>,
    places: &Places<'_, N>,
    worker: &mut Worker<'_, W, N>,
    task: u32,
) -> Result<Vec<Outcome>, AllocError>
    requires { task < length N.plan.graph.tasks }
    ensures { IfOk result (λ values. values.items ≡ outcomes_of N.plan (cells_of N.plan.graph task)) }
{
    // What is known of the places is told with the graph.
    let _graph = places.graph();
    let others = |cell: u64| -> Outcome
        requires { cell < N.plan.graph.cells }
        ensures { result ≡ outcome_at N.plan.solution cell }
    { wait_for(rt, board, cell) };
    run_task(alloc, places, worker, task, Asked(others))
}

/// Runs a task that a hand has begun on this board, alone: cells of others are read from the board, where they are written.
pub(crate) fn run_alone<W: Work, N: NamesWork>(
    alloc: Global,
    board: &Board<'_, W, N>,
    places: &Places<'_, N>,
    worker: &mut Worker<'_, W, N>,
    hand: u32,
    task: u32,
) -> Result<Vec<Outcome>, AllocError>
    requires { HasBegun (state_of N.plan board.now) hand task }
    ensures { IfOk result (λ values. values.items ≡ outcomes_of N.plan (cells_of N.plan.graph task)) }
{
    // What is known of the places is told with the graph, and what is known of a board with `done`.
    let _graph = places.graph();
    let _done = board.done();
    let others = |cell: u64| -> Outcome
        requires { (cell < N.plan.graph.cells) × IsSome ((state_of N.plan board.now).value cell) }
        ensures { (state_of N.plan board.entry.now).value cell ≡ Some result }
    { board.value(cell).unwrap() };
    run_task(alloc, places, worker, task, Asked(others))
}
