ghost use Rattle.std.specs.Prelude.{◌≡◌, ◌<◌, ◌≤◌, IfNone, IfOk, IfSome, length};
ghost use Rattle.pb_taskgraph.specs.Orders.{IsLawful};
ghost use Rattle.pb_core.specs.Cores.{state_of};
ghost use Rattle.pb_core.specs.Events.{AllFinished};
ghost use Rattle.pb_locked.specs.Boards.{HasBegun};
ghost use Rattle.pb_locked.specs.Turns.{IsNext};

use crate::board::Board;
use crate::finished::finished;
use crate::places::Places;
use crate::ports::{Worker, run_alone, run_beside};
use crossbeam_utils::Backoff;
use pb_taskgraph::{Finished, Gate, NamesWork, Work};
use std::alloc::{AllocError, Global};
use std::marker::Brand;
use std::sync::atomic::{AtomicBool, Ordering};
use std::sync::{Mutex, Wait};
use std::thread;
use std::thread::Threads;

/// What a worker does next: it runs a task that it has taken, it waits, or it ends.
pub(crate) enum Turn {
    Run(u32),
    Wait,
    End,
}

/// What the workers share.
#[derive(Drop)]
struct Pool<'g, 'w, W: Work, G: Gate, N: NamesWork> {
    alloc: Global,
    gate: &'g G,
    places: Places<'w, N>,
    board: Mutex<Board<'w, W, N>>,
    // Whether a worker found no memory for the cells of its task.
    short: AtomicBool,
}

impl<'g, 'w, W: Work, G: Gate, N: NamesWork> Pool<'g, 'w, W, G, N> {
    /// Takes the least ready task, if there is one.
    fn next<R: Wait>(&self, rt: &R, hand: u32) -> Turn
        ensures { IsNext N.plan result }
    {
        if self.short.load(Ordering::SeqCst) {
            return Turn::End;
        }
        let mut board = self.board.lock(rt);
        if board.done() {
            return Turn::End;
        }
        match board.take(hand) {
            Some(task) => Turn::Run(task),
            None => Turn::Wait,
        }
    }

    /// Runs a task, and completes it under the lock.
    fn run<R: Wait>(
        &self,
        rt: &R,
        worker: &mut Worker<'_, W, N>,
        task: u32,
    ) -> Result<(), AllocError>
        requires { task < length N.plan.graph.tasks }
    {
        self.gate.enter(task);
        let values = run_beside(rt, self.alloc, &self.board, &self.places, worker, task)?;
        let _completed = self.board.lock(rt).complete(worker.hand(), task, &values);
        Ok(())
    }

    /// Runs tasks until the board is done.
    fn work<R: Wait>(&self, rt: &R, worker: &mut Worker<'_, W, N>) {
        let backoff = Backoff::new();
        for _ in rt.forever() {
            match self.next(rt, worker.hand()) {
                Turn::Run(task) => {
                    if self.run(rt, worker, task).is_err() {
                        self.short.store(true, Ordering::SeqCst);
                        return;
                    }
                    backoff.reset();
                }
                Turn::Wait => backoff.snooze(),
                Turn::End => return,
            }
        }
    }
}

/// So many workers.
fn crew<'w, W: Work, N: NamesWork>(
    alloc: Global,
    work: &'w W,
    workers: u32,
) -> Result<Vec<Worker<'w, W, N>>, AllocError>
    requires { W.plan work.now ≡ N.plan }
{
    let mut crew = Vec::with_capacity(alloc, workers as usize)?;
    for hand in 0..workers {
        crew.push(Worker::new(alloc, work, hand)?)?;
    }
    Ok(crew)
}

/// A task that is begun, by its hand and its number: one that was, or the least ready one; None where all are finished.
fn begin_rest<W: Work, N: NamesWork>(
    places: &Places<'_, N>,
    board: &mut Board<'_, W, N>,
    hand: u32,
) -> Option<(u32, u32)>
    ensures begun { IfSome result (λ b. HasBegun (state_of N.plan board.new) b.0 b.1) }
    ensures finished { IfNone result (AllFinished N.plan.graph (state_of N.plan board.new)) }
{
    // What is known of the places is told with the graph, and what is known of a board with `done`.
    let _graph = places.graph();
    let _done = board.done();
    if let Some(begun) = board.begun() {
        return Some(begun);
    }
    match board.take(hand) {
        Some(task) => Some((hand, task)),
        None => None,
    }
}

/// Runs all tasks that no worker has completed, one after another.
fn complete_rest<'w, W: Work, N: NamesWork>(
    rt: &impl Wait,
    alloc: Global,
    places: &Places<'_, N>,
    mut board: Board<'w, W, N>,
    worker: &mut Worker<'_, W, N>,
) -> Result<Board<'w, W, N>, AllocError>
    ensures { IfOk result (λ b. AllFinished N.plan.graph (state_of N.plan b)) }
{
    for _ in rt.forever() {
        let (hand, task) = match begin_rest(places, &mut board, worker.hand()) {
            Some(begun) => begun,
            None => return Ok(board),
        };
        let values = run_alone(alloc, &board, places, worker, hand, task)?;
        let _completed = board.complete(hand, task, &values);
    }
    unreachable!()
}

/// Runs the tasks of a work that has a name.
fn run_named<'w, N: NamesWork + Send + Sync, R: Threads + Wait + Sync, W: Work, G: Gate>(
    rt: &R,
    alloc: Global,
    work: &'w W,
    workers: u32,
    gate: &G,
) -> Result<Finished, AllocError>
    requires name { W.plan work.now ≡ N.plan }
    requires some { 1 ≤ workers }
    requires few { workers ≤ 64 }
    ensures outcomes { IfOk result (λ f. f.outcomes ≡ N.plan.solution) }
    ensures order { IfOk result (λ f. IsLawful N.plan.graph f.order) }
{
    let mut crew: Vec<Worker<'w, W, N>> = crew(alloc, work, workers)?;
    let mut caller: Worker<'w, W, N> = Worker::new(alloc, work, 0)?;
    let pool = Pool {
        alloc,
        gate,
        places: Places::new(alloc, work.graph())?,
        board: Mutex::new(Board::new(alloc, work, workers)?),
        short: AtomicBool::new(false),
    };
    thread::for_each_mut(
        rt,
        &mut crew,
        workers as usize,
        &|_, worker: &mut Worker<W, N>| pool.work(rt, worker),
    );
    let Pool { places, board, .. } = pool;
    let done = complete_rest(rt, alloc, &places, board.into_inner(), &mut caller)?;
    finished(alloc, &places, &done)
}

/// Runs the tasks by so many workers, each in a thread of its own. A worker takes the least ready task and runs it outside
/// the lock; what it reads of other tasks it reads under the lock, cell by cell. Each worker calls the gate's `enter` before
/// it runs a task. What no worker has completed when all have ended the caller completes.
pub fn run_locked<R: Threads + Wait + Sync, W: Work, G: Gate>(
    rt: &R,
    alloc: Global,
    work: &W,
    workers: u32,
    gate: &G,
) -> Result<Finished, AllocError>
    requires some { 1 ≤ workers }
    requires few { workers ≤ 64 }
    ensures outcomes { IfOk result (λ f. f.outcomes ≡ (W.plan work.now).solution) }
    ensures order { IfOk result (λ f. IsLawful (W.plan work.now).graph f.order) }
{
    run_named::<Brand, R, W, G>(rt, alloc, work, workers, gate)
}
