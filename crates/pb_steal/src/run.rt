ghost use Rattle.std.specs.Prelude.{◌≡◌, ◌≤◌, All, IfOk, length, map, replicate, true};
ghost use Rattle.pb_taskgraph.specs.Orders.{IsLawful};
ghost use Rattle.pb_cells.specs.Handles.{new_hand, new_job};
ghost use Rattle.pb_cells.specs.Views.{ready_tasks};

use crate::crew::Crew;
use crate::hand::CrewHand;
use crate::turn::Turn;
use crossbeam_utils::Backoff;
use pb_cells::{Cells, Hand, Job, NamesTable};
use pb_taskgraph::{Finished, Gate, NamesWork, Work};
use std::alloc::{AllocError, Global};
use std::cmp::{max, min};
use std::marker::Brand;
use std::sync::Wait;
use std::thread;
use std::thread::Threads;

/// A hand takes turn after turn until all tasks are filed. It waits after an idle one.
fn work_on<'w, R: Wait, W: Work, G: Gate, N: NamesWork, B: NamesTable>(
    rt: &R,
    crew: &Crew<'w, W, N, B>,
    hand: &mut CrewHand<'w, W, N, B>,
    gate: &G,
)
    ensures { hand.new.done ≡ true }
{
    let backoff = Backoff::new();
    for _ in rt.forever() {
        match crew.turn(hand, gate) {
            Turn::Ran(_) => backoff.reset(),
            Turn::Idle => backoff.snooze(),
            Turn::Done => return,
        }
    }
    unreachable!()
}

/// Each hand works in a thread of its own.
fn work_all<
    'w,
    R: Threads + Wait + Sync,
    W: Work,
    G: Gate,
    N: NamesWork + Send + Sync,
    B: NamesTable + Send + Sync,
>(rt: &R, crew: &Crew<'w, W, N, B>, hands: &mut [CrewHand<'w, W, N, B>], gate: &G)
    requires { 1 ≤ length hands.old }
    ensures size { length hands.new ≡ length hands.old }
    ensures done { All (λ hand. hand.done ≡ true) hands.new }
{
    let threads = hands.len();
    thread::for_each_mut(
        rt,
        hands,
        threads,
        &|_, hand: &mut CrewHand<W, N, B>| work_on(rt, crew, hand, gate),
    );
}

/// Runs the tasks: each hand in a thread of its own, turn after turn. It takes no memory.
pub fn run_crew<
    'w,
    R: Threads + Wait + Sync,
    W: Work,
    G: Gate,
    N: NamesWork + Send + Sync,
    B: NamesTable + Send + Sync,
>(rt: &R, crew: Crew<'w, W, N, B>, hands: Vec<CrewHand<'w, W, N, B>>, gate: &G) -> Finished
    requires { 1 ≤ length hands.items }
    ensures outcomes { result.outcomes ≡ N.plan.solution }
    ensures lawful { IsLawful N.plan.graph result.order }
{
    let mut hands = hands;
    work_all(rt, &crew, &mut hands, gate);
    crew.close(hands)
}

/// Runs the tasks of a work over a table that has a name.
fn run_cells<
    N: NamesWork + Send + Sync,
    B: NamesTable + Send + Sync,
    R: Threads + Wait + Sync,
    W: Work,
    G: Gate,
>(
    rt: &R,
    alloc: Global,
    work: &W,
    cells: Cells<N>,
    hands: Vec<Hand<N>>,
    jobs: Vec<Job<N>>,
    gate: &G,
) -> Result<Finished, AllocError>
    requires name { W.plan work.now ≡ N.plan }
    requires table { cells ≡ B.table }
    requires hands { All (λ hand. hand ≡ new_hand B.table) hands.items }
    requires some { 1 ≤ length hands.items }
    requires few { length hands.items ≤ 64 }
    requires jobs { jobs.items ≡ map (new_job B.table) (ready_tasks N.plan) }
    ensures outcomes { IfOk result (λ f. f.outcomes ≡ N.plan.solution) }
    ensures lawful { IfOk result (λ f. IsLawful N.plan.graph f.order) }
{
    let (crew, hands) = Crew::<W, N, B>::new(alloc, work, cells, hands, jobs)?;
    Ok(run_crew(rt, crew, hands, gate))
}

/// How many hands so many workers have: no more than there are tasks, but one where there is none. A hand for which there is no task
/// would only look, and what is dealt to the others is the same without it.
fn hands_for<W: Work>(work: &W, workers: u32) -> u32
    requires { 1 ≤ workers }
    ensures some { 1 ≤ result }
    ensures few { result ≤ workers }
{
    let tasks = work.graph().tasks().len() as u32;
    min(workers, max(tasks, 1))
}

/// Runs the tasks of a work that has a name.
fn run_named<N: NamesWork + Send + Sync, R: Threads + Wait + Sync, W: Work, G: Gate>(
    rt: &R,
    alloc: Global,
    work: &W,
    workers: u32,
    gate: &G,
) -> Result<Finished, AllocError>
    requires name { W.plan work.now ≡ N.plan }
    requires some { 1 ≤ workers }
    requires few { workers ≤ 64 }
    ensures outcomes { IfOk result (λ f. f.outcomes ≡ N.plan.solution) }
    ensures lawful { IfOk result (λ f. IsLawful N.plan.graph f.order) }
{
    let (cells, hands, jobs) = Cells::<N>::new(alloc, work, hands_for(work, workers))?;
    run_cells::<N, Brand, R, W, G>(rt, alloc, work, cells, hands, jobs, gate)
}

/// Runs the tasks by so many workers, but no more than there are tasks, each in a thread of its own with a deque of its own. Who
/// finds none steals.
pub fn run_steal<R: Threads + Wait + Sync, W: Work, G: Gate>(
    rt: &R,
    alloc: Global,
    work: &W,
    workers: u32,
    gate: &G,
) -> Result<Finished, AllocError>
    requires some { 1 ≤ workers }
    requires few { workers ≤ 64 }
    ensures outcomes { IfOk result (λ f. f.outcomes ≡ (W.plan work.now).solution) }
    ensures lawful { IfOk result (λ f. IsLawful (W.plan work.now).graph f.order) }
{
    run_named::<Brand, R, W, G>(rt, alloc, work, workers, gate)
}
