ghost use Rattle.std.specs.Prelude.{◌≡◌, ◌<◌, ◌≤◌, ◌+◌, ◌++◌, ℕ, [], IsSome, length};
ghost use Rattle.std.specs.List.{Contains};
ghost use Rattle.std.specs.VecDeque.{deque_capacity};
ghost use Rattle.pb_taskgraph.specs.Graphs.{EachOnce, after_of};
ghost use Rattle.pb_steal.specs.Turns.{Opens, ReleasesOne, RunsTask};

use crate::deque::OwnDeque;
use crate::ticket::Ticket;
use pb_cells::{Cells, Hand, Job, NamesTable};
use pb_taskgraph::{NamesWork, Work};
use std::alloc::{AllocError, Global};
use std::collections::VecDeque;
use std::marker::Model;

/// The successors of a task.
pub(crate) fn successors<W: Work>(work: &W, task: u32) -> &[u32]
    requires { task < length (W.plan work.now).graph.tasks }
    ensures nexts { result.now ≡ after_of (W.plan work.now).graph task }
    ensures once { EachOnce result.now }
{
    let links = &work.graph().tasks()[task as usize];
    &links.after
}

/// Releases a successor of a finished task. Where it became ready, its ticket goes to the row.
fn release_one<N: NamesWork, B: NamesTable>(
    cells: &Cells<N>,
    job: &mut Job<N>,
    next: u32,
    row: &mut VecDeque<Ticket<N, B>>,
)
    requires cells { cells.now ≡ B.table }
    requires table { job.old.table ≡ B.table }
    requires finished { IsSome job.old.at.number }
    requires successor { Contains (after_of N.plan.graph job.old.at.task) next }
    requires owed { Contains job.old.at.released next → ⊥ }
    requires room { length row.old.items < deque_capacity row.old }
    ensures released { ReleasesOne N.plan job.old row.old.items next job.new row.new.items }
    ensures room { deque_capacity row.new ≡ deque_capacity row.old }
{
    match cells.release(job, next) {
        Some(opened) => row.push_back_reserved(Ticket::new(opened)),
        None => {}
    }
}

/// Releases the successors of a finished task, in order. The tickets of those that became ready go to the row.
fn release_all<N: NamesWork, B: NamesTable>(
    cells: &Cells<N>,
    job: &mut Job<N>,
    nexts: &[u32],
    row: &mut VecDeque<Ticket<N, B>>,
)
    requires cells { cells.now ≡ B.table }
    requires table { job.old.table ≡ B.table }
    requires finished { IsSome job.old.at.number }
    requires nexts { nexts.now ≡ after_of N.plan.graph job.old.at.task }
    requires once { EachOnce nexts.now }
    requires released { job.old.at.released ≡ [] }
    requires opened { job.old.opened ≡ [] }
    requires row { row.old.items ≡ [] }
    requires room { length nexts.now ≤ deque_capacity row.old }
    ensures opens { Opens N.plan job.old.at.task nexts.now row.new.items }
    ensures opened { job.new.opened ≡ row.new.items }
    ensures paid { (next : ℕ) → Contains nexts.now next → Contains job.new.at.released next }
    ensures table { job.new.table ≡ job.old.table }
    ensures task { job.new.at.task ≡ job.old.at.task }
    ensures number { job.new.at.number ≡ job.old.at.number }
    ensures room { deque_capacity row.new ≡ deque_capacity row.old }
{
    for next in nexts {
        release_one(cells, job, *next, row);
    }
}

/// Pushes the tickets of a row, in order.
fn push_all<N: NamesWork, B: NamesTable>(own: &mut OwnDeque<N, B>, row: &mut VecDeque<Ticket<N, B>>)
    requires { length own.old.pushed + length row.old.items ≤ own.old.room }
    ensures pushed { own.new ≡ record own.old { pushed = own.old.pushed ++ row.old.items } }
    ensures row { row.new.items ≡ [] }
    ensures room { deque_capacity row.new ≡ deque_capacity row.old }
{
    while let Some(ticket) = row.pop_front() {
        own.push(ticket);
    }
}

/// Who runs tasks: its seat at the table, what it has run, and the room that its tasks use, one after another.
#[derive(Drop)]
pub(crate) struct Runner<'w, W: Work, N: NamesWork, B: NamesTable> {
    work: &'w W,
    scratch: W::Scratch,
    seat: Hand<N>,
    ran: Vec<u32>,
    row: VecDeque<Ticket<N, B>>,
    // Room for the seat, at the end.
    room: Vec<Hand<N>>,
}

impl<'w, W: Work, N: NamesWork, B: NamesTable> Model for Runner<'w, W, N, B> {
    ghost use Rattle.std.specs.Prelude.{◌≡◌, ◌≤◌, [], vec_capacity};
    ghost use Rattle.std.specs.VecDeque.{deque_capacity};
    ghost use Rattle.pb_steal.specs.Hands.{IsRunner, RunnerValue};

    ghost Value = { RunnerValue };

    ghost view = { λ r. record { seat = r.seat; ran = r.ran.items; row = r.row.items } };

    ghost invariant = { λ r. (W.plan r.work.now ≡ N.plan) × W.fits r.work.now r.scratch
        × IsRunner N.plan B.table (record { seat = r.seat; ran = r.ran.items; row = r.row.items }) (vec_capacity r.ran) (deque_capacity r.row) × (r.room.items ≡ []) × (1 ≤ vec_capacity r.room) };
}

impl<'w, W: Work, N: NamesWork, B: NamesTable> Runner<'w, W, N, B> {
    ghost use Rattle.std.specs.Prelude.{◌≡◌, ◌≤◌, ◌+◌, ◌++◌, [], length};
    ghost use Rattle.std.specs.Prelude.{IfOk, ◌∷◌, map, vec_capacity};
    ghost use Rattle.std.specs.Prelude.{ℕ};
    ghost use Rattle.pb_taskgraph.specs.Graphs.{after_of};
    ghost use Rattle.pb_cells.specs.Handles.{new_hand};
    ghost use Rattle.pb_cells.specs.Steps.{AreTasks, IsFiledCount};
    ghost use Rattle.pb_cells.specs.Views.{hand_view};
    ghost use Rattle.pb_steal.specs.Turns.{RunsTask};

    /// A runner that has done nothing. The row gets room for so many tickets.
    pub(crate) fn new(
        alloc: Global,
        work: &'w W,
        seat: Hand<N>,
        widest: usize,
    ) -> Result<Runner<'w, W, N, B>, AllocError>
        requires name { W.plan work.now ≡ N.plan }
        requires seat { seat ≡ new_hand B.table }
        requires widest { (t : ℕ) → length (after_of N.plan.graph t) ≤ widest }
        ensures { IfOk result (λ r. r ≡ record { seat = new_hand B.table; ran = []; row = [] }) }
    {
        let tasks = work.graph().tasks().len();
        Ok(Runner {
            work,
            scratch: work.scratch(alloc)?,
            seat,
            ran: Vec::with_capacity(alloc, tasks)?,
            row: VecDeque::with_capacity(alloc, widest)?,
            room: Vec::with_capacity(alloc, 1)?,
        })
    }

    /// The seat at the table, and a room for one.
    pub(crate) fn into_seat(self) -> (Hand<N>, Vec<Hand<N>>)
        ensures seat { result.0 ≡ self.entry.seat }
        ensures table { self.entry.seat.table ≡ B.table }
        ensures room { (result.1.items ≡ []) × (1 ≤ vec_capacity result.1) }
    {
        let Runner { seat, room, .. } = self;
        (seat, room)
    }

    /// The tasks that were run.
    pub(crate) fn ran(&self) -> &[u32]
        ensures { result.now ≡ self.now.ran }
    {
        &self.ran
    }

    /// Runs the task of a ticket whole. The tickets of the tasks that it opens go to the row.
    pub(crate) fn run(&mut self, cells: &Cells<N>, ticket: Ticket<N, B>)
        requires cells { cells.now ≡ B.table }
        requires row { self.old.row ≡ [] }
        ensures { RunsTask N.plan self.old ticket self.new }
    {
        let task = ticket.task();
        let work: &W = self.work;
        let mut job = cells.run(work, ticket.into_job(), &mut self.scratch);
        cells.finish(&mut job);
        release_all(cells, &mut job, successors(work, task), &mut self.row);
        cells.end(&mut self.seat, job);
        // What is known of a seat that has taken in a task is told with the count.
        cells.finished(&mut self.seat);
        self.ran.push_reserved(task);
    }

    /// How many tasks are filed by now.
    pub(crate) fn look(&mut self, cells: &Cells<N>) -> u64
        requires { cells.now ≡ B.table }
        ensures same { self.new ≡ record self.old { seat = record self.old.seat { seen = result; looks = self.old.seat.looks + 1 } } }
        ensures count { IsFiledCount N.plan (hand_view self.old.seat.opened self.old.seat.ran self.old.seat.seen self.old.seat.looks) result }
        ensures few { result ≤ length N.plan.graph.tasks }
    {
        cells.finished(&mut self.seat)
    }

    /// What is known of a runner.
    pub(crate) fn tell(&self)
        ensures table { self.now.seat.table ≡ B.table }
        ensures told { AreTasks N.plan self.now.seat.opened self.now.seat.ran }
        ensures ran { self.now.ran ≡ map (λ e. e.0) self.now.seat.ran }
    {
        let _seat = &self.seat;
    }

    /// Pushes the tickets of the row on the own deque, in order.
    pub(crate) fn push_row(&mut self, own: &mut OwnDeque<N, B>)
        requires { length own.old.pushed + length self.old.row ≤ own.old.room }
        ensures row { self.new ≡ record self.old { row = [] } }
        ensures pushed { own.new ≡ record own.old { pushed = own.old.pushed ++ self.old.row } }
    {
        push_all(own, &mut self.row);
    }
}
