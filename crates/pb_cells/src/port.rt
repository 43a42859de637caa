ghost use Rattle.std.specs.Prelude.{◌≡◌, ◌<◌, ◌≤◌, IsTrue, Some, [], false, length};
ghost use Rattle.pb_values.specs.Cells.{is_number};
ghost use Rattle.pb_taskgraph.specs.Graphs.{before_of};
ghost use Rattle.pb_cells.specs.Handles.{HasPlainInputs, new_job};
ghost use Rattle.pb_cells.specs.Ports.{first_written, port_of, wholly_written};

use crate::cells::Cells;
use crate::names::NamesTable;
use crate::seats::Job;
use pb_taskgraph::{CellPort, NamesWork, Work};
use pb_values::{CellReader, Outcome, Trap};
use std::marker::{Brand, Model, PhantomData};

/// The port of a Job: its task reads and writes the words of the table that `B` names. It owns the Job until the task has run. It
/// may know that none of the cells that the task may read is trapped.
#[derive(Drop)]
pub struct JobPort<'c, N: NamesWork, B: NamesTable> {
    cells: &'c Cells<N>,
    job: Job<N>,
    untrapped: bool,
    of: PhantomData<B>,
}

impl<'c, N: NamesWork, B: NamesTable> Model for JobPort<'c, N, B> {
    ghost use Rattle.pb_cells.specs.Ports.{IsPort, PortValue};

    ghost Value = { PortValue };

    ghost view = { λ p. record { task = p.job.at.task; written = p.job.at.written } };

    ghost invariant = { λ p. IsPort N.plan B.table p.cells.now p.job p.untrapped };
}

/// Whether it is known that nothing is trapped that a task may read before it has written any cell: a task that waits for none may
/// read input cells alone.
fn begins_untrapped<N: NamesWork>(cells: &Cells<N>, waits: bool) -> bool
    ensures waits { IsTrue result → waits ≡ false }
    ensures inputs { IsTrue result → HasPlainInputs N.plan }
{
    if waits {
        return false;
    }
    cells.has_plain_inputs()
}

/// Whether it is known that nothing is trapped after an outcome is written, where that was known of what was told before.
fn stays_untrapped(before: bool, v: Outcome) -> bool
    ensures before { IsTrue result → IsTrue before }
    ensures written { IsTrue result → IsTrue (is_number (Some v)) }
{
    match v {
        Outcome::Value(_) => before,
        Outcome::Trapped(_) => false,
    }
}

impl<'c, N: NamesWork, B: NamesTable> JobPort<'c, N, B> {
    /// The port of a Job of a task of which nothing is done. `waits` is false only where the task has no predecessors.
    pub fn new(cells: &'c Cells<N>, job: Job<N>, waits: bool) -> JobPort<'c, N, B>
        requires table { cells.now ≡ B.table }
        requires job { job ≡ new_job B.table job.at.task }
        requires waits { waits ≡ false → before_of N.plan.graph job.at.task ≡ [] }
        ensures { result ≡ port_of job.at.task 0 }
    {
        JobPort {
            cells,
            job,
            untrapped: begins_untrapped(cells, waits),
            of: PhantomData,
        }
    }

    /// The Job, of whose task so many cells are written.
    pub fn into_job(self) -> Job<N>
        ensures job { result ≡ first_written B.table self.entry.task self.entry.written }
        ensures few { self.entry.written ≤ length (N.plan.order self.entry.task) }
    {
        self.job
    }
}

impl<'c, N: NamesWork, B: NamesTable> CellReader for JobPort<'c, N, B> {
    ghost use Rattle.pb_cells.specs.Ports.{port_turn};

    ghost turn = { port_turn N.plan };

    fn read(&mut self, cell: u64) -> Outcome {
        self.cells.read(&mut self.job, cell)
    }

    fn is_untrapped(&self) -> bool {
        self.untrapped
    }

    fn trap(&mut self, cell: u64) -> Option<Trap> {
        self.cells.trap(&mut self.job, cell)
    }

    fn number(&mut self, cell: u64) -> i64 {
        self.cells.number(&mut self.job, cell)
    }
}

impl<'c, N: NamesWork, B: NamesTable> CellPort for JobPort<'c, N, B> {
    fn write(&mut self, cell: u64, v: Outcome) {
        self.cells.write(&mut self.job, cell, v);
        self.untrapped = stays_untrapped(self.untrapped, v);
    }
}

/// Whether a task may have predecessors; where not, it is known that it has none.
fn waits<W: Work>(work: &W, task: u32) -> bool
    requires { task < length (W.plan work.now).graph.tasks }
    ensures { result ≡ false → before_of (W.plan work.now).graph task ≡ [] }
{
    let links = &work.graph().tasks()[task as usize];
    !links.before.is_empty()
}

/// Runs the task of a Job over a table that has a name.
fn run_named<W: Work, N: NamesWork, B: NamesTable>(
    cells: &Cells<N>,
    work: &W,
    task: u32,
    job: Job<N>,
    scratch: &mut W::Scratch,
) -> Job<N>
    requires name { W.plan work.now ≡ N.plan }
    requires table { cells.now ≡ B.table }
    requires job { job ≡ new_job B.table task }
    requires task { task < length N.plan.graph.tasks }
    requires fits { W.fits work.now scratch.old }
    ensures job { result ≡ wholly_written N.plan B.table task }
    ensures fits { W.fits work.now scratch.new }
{
    let mut port = JobPort::<N, B>::new(cells, job, waits(work, task));
    work.run(task, &mut port, scratch);
    port.into_job()
}

impl<N: NamesWork> Cells<N> {
    /// A work runs the task of a Job of which nothing is done. Afterwards all its cells are written.
    pub fn run<W: Work>(&self, work: &W, job: Job<N>, scratch: &mut W::Scratch) -> Job<N>
        requires name { W.plan work.now ≡ N.plan }
        requires job { job ≡ new_job self.now job.at.task }
        requires fits { W.fits work.now scratch.old }
        ensures job { result ≡ wholly_written N.plan self.now job.at.task }
        ensures fits { W.fits work.now scratch.new }
    {
        let task = job.task();
        run_named::<W, N, Brand>(self, work, task, job, scratch)
    }
}
