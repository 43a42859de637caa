ghost use Rattle.std.specs.Prelude.{◌≡◌, ◌<◌, ◌≤◌, IfNone, IfOk, IfSome, IsSome, Some, length, slice_get};
ghost use Rattle.pb_taskgraph.specs.Graphs.{cells_of};
ghost use Rattle.pb_taskgraph.specs.Plans.{outcome_at};
ghost use Rattle.pb_taskgraph.specs.Turns.{after_write};
ghost use Rattle.pb_locked.specs.Boards.{outcomes_of};
ghost use Rattle.pb_locked.specs.Jobs.{IsOthers, job_turn};

use crate::places::Places;
use pb_taskgraph::NamesWork;
use pb_values::Outcome;
use std::alloc::{AllocError, Global};
use std::marker::Model;

/// A task that is run, with the outcomes of the cells that it has written so far.
#[derive(Drop)]
pub(crate) struct Job<'p, 'w, N: NamesWork> {
    places: &'p Places<'w, N>,
    task: u32,
    written: usize,
    values: Vec<Outcome>,
}

impl<'p, 'w, N: NamesWork> Model for Job<'p, 'w, N> {
    ghost use Rattle.pb_locked.specs.Jobs.{IsJob, JobValue};

    ghost Value = { JobValue };

    ghost view = { λ j. record { task = j.task; written = j.written } };

    ghost invariant = { λ j. IsJob N.plan j.places.now j.task j.written j.values.items };
}

impl<'p, 'w, N: NamesWork> Job<'p, 'w, N> {
    /// A task of which no cell is written.
    pub(crate) fn new(
        alloc: Global,
        places: &'p Places<'w, N>,
        task: u32,
    ) -> Result<Job<'p, 'w, N>, AllocError>
        requires { task < length N.plan.graph.tasks }
        ensures { IfOk result (λ job. job ≡ record { task = task; written = 0 }) }
    {
        // What is known of the places is told with the graph.
        let _graph = places.graph();
        let count = places.count(task);
        Ok(Job {
            places,
            task,
            written: 0,
            values: vec![in alloc; Outcome::Value(0); count]?,
        })
    }

    /// The outcome of a cell that the task may read, if the task has written it; None where others make it.
    pub(crate) fn own(&self, cell: u64) -> Option<Outcome>
        requires { IsSome ((job_turn N.plan self.now).outcomes cell) }
        ensures own { IfSome result (λ v. v ≡ outcome_at N.plan.solution cell) }
        ensures others { IfNone result (IsOthers N.plan self.now.task cell) }
        ensures below { cell < N.plan.graph.cells }
    {
        let graph = self.places.graph();
        if cell < graph.inputs() {
            return None;
        }
        if graph.owner(cell) != self.task {
            return None;
        }
        Some(self.values[self.places.place(cell)])
    }

    /// Keeps the outcome of the next cell.
    pub(crate) fn put(&mut self, cell: u64, v: Outcome)
        requires { slice_get (job_turn N.plan self.old).left 0 ≡ Some (cell, v) }
        ensures turn { job_turn N.plan self.new ≡ after_write (job_turn N.plan self.old) cell v }
        ensures task { self.new.task ≡ self.old.task }
    {
        let place = self.places.place(cell);
        self.values[place] = v;
        self.written += 1;
    }

    /// The outcomes of the task's cells, part by part, each row by row.
    pub(crate) fn into_values(self) -> Vec<Outcome>
        requires { length (N.plan.order self.task) ≤ self.written }
        ensures { result.items ≡ outcomes_of N.plan (cells_of N.plan.graph self.entry.task) }
    {
        self.values
    }
}
