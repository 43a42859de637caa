use pb_cells::{Job, NamesTable};
use pb_taskgraph::NamesWork;
use std::marker::{Model, PhantomData};

/// A Job of a task of which nothing is done, of the table that `B` names. Contracts see it as the task's number.
#[derive(Drop)]
pub(crate) struct Ticket<N: NamesWork, B: NamesTable> {
    job: Job<N>,
    of: PhantomData<B>,
}

impl<N: NamesWork, B: NamesTable> Model for Ticket<N, B> {
    ghost use Rattle.std.specs.Prelude.{◌≡◌, ℕ};
    ghost use Rattle.pb_cells.specs.Handles.{new_job};

    ghost Value = { ℕ };

    ghost view = { λ t. t.job.at.task };

    ghost invariant = { λ t. t.job ≡ new_job B.table t.job.at.task };
}

impl<N: NamesWork, B: NamesTable> Ticket<N, B> {
    ghost use Rattle.std.specs.Prelude.{◌≡◌, ◌<◌, length};
    ghost use Rattle.pb_cells.specs.Handles.{new_job};

    pub(crate) fn new(job: Job<N>) -> Ticket<N, B>
        requires { job ≡ new_job B.table job.at.task }
        ensures { result ≡ job.at.task }
    {
        Ticket {
            job,
            of: PhantomData,
        }
    }

    /// The number of the task.
    pub(crate) fn task(&self) -> u32
        ensures task { result ≡ self.now }
        ensures below { result < length N.plan.graph.tasks }
    {
        self.job.task()
    }

    pub(crate) fn into_job(self) -> Job<N>
        ensures { result ≡ new_job B.table self }
    {
        self.job
    }
}
