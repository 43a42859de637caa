use crate::view::View;
use atomic_table::Seat;
use pb_taskgraph::NamesWork;
use std::marker::{Model, PhantomData};

/// The right to run one task: it has the turn of the task, and what is known of it. Its bytes are the task's number.
#[derive(Drop)]
pub struct Job<N: NamesWork> {
    pub(crate) seat: Seat<(), View>,
    pub(crate) task: u32,
    of: PhantomData<N>,
}

impl<N: NamesWork> Model for Job<N> {
    ghost use Rattle.pb_cells.specs.Handles.{IsJob, JobValue, task_of};

    ghost Value = { JobValue };

    ghost view = { λ j. record { table = j.seat.table_id; at = task_of j.seat.me.0.job; opened = j.seat.me.0.opened } };

    ghost invariant = { λ j. IsJob N.plan j.seat.me j.task };
}

/// What a worker knows of the tasks that it has run. It has no bytes.
#[derive(Drop)]
pub struct Hand<N: NamesWork> {
    pub(crate) seat: Seat<(), View>,
    of: PhantomData<N>,
}

impl<N: NamesWork> Model for Hand<N> {
    ghost use Rattle.pb_cells.specs.Handles.{HandValue, IsHand};

    ghost Value = { HandValue };

    ghost view = { λ h. record { table = h.seat.table_id; opened = h.seat.me.0.opened; ran = h.seat.me.0.ran; seen = h.seat.me.0.seen; looks = h.seat.me.0.looks } };

    ghost invariant = { λ h. IsHand h.seat.me };
}

impl<N: NamesWork> Job<N> {
    ghost use Rattle.std.specs.Prelude.{◌≡◌, ◌<◌, []};
    ghost use Rattle.std.specs.Prelude.{is_some, length};
    ghost use Rattle.pb_cells.specs.Handles.{new_job};
    ghost use Rattle.pb_cells.specs.Views.{job_view, untouched};

    /// The Job of a task of which nothing is done.
    pub(crate) fn of(seat: Seat<(), View>, task: u32) -> Job<N>
        requires me { seat.me ≡ (job_view (untouched task) [], []) }
        requires task { task < length N.plan.graph.tasks }
        ensures { result ≡ new_job seat.table_id task }
    {
        Job {
            seat,
            task,
            of: PhantomData,
        }
    }

    /// The number of its task.
    pub fn task(&self) -> u32
        ensures task { result ≡ self.now.at.task }
        ensures below { result < length N.plan.graph.tasks }
    {
        self.task
    }

    pub(crate) fn into_seat(self) -> Seat<(), View>
        ensures table { result.table_id ≡ self.table }
        ensures me { result.me ≡ (job_view self.at self.opened, []) }
        ensures filed { self.at.filed ≡ is_some self.at.number }
    {
        let Job {
            seat,
            task: _,
            of: _,
        } = self;
        seat
    }
}

impl<N: NamesWork> Hand<N> {
    ghost use Rattle.std.specs.Prelude.{◌≡◌, []};
    ghost use Rattle.pb_cells.specs.Handles.{new_hand};
    ghost use Rattle.pb_cells.specs.Views.{hand_view, no_view};

    /// The Hand of a seat that knows nothing.
    pub(crate) fn of(seat: Seat<(), View>) -> Hand<N>
        requires { seat.me ≡ (no_view, []) }
        ensures { result ≡ new_hand seat.table_id }
    {
        Hand {
            seat,
            of: PhantomData,
        }
    }

    pub(crate) fn into_seat(self) -> Seat<(), View>
        ensures table { result.table_id ≡ self.table }
        ensures me { result.me ≡ (hand_view self.opened self.ran self.seen self.looks, []) }
    {
        let Hand { seat, of: _ } = self;
        seat
    }
}
