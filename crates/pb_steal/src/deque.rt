use crate::log::Log;
use crate::source::Source;
use crate::ticket::Ticket;
use crossbeam_deque::Worker;
use crossbeam_deque::protocol::{Outcome, Protocol};
use pb_cells::NamesTable;
use pb_taskgraph::NamesWork;
use std::alloc::{AllocError, Global};
use std::marker::Model;

/// The rule of a deque.
pub(crate) struct Keeping;

impl<N: NamesWork, B: NamesTable> Protocol<Ticket<N, B>, Log> for Keeping {
    ghost use Rattle.pb_steal.specs.Deques.{Keeps, no_log};

    ghost holds = { Keeps };

    ghost first = { no_log };

    ghost guest = { no_log };
}

/// A push.
struct Pushing;

impl<N: NamesWork, B: NamesTable> Outcome<Ticket<N, B>, Log> for Pushing {
    ghost use Rattle.std.specs.Prelude.{◌≡◌, ◌++◌};

    ghost then = { λ v xs w. w ≡ record v { pushed = v.pushed ++ xs } };
}

/// A pop, or a try to steal.
pub(crate) struct Taking;

impl<N: NamesWork, B: NamesTable> Outcome<Ticket<N, B>, Log> for Taking {
    ghost use Rattle.std.specs.Prelude.{◌≡◌, ◌+◌, length};
    ghost use Rattle.pb_steal.specs.Deques.{WasEmpty};

    ghost then = { λ v xs w. w ≡ record v { took = v.took + length xs } };

    ghost empty = { WasEmpty };
}

/// The deque of a hand, and the tasks that the hand has pushed on it. A pop takes the first task.
#[derive(Drop)]
pub(crate) struct OwnDeque<N: NamesWork, B: NamesTable> {
    worker: Worker<Ticket<N, B>, Global, Log, Keeping>,
    pushed: Vec<u32>,
    room: usize,
}

impl<N: NamesWork, B: NamesTable> Model for OwnDeque<N, B> {
    ghost use Rattle.std.specs.Prelude.{vec_capacity};
    ghost use Rattle.crossbeam_deque.specs.Handles.{worker_capacity, worker_deque, worker_flavor, worker_index, worker_port, worker_view};
    ghost use Rattle.pb_steal.specs.Deques.{IsOwn, OwnValue};

    ghost Value = { OwnValue };

    ghost view = { λ o. record { deque = (worker_deque o.worker).0; pushed = o.pushed.items; took = (worker_view o.worker).took; room = o.room } };

    ghost invariant = { λ o. IsOwn (record { deque = (worker_deque o.worker).0; pushed = o.pushed.items; took = (worker_view o.worker).took; room = o.room })
        (worker_view o.worker) (worker_flavor o.worker) (worker_port o.worker) (worker_index o.worker) (worker_capacity o.worker) (vec_capacity o.pushed) };
}

impl<N: NamesWork, B: NamesTable> OwnDeque<N, B> {
    ghost use Rattle.std.specs.Prelude.{◌≡◌, ◌<◌, ◌++◌, ◌∷◌, [], IfOk, length};
    ghost use Rattle.pb_steal.specs.Deques.{Pops};

    /// An empty deque with room for so many pushes.
    pub(crate) fn new(alloc: Global, room: usize) -> Result<OwnDeque<N, B>, AllocError>
        ensures pushed { IfOk result (λ o. o.pushed ≡ []) }
        ensures took { IfOk result (λ o. o.took ≡ 0) }
        ensures room { IfOk result (λ o. o.room ≡ room) }
    {
        Ok(OwnDeque {
            worker: Worker::fifo_as(alloc, room)?,
            pushed: Vec::with_capacity(alloc, room)?,
            room,
        })
    }

    /// The tasks that were pushed.
    pub(crate) fn pushed(&self) -> &[u32]
        ensures { result.now ≡ self.now.pushed }
    {
        &self.pushed
    }

    /// Pushes a ticket. The room is taken already.
    pub(crate) fn push(&mut self, ticket: Ticket<N, B>)
        requires { length self.old.pushed < self.old.room }
        ensures { self.new ≡ record self.old { pushed = self.old.pushed ++ ticket ∷ [] } }
    {
        self.pushed.push_reserved(ticket.task());
        match self.worker.push_as::<Pushing>(ticket) {
            Ok(()) => {}
            Err(_) => unreachable!(),
        }
    }

    /// Takes the first ticket.
    pub(crate) fn pop(&mut self) -> Option<Ticket<N, B>>
        ensures { Pops self.old result self.new }
    {
        self.worker.pop_as::<Taking>()
    }

    /// A way for another hand to steal from this deque.
    pub(crate) fn source(&self) -> Result<Source<N, B>, AllocError>
        ensures deque { IfOk result (λ s. s.deque ≡ self.now.deque) }
        ensures took { IfOk result (λ s. s.took ≡ 0) }
    {
        Ok(Source::new(self.worker.stealer()?))
    }
}
