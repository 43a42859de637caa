use crate::deque::{Keeping, Taking};
use crate::log::Log;
use crate::ticket::Ticket;
use crossbeam_deque::{Pass, Steal, Stealer};
use pb_cells::NamesTable;
use pb_taskgraph::NamesWork;
use std::alloc::{AllocError, Global};
use std::marker::Model;

/// The deque of another hand, of which a hand may steal.
#[derive(Drop)]
pub(crate) struct Source<N: NamesWork, B: NamesTable> {
    stealer: Stealer<Ticket<N, B>, Global, Log, Keeping>,
    pass: Pass<Ticket<N, B>, Log>,
}

impl<N: NamesWork, B: NamesTable> Model for Source<N, B> {
    ghost use Rattle.crossbeam_deque.specs.Handles as handles;
    ghost use Rattle.std.specs.Prelude.{◌≡◌, []};
    ghost use Rattle.pb_steal.specs.Deques.{SourceValue};

    ghost Value = { SourceValue };

    ghost view = { λ s. record { deque = (handles.stealer_deque s.stealer).0; took = (handles.view s.pass).took; gone = handles.taken s.pass } };

    ghost invariant = { λ s. (handles.stealer_flavor s.stealer ≡ 0) × handles.IsPassOf (handles.stealer_deque s.stealer) s.pass × ((handles.view s.pass).pushed ≡ []) };
}

impl<N: NamesWork, B: NamesTable> Source<N, B> {
    ghost use Rattle.std.specs.Prelude.{◌≡◌, IfOk};
    ghost use Rattle.crossbeam_deque.specs.Handles.{stealer_deque, stealer_flavor};
    ghost use Rattle.pb_steal.specs.Deques.{Steals};

    pub(crate) fn new(stealer: Stealer<Ticket<N, B>, Global, Log, Keeping>) -> Source<N, B>
        requires { stealer_flavor stealer ≡ 0 }
        ensures deque { result.deque ≡ (stealer_deque stealer).0 }
        ensures took { result.took ≡ 0 }
    {
        let pass = stealer.pass();
        Source { stealer, pass }
    }

    /// Another one of the same deque, for another hand.
    pub(crate) fn again(&self) -> Result<Source<N, B>, AllocError>
        ensures deque { IfOk result (λ s. s.deque ≡ self.now.deque) }
        ensures took { IfOk result (λ s. s.took ≡ 0) }
    {
        Ok(Source::new(self.stealer.clone()?))
    }

    /// Tries once to take the first ticket.
    pub(crate) fn steal(&mut self) -> Option<Ticket<N, B>>
        ensures { Steals self.old result self.new }
    {
        match self.stealer.steal_as::<Taking>(&mut self.pass) {
            Steal::Success(ticket) => Some(ticket),
            Steal::Empty | Steal::Retry => None,
        }
    }
}
