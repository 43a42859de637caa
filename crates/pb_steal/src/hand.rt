use crate::deque::OwnDeque;
use crate::runner::Runner;
use crate::source::Source;
use crate::ticket::Ticket;
use pb_cells::{Hand, NamesTable};
use pb_taskgraph::{NamesWork, Work};
use std::alloc::{AllocError, Global};
use std::marker::Model;

/// One of those who run the tasks of a work, for a thread of its own: a seat at the table with the room that its tasks use, its
/// own deque, and those of which it steals.
#[derive(Drop)]
pub struct CrewHand<'w, W: Work, N: NamesWork, B: NamesTable> {
    pub(crate) runner: Runner<'w, W, N, B>,
    pub(crate) own: OwnDeque<N, B>,
    pub(crate) others: Vec<Source<N, B>>,
    pub(crate) done: bool,
}

impl<'w, W: Work, N: NamesWork, B: NamesTable> Model for CrewHand<'w, W, N, B> {
    ghost use Rattle.std.specs.Prelude.{◌≡◌, []};
    ghost use Rattle.pb_steal.specs.Hands.{CrewHandValue, IsCrewHand};

    ghost Value = { CrewHandValue };

    ghost view = { λ h. record { seat = h.runner.seat; ran = h.runner.ran; own = h.own; others = h.others.items; done = h.done } };

    ghost invariant = { λ h. (h.runner.row ≡ []) × IsCrewHand N.plan B.table (record { seat = h.runner.seat; ran = h.runner.ran; own = h.own; others = h.others.items; done = h.done }) };
}

impl<'w, W: Work, N: NamesWork, B: NamesTable> CrewHand<'w, W, N, B> {
    ghost use Rattle.std.specs.Prelude.{◌≡◌, ◌≤◌, ◌++◌, ◌∷◌, ℕ, IfOk, [], false, length, true, vec_capacity};
    ghost use Rattle.std.specs.List.{Contains, sum_by};
    ghost use Rattle.pb_taskgraph.specs.Graphs.{after_of, before_of};
    ghost use Rattle.pb_cells.specs.Handles.{new_hand};
    ghost use Rattle.pb_steal.specs.Crews.{IsEmpty};
    ghost use Rattle.pb_steal.specs.Hands.{IsCrewHand};

    /// A hand to which nothing was dealt, with a row for so many tickets.
    pub(crate) fn new(
        alloc: Global,
        work: &'w W,
        seat: Hand<N>,
        own: OwnDeque<N, B>,
        others: Vec<Source<N, B>>,
        widest: usize,
    ) -> Result<CrewHand<'w, W, N, B>, AllocError>
        requires name { W.plan work.now ≡ N.plan }
        requires seat { seat ≡ new_hand B.table }
        requires own { IsEmpty (length N.plan.graph.tasks) own }
        requires others { sum_by (λ s. s.took) others.items ≡ 0 }
        requires widest { (t : ℕ) → length (after_of N.plan.graph t) ≤ widest }
        ensures { IfOk result (λ h. h ≡ record { seat = new_hand B.table; ran = []; own = own; others = others.items; done = false }) }
    {
        Ok(CrewHand {
            runner: Runner::new(alloc, work, seat, widest)?,
            own,
            others,
            done: false,
        })
    }

    /// Deals a task to a hand that has had no turn.
    pub(crate) fn deal(&mut self, ticket: Ticket<N, B>)
        requires new { self.old.seat.opened ≡ [] }
        requires fresh { Contains self.old.own.pushed ticket → ⊥ }
        requires ready { length (before_of N.plan.graph ticket) ≡ 0 }
        ensures { self.new ≡ record self.old { own = record self.old.own { pushed = self.old.own.pushed ++ ticket ∷ [] } } }
    {
        ticket.task();
        self.own.push(ticket);
    }

    /// The seat of a hand whose last turn was Done, which has seen all tasks filed; and a room for one.
    pub(crate) fn into_seat(self) -> (Hand<N>, Vec<Hand<N>>)
        requires { self.done ≡ true }
        ensures seat { result.0 ≡ self.entry.seat }
        ensures table { self.entry.seat.table ≡ B.table }
        ensures seen { self.entry.seat.seen ≡ length N.plan.graph.tasks }
        ensures room { (result.1.items ≡ []) × (1 ≤ vec_capacity result.1) }
    {
        let CrewHand { runner, .. } = self;
        runner.into_seat()
    }

    /// The tasks that it has run, in order.
    pub fn ran(&self) -> &[u32]
        ensures ran { result.now ≡ self.now.ran }
        ensures hand { IsCrewHand N.plan B.table self.now }
    {
        self.runner.ran()
    }

    /// The tasks that it has pushed on its own deque, in order: those that were dealt to it, and then those that it has opened.
    pub fn pushed(&self) -> &[u32]
        ensures pushed { result.now ≡ self.now.own.pushed }
        ensures hand { IsCrewHand N.plan B.table self.now }
    {
        self.own.pushed()
    }
}
