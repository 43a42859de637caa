ghost use Rattle.std.specs.Prelude.{◌≡◌, ◌≤◌, All, length, map, true};
ghost use Rattle.pb_steal.specs.Crews.{IsOneOf};

use crate::deal::{crew_hands, deal, empty_deques};
use crate::hand::CrewHand;
use crate::take::take;
use crate::turn::Turn;
use pb_cells::{Cells, Hand, Job, NamesTable};
use pb_taskgraph::{Finished, Gate, NamesWork, Work};
use std::alloc::{AllocError, Global};
use std::marker::{Model, PhantomData};

/// The seats of these hands as one, which has taken in what all know.
fn one_seat<W: Work, N: NamesWork, B: NamesTable>(
    cells: &Cells<N>,
    hands: Vec<CrewHand<'_, W, N, B>>,
) -> Vec<Hand<N>>
    requires cells { cells.now ≡ B.table }
    requires some { 1 ≤ length hands.items }
    requires done { All (λ hand. hand.done ≡ true) hands.items }
    ensures { IsOneOf (length N.plan.graph.tasks) B.table (map (λ hand. hand.seat) hands.entry.items) result.items }
{
    let mut hands = hands;
    let Some(hand) = hands.pop() else {
        unreachable!()
    };
    let (seat, room) = hand.into_seat();
    let mut all = seat;
    let mut seats = room;
    while let Some(hand) = hands.pop() {
        let (seat, _) = hand.into_seat();
        cells.gather(&mut all, seat);
    }
    seats.push_reserved(all);
    seats
}

/// What the hands share: the cells of the work.
#[derive(Drop)]
pub struct Crew<'w, W: Work, N: NamesWork, B: NamesTable> {
    cells: Cells<N>,
    work: &'w W,
    of: PhantomData<B>,
}

impl<'w, W: Work, N: NamesWork, B: NamesTable> Model for Crew<'w, W, N, B> {
    ghost use Rattle.std.specs.Prelude.{◌≡◌};
    ghost use Rattle.atomic_table.specs.Seated.{TableId};

    ghost Value = { TableId };

    ghost view = { λ c. c.cells };

    ghost invariant = { λ c. (W.plan c.work.now ≡ N.plan) × (c.cells ≡ B.table) };
}

impl<'w, W: Work, N: NamesWork, B: NamesTable> Crew<'w, W, N, B> {
    ghost use Rattle.std.specs.Prelude.{◌≡◌, ◌≤◌, All, IfOk, length, map, true};
    ghost use Rattle.pb_taskgraph.specs.Orders.{IsLawful};
    ghost use Rattle.pb_cells.specs.Ends.{HasAllNumbers};
    ghost use Rattle.pb_cells.specs.Handles.{new_hand, new_job};
    ghost use Rattle.pb_cells.specs.Views.{ready_tasks};
    ghost use Rattle.pb_steal.specs.Crews.{AreDealtTo, own_deques};
    ghost use Rattle.pb_steal.specs.Turns.{Turns};

    /// A crew over the cells of a work before any step, with one `CrewHand` for each `Hand`. It pushes every Job on a deque: the k-th,
    /// from 0, on that of hand k modulo the number of hands. It takes all memory that later calls need.
    pub fn new(
        alloc: Global,
        work: &'w W,
        cells: Cells<N>,
        hands: Vec<Hand<N>>,
        jobs: Vec<Job<N>>,
    ) -> Result<(Crew<'w, W, N, B>, Vec<CrewHand<'w, W, N, B>>), AllocError>
        requires name { W.plan work.now ≡ N.plan }
        requires table { cells ≡ B.table }
        requires hands { All (λ hand. hand ≡ new_hand B.table) hands.items }
        requires some { 1 ≤ length hands.items }
        requires few { length hands.items ≤ 64 }
        requires jobs { jobs.items ≡ map (new_job B.table) (ready_tasks N.plan) }
        ensures size { IfOk result (λ r. length r.1.items ≡ length hands.items) }
        ensures dealt { IfOk result (λ r. AreDealtTo (ready_tasks N.plan) (own_deques r.1.items) r.1.items) }
    {
        let tasks = work.graph().tasks().len();
        let owns = empty_deques(alloc, hands.len(), tasks)?;
        let mut dealt = crew_hands(alloc, work, hands, owns)?;
        deal(&mut dealt, jobs);
        let crew = Crew {
            cells,
            work,
            of: PhantomData,
        };
        Ok((crew, dealt))
    }

    /// A turn of a hand. It takes the first job of the hand's own deque, or else tries once to steal from each other one,
    /// beginning after its own number. The gate's `enter` is called before the task is run. Where there was no job, it looks at
    /// the filed count: Done where all tasks are filed, else Idle. It waits for nobody but the gate, and takes no memory.
    pub fn turn<G: Gate>(&self, hand: &mut CrewHand<'w, W, N, B>, gate: &G) -> Turn
        ensures { Turns N.plan hand.old result hand.new }
    {
        match take(&mut hand.own, &mut hand.others) {
            Some(ticket) => {
                let task = ticket.task();
                gate.enter(task);
                hand.runner.run(&self.cells, ticket);
                hand.runner.tell();
                hand.runner.push_row(&mut hand.own);
                hand.done = false;
                Turn::Ran(task)
            }
            None => {
                let tasks = self.work.graph().tasks().len() as u64;
                hand.done = hand.runner.look(&self.cells) == tasks;
                if hand.done { Turn::Done } else { Turn::Idle }
            }
        }
    }

    /// What the run has told, once each hand's last turn was Done: the solution, and the tasks by the finish numbers that the hands
    /// know.
    pub fn close(self, hands: Vec<CrewHand<'w, W, N, B>>) -> Finished
        requires some { 1 ≤ length hands.items }
        requires done { All (λ hand. hand.done ≡ true) hands.items }
        ensures outcomes { result.outcomes ≡ N.plan.solution }
        ensures numbers { HasAllNumbers (map (λ hand. hand.seat) hands.entry.items) result.order }
        ensures lawful { IsLawful N.plan.graph result.order }
    {
        let Crew { cells, .. } = self;
        let seats = one_seat(&cells, hands);
        cells.close(seats)
    }
}
