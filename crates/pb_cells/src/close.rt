ghost use Rattle.std.specs.Prelude.{◌≡◌, ◌≤◌, length};
ghost use Rattle.std.specs.List.{Contains};
ghost use Rattle.std.specs.Mem.Slots.{IsFull, slots_items, slots_len};
ghost use Rattle.pb_taskgraph.specs.Orders.{IsLawful};
ghost use Rattle.pb_taskgraph.specs.Plans.{IsPlan};
ghost use Rattle.pb_cells.specs.Ends.{AreLast, HasAllNumbers, KnowsAll, SomeHas, StandByNumber};
ghost use Rattle.pb_cells.specs.Handles.{HandValue, gathered};

use crate::cells::Cells;
use crate::seats::Hand;
use crate::steps::Gather;
use crate::words::unpack;
use atomic_table::Closed;
use pb_taskgraph::{Finished, NamesWork, Outcomes};
use std::alloc::Global;

/// One Hand of all: it takes in what the others know.
fn one_of_all<N: NamesWork>(cells: &Cells<N>, hands: Vec<Hand<N>>) -> Hand<N>
    requires tables { (hand : HandValue) → Contains hands.items hand → hand.table ≡ cells.now }
    requires some { SomeHas hands.items (length N.plan.graph.tasks) }
    ensures table { result.table ≡ cells.now }
    ensures all { KnowsAll hands.items result }
{
    let mut hands = hands;
    let Some(hand) = hands.pop() else {
        unreachable!()
    };
    let mut all = hand;
    while let Some(hand) = hands.pop() {
        cells.gather(&mut all, hand);
    }
    all
}

/// The outcomes that the last words tell.
fn told_outcomes<N: NamesWork>(words: &Closed<(), Global>, cells: usize, room: Outcomes) -> Outcomes
    requires plan { IsPlan N.plan }
    requires full { IsFull words.now.words }
    requires last { AreLast N.plan (slots_items words.now.words) }
    requires cells { cells ≡ N.plan.graph.cells }
    requires room { length room ≡ cells }
    ensures { result ≡ N.plan.solution }
{
    let mut outcomes = room;
    for cell in 0..cells {
        let outcome = unpack(words.word(cells + cell), words.word(cell));
        outcomes.set(cell as u64, outcome);
    }
    outcomes
}

/// The tasks by the finish numbers that the last words tell.
fn told_order<N: NamesWork>(
    words: &Closed<(), Global>,
    cells: usize,
    tasks: usize,
    room: Vec<u32>,
) -> Vec<u32>
    requires plan { IsPlan N.plan }
    requires full { IsFull words.now.words }
    requires last { AreLast N.plan (slots_items words.now.words) }
    requires cells { cells ≡ N.plan.graph.cells }
    requires tasks { tasks ≡ length N.plan.graph.tasks }
    requires room { length room.items ≡ tasks }
    ensures size { length result.items ≡ tasks }
    ensures stand { StandByNumber N.plan (slots_items words.now.words) tasks result.items }
{
    let first = cells + cells + tasks;
    let mut order = room;
    for task in 0..tasks {
        let number = words.word(first + task);
        order[number as usize] = task as u32;
    }
    order
}

impl<N: NamesWork> Cells<N> {
    /// A Hand takes in what another one knows.
    pub fn gather(&self, hand: &mut Hand<N>, other: Hand<N>)
        requires hand_table { hand.old.table ≡ self.now }
        requires other_table { other.table ≡ self.now }
        ensures { hand.new ≡ gathered hand.old other }
    {
        self.table
            .shared
            .join_seat::<Gather>(&mut hand.seat, other.into_seat());
    }

    /// What the run has told, once a Hand has seen all tasks filed: the solution, and the tasks by their finish numbers, as the Hands
    /// know them. It takes no memory.
    pub fn close(self, hands: Vec<Hand<N>>) -> Finished
        requires tables { (hand : HandValue) → Contains hands.items hand → hand.table ≡ self }
        requires some { SomeHas hands.items (length N.plan.graph.tasks) }
        ensures outcomes { result.outcomes ≡ N.plan.solution }
        ensures numbers { HasAllNumbers hands.items result.order }
        ensures lawful { IsLawful N.plan.graph result.order }
    {
        let hand = one_of_all(&self, hands);
        let Cells {
            table,
            cells,
            tasks,
            outcomes,
            order,
            plain: _,
        } = self;
        let words = table.close_with(hand.into_seat());
        let outcomes = told_outcomes::<N>(&words, cells, outcomes);
        let order = told_order::<N>(&words, cells, tasks, order);
        words.free();
        Finished { outcomes, order }
    }
}
