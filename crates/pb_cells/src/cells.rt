ghost use Rattle.std.specs.Prelude.{◌≡◌, ◌+◌, ◌≤◌, ℕ, IfOk, IsSome, IsTrue, None, Some, length, map, replicate, slice_get};
ghost use Rattle.pb_values.specs.Cells.{TellsTrap, is_number};
ghost use Rattle.pb_values.specs.declared.outcome.Outcome.TheVariants.{Value};
ghost use Rattle.std.specs.List.{Contains};
ghost use Rattle.pb_taskgraph.specs.Graphs.{after_of};
ghost use Rattle.pb_taskgraph.specs.Plans.{outcome_at};
ghost use Rattle.pb_cells.specs.Handles.{HasPlainInputs, HasReleased, hand_with, new_hand, new_job, turn_at};
ghost use Rattle.pb_cells.specs.Steps.{AreTasks, IsFiledCount, IsPast, WaitsFor};
ghost use Rattle.pb_cells.specs.Views.{after_finish, after_mark, hand_view, job_view, ready_tasks, released_view};

use crate::deal::{deal_hands, deal_jobs};
use crate::first::{first_words, has_plain_inputs, ready_list};
use crate::seats::{Hand, Job};
use crate::steps::{
    AddFiled, CellsRule, DrawNumber, FirstTurn, LoadCell, LoadFiled, StoreMark, StoreNumber,
    StoreValue, TakeFromCount, TakeIn,
};
use crate::view::View;
use crate::words::{pack, trap_of, unpack};
use atomic_table::Table;
use pb_taskgraph::{NamesWork, Outcomes, Work};
use pb_values::{Outcome, Trap};
use std::alloc::{AllocError, Global};
use std::marker::Model;

/// The cells of a work, the counts and the finish numbers of its tasks, and how many are finished and filed, as words that threads
/// change by single steps; and the room for what the run will have told. Contracts see it as the table that it is.
#[derive(Drop)]
pub struct Cells<N: NamesWork> {
    pub(crate) table: Table<(), View, (), CellsRule<N>, Global>,
    pub(crate) cells: usize,
    pub(crate) tasks: usize,
    pub(crate) outcomes: Outcomes,
    pub(crate) order: Vec<u32>,
    // Whether it is known that each input cell has a number.
    pub(crate) plain: bool,
}

impl<N: NamesWork> Model for Cells<N> {
    ghost use Rattle.atomic_table.specs.Seated.{TableId};
    ghost use Rattle.pb_cells.specs.Handles.{IsCells};

    ghost Value = { TableId };

    ghost view = { λ c. c.table.shared.table_id };

    ghost invariant = { λ c. IsCells N.plan c.table.shared.table_id c.cells c.tasks c.outcomes c.order.items c.plain };
}

impl<N: NamesWork> Cells<N> {
    /// Whether it is known that each input cell has a number.
    pub(crate) fn has_plain_inputs(&self) -> bool
        ensures { IsTrue result → HasPlainInputs N.plan }
    {
        self.plain
    }

    /// The cells of a work before any step, so many Hands, and a Job for each task without predecessors, in order. All are of
    /// one table. It takes all memory that later calls need.
    pub fn new<W: Work>(
        alloc: Global,
        work: &W,
        hands: u32,
    ) -> Result<(Cells<N>, Vec<Hand<N>>, Vec<Job<N>>), AllocError>
        requires name { W.plan work.now ≡ N.plan }
        ensures hands { IfOk result (λ r. r.1.items ≡ replicate hands (new_hand r.0)) }
        ensures jobs { IfOk result (λ r. r.2.items ≡ map (new_job r.0) (ready_tasks N.plan)) }
    {
        let graph = work.graph();
        let words = first_words(alloc, work)?;
        let ready = ready_list(alloc, work)?;
        let (table, mut first) = Table::of_words(alloc, &words, &())?;
        let tasks = graph.tasks().len();
        let cells = Cells {
            table,
            cells: graph.cells() as usize,
            tasks,
            outcomes: Outcomes::zeros(alloc, graph.cells())?,
            order: vec![in alloc; 0u32; tasks]?,
            plain: has_plain_inputs(work, graph.inputs()),
        };
        let jobs = deal_jobs(alloc, &cells, &mut first, &ready)?;
        let dealt = deal_hands(alloc, &cells, &mut first, hands)?;
        Ok((cells, dealt, jobs))
    }

    /// The outcome of a cell that the task may read by now.
    pub fn read(&self, job: &mut Job<N>, cell: u64) -> Outcome
        requires table { job.old.table ≡ self.now }
        requires known { IsSome ((turn_at N.plan job.old.at).outcomes cell) }
        ensures outcome { result ≡ outcome_at N.plan.solution cell }
        ensures same { job.new ≡ job.old }
    {
        let mark = self
            .table
            .shared
            .load::<LoadCell<N>>(&mut job.seat, self.cells + cell as usize);
        let word = self
            .table
            .shared
            .load::<LoadCell<N>>(&mut job.seat, cell as usize);
        unpack(mark, word)
    }

    /// The trap of a cell that the task may read by now; none where it has a number. It loads the mark of the cell,
    /// and its value where the mark tells of a trap.
    pub fn trap(&self, job: &mut Job<N>, cell: u64) -> Option<Trap>
        requires table { job.old.table ≡ self.now }
        requires known { IsSome ((turn_at N.plan job.old.at).outcomes cell) }
        ensures trap { TellsTrap (Some (outcome_at N.plan.solution cell)) result }
        ensures same { job.new ≡ job.old }
    {
        let mark = self
            .table
            .shared
            .load::<LoadCell<N>>(&mut job.seat, self.cells + cell as usize);
        if mark == 1 {
            return None;
        }
        let word = self
            .table
            .shared
            .load::<LoadCell<N>>(&mut job.seat, cell as usize);
        trap_of(unpack(mark, word))
    }

    /// The number of a cell that the task may read by now, and that isn't trapped. It loads the value of the cell.
    pub fn number(&self, job: &mut Job<N>, cell: u64) -> i64
        requires table { job.old.table ≡ self.now }
        requires number { IsTrue (is_number ((turn_at N.plan job.old.at).outcomes cell)) }
        ensures number { outcome_at N.plan.solution cell ≡ Value result }
        ensures same { job.new ≡ job.old }
    {
        let word = self
            .table
            .shared
            .load::<LoadCell<N>>(&mut job.seat, cell as usize);
        word.cast_signed()
    }

    /// Writes the next cell of the task's own order, with the solution's outcome.
    pub fn write(&self, job: &mut Job<N>, cell: u64, v: Outcome)
        requires table { job.old.table ≡ self.now }
        requires next { slice_get (turn_at N.plan job.old.at).left 0 ≡ Some (cell, v) }
        ensures { job.new ≡ record job.old { at = after_mark job.old.at } }
    {
        let place = cell as usize;
        let cells = self.cells;
        let (mark, word) = pack(v);
        self.table
            .shared
            .store::<StoreValue<N>>(&mut job.seat, place, word);
        let mark_place = cells + place;
        self.table
            .shared
            .store::<StoreMark>(&mut job.seat, mark_place, mark);
    }

    /// Finishes the task, all cells of which are written: draws its finish number, stores it, and then files it.
    pub fn finish(&self, job: &mut Job<N>) -> u64
        requires table { job.old.table ≡ self.now }
        requires unfinished { job.old.at.number ≡ None }
        requires written { length (N.plan.order job.old.at.task) ≤ job.old.at.written }
        ensures { job.new ≡ record job.old { at = after_finish result job.old.at } }
    {
        let place = self.cells + self.cells + self.tasks;
        let number_place = place + job.task as usize;
        let finish_place = place + self.tasks;
        let number = self
            .table
            .shared
            .fetch_add::<DrawNumber>(&mut job.seat, finish_place, 1);
        self.table
            .shared
            .store::<StoreNumber>(&mut job.seat, number_place, number);
        self.table
            .shared
            .fetch_add::<AddFiled>(&mut job.seat, finish_place + 1, 1);
        number
    }

    /// Releases a successor of the finished task. A Job of the successor where its count became 0.
    pub fn release(&self, job: &mut Job<N>, next: u32) -> Option<Job<N>>
        requires table { job.old.table ≡ self.now }
        requires finished { IsSome job.old.at.number }
        requires successor { Contains (after_of N.plan.graph job.old.at.task) next }
        requires owed { Contains job.old.at.released next → ⊥ }
        ensures job { HasReleased job.old next result job.new }
        ensures count { WaitsFor N.plan (released_view (job.new.at.left + 1) next (job_view job.old.at job.old.opened)) next job.new.at.left }
    {
        let found = self
            .table
            .shared
            .fetch_sub::<TakeFromCount<N>>(
                &mut job.seat,
                self.cells + self.cells + next as usize,
                1,
            );
        if found != 1 {
            return None;
        }
        Some(Job::of(
            self.table.shared.split_seat::<FirstTurn>(&mut job.seat),
            next,
        ))
    }

    /// A Hand takes in a Job whose task is finished and has released all its successors.
    pub fn end(&self, hand: &mut Hand<N>, job: Job<N>)
        requires hand_table { hand.old.table ≡ self.now }
        requires job_table { job.table ≡ self.now }
        requires finished { IsSome job.at.number }
        requires paid { (next : ℕ) → Contains (after_of N.plan.graph job.at.task) next → Contains job.at.released next }
        ensures { hand.new ≡ hand_with hand.old job }
    {
        self.table
            .shared
            .join_seat::<TakeIn>(&mut hand.seat, job.into_seat());
    }

    /// Looks how many tasks are filed by now, finished with their numbers stored: no less than the Hand has seen before, nor than it has
    /// taken in. What the Hand's Jobs have opened are tasks with predecessors, and what it has taken in are tasks, each once.
    pub fn finished(&self, hand: &mut Hand<N>) -> u64
        requires table { hand.old.table ≡ self.now }
        ensures count { IsFiledCount N.plan (hand_view hand.old.opened hand.old.ran hand.old.seen hand.old.looks) result }
        ensures past { IsPast hand.old.seen hand.old.ran result }
        ensures few { result ≤ length N.plan.graph.tasks }
        ensures seen { hand.new ≡ record hand.old { seen = result; looks = hand.old.looks + 1 } }
        ensures told { AreTasks N.plan hand.new.opened hand.new.ran }
    {
        self.table.shared.load::<LoadFiled<N>>(
            &mut hand.seat,
            self.cells + self.cells + self.tasks + self.tasks + 1,
        )
    }
}
