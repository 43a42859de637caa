ghost use Rattle.std.specs.Prelude.{◌≡◌, ◌<◌, ◌≤◌, ◌-◌, ◌++◌, ℕ, [], All, IfOk, OnOk, drop, length, map, take};
ghost use Rattle.std.specs.List.{sum_by};
ghost use Rattle.pb_taskgraph.specs.Graphs.{after_of};
ghost use Rattle.pb_cells.specs.Handles.{new_hand, new_job};
ghost use Rattle.pb_cells.specs.Views.{ready_tasks};
ghost use Rattle.pb_steal.specs.Crews.{AreDealtTo, IsEmpty, deques_of, others_after, own_deques};

use crate::deque::OwnDeque;
use crate::hand::CrewHand;
use crate::runner::successors;
use crate::source::Source;
use crate::ticket::Ticket;
use pb_cells::{Hand, Job, NamesTable};
use pb_taskgraph::{NamesWork, Work};
use std::alloc::{AllocError, Global};
use std::cmp::max;
use std::collections::VecDeque;

/// The greatest number of successors of a task.
pub(crate) fn most_successors<W: Work>(work: &W) -> usize
    ensures { (t : ℕ) → length (after_of (W.plan work.now).graph t) ≤ result }
{
    let mut most = 0;
    for task in 0..work.graph().tasks().len() {
        most = max(most, successors(work, task as u32).len());
    }
    most
}

/// So many empty deques, each with room for so many pushes.
pub(crate) fn empty_deques<N: NamesWork, B: NamesTable>(
    alloc: Global,
    hands: usize,
    room: usize,
) -> Result<Vec<OwnDeque<N, B>>, AllocError>
    ensures size { IfOk result (λ owns. length owns.items ≡ hands) }
    ensures empty { IfOk result (λ owns. All (IsEmpty room) owns.items) }
{
    let mut owns = Vec::with_capacity(alloc, hands)?;
    for _ in 0..hands {
        owns.push(OwnDeque::new(alloc, room)?)?;
    }
    Ok(owns)
}

/// A way to steal from each of these deques.
pub(crate) fn sources<N: NamesWork, B: NamesTable>(
    alloc: Global,
    owns: &Vec<OwnDeque<N, B>>,
) -> Result<Vec<Source<N, B>>, AllocError>
    ensures { IfOk result (λ sources. deques_of sources.items ≡ map (λ o. o.deque) owns.now.items) }
{
    let mut sources = Vec::with_capacity(alloc, owns.len())?;
    for place in 0..owns.len() {
        sources.push(owns[place].source()?)?;
    }
    Ok(sources)
}

/// Adds a way to steal from each deque from one place to before another.
fn add_sources<N: NamesWork, B: NamesTable>(
    others: &mut Vec<Source<N, B>>,
    sources: &Vec<Source<N, B>>,
    first: usize,
    end: usize,
) -> Result<(), AllocError>
    requires order { first ≤ end }
    requires inside { end ≤ length sources.now.items }
    ensures deques { OnOk result (deques_of others.new.items ≡ deques_of others.old.items ++ take (end - first) (drop first (deques_of sources.now.items))) }
    ensures took { OnOk result (sum_by (λ s. s.took) others.new.items ≡ sum_by (λ s. s.took) others.old.items) }
{
    for place in first..end {
        others.push(sources[place].again()?)?;
    }
    Ok(())
}

/// A way to steal from each other deque, beginning after a place.
fn others_of<N: NamesWork, B: NamesTable>(
    alloc: Global,
    sources: &Vec<Source<N, B>>,
    place: usize,
) -> Result<Vec<Source<N, B>>, AllocError>
    requires { place < length sources.now.items }
    ensures deques { IfOk result (λ others. deques_of others.items ≡ others_after place (deques_of sources.now.items)) }
    ensures took { IfOk result (λ others. sum_by (λ s. s.took) others.items ≡ 0) }
{
    let mut others = Vec::with_capacity(alloc, sources.len())?;
    add_sources(&mut others, sources, place + 1, sources.len())?;
    add_sources(&mut others, sources, 0, place)?;
    Ok(others)
}

/// A hand for each seat, with its own deque. Nothing is dealt.
pub(crate) fn crew_hands<'w, W: Work, N: NamesWork, B: NamesTable>(
    alloc: Global,
    work: &'w W,
    seats: Vec<Hand<N>>,
    owns: Vec<OwnDeque<N, B>>,
) -> Result<Vec<CrewHand<'w, W, N, B>>, AllocError>
    requires name { W.plan work.now ≡ N.plan }
    requires seats { All (λ s. s ≡ new_hand B.table) seats.items }
    requires size { length owns.items ≡ length seats.items }
    requires owns { All (IsEmpty (length N.plan.graph.tasks)) owns.items }
    ensures size { IfOk result (λ hands. length hands.items ≡ length seats.items) }
    ensures dealt { IfOk result (λ hands. AreDealtTo [] (map (λ o. o.deque) owns.items) hands.items) }
{
    let widest = most_successors(work);
    let sources = sources(alloc, &owns)?;
    let mut seats = seats;
    let mut owns = owns;
    let mut hands = Vec::with_capacity(alloc, seats.len())?;
    for place in 0..sources.len() {
        let others = others_of(alloc, &sources, place)?;
        let seat = seats.remove(0);
        let own = owns.remove(0);
        hands.push(CrewHand::new(alloc, work, seat, own, others, widest)?)?;
    }
    Ok(hands)
}

/// Deals the Jobs of the tasks without predecessors: the k-th, from 0, to hand k modulo the number of hands.
pub(crate) fn deal<W: Work, N: NamesWork, B: NamesTable>(
    hands: &mut Vec<CrewHand<'_, W, N, B>>,
    jobs: Vec<Job<N>>,
)
    requires some { 0 < length hands.old.items }
    requires jobs { jobs.items ≡ map (new_job B.table) (ready_tasks N.plan) }
    requires hands { AreDealtTo [] (own_deques hands.old.items) hands.old.items }
    ensures size { length hands.new.items ≡ length hands.old.items }
    ensures dealt { AreDealtTo (ready_tasks N.plan) (own_deques hands.old.items) hands.new.items }
{
    let mut rest = VecDeque::from_vec(jobs);
    let mut dealt = 0;
    while let Some(job) = rest.pop_front() {
        let hand = dealt % hands.len();
        hands[hand].deal(Ticket::new(job));
        dealt += 1;
    }
}
