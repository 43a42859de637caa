ghost use Rattle.std.specs.Prelude.{◌≡◌, ◌<◌, ℕ, IfOk, [], length, map, replicate};
ghost use Rattle.std.specs.List.{Contains};
ghost use Rattle.pb_cells.specs.Handles.{new_hand, new_job};
ghost use Rattle.pb_cells.specs.Views.{turns_view};

use crate::cells::Cells;
use crate::seats::{Hand, Job};
use crate::steps::{FirstTurn, NoTurn};
use crate::view::View;
use atomic_table::Seat;
use pb_taskgraph::NamesWork;
use std::alloc::{AllocError, Global};

/// A Job for each of these tasks, whose turns the first seat holds.
pub(crate) fn deal_jobs<N: NamesWork>(
    alloc: Global,
    cells: &Cells<N>,
    first: &mut Seat<(), View>,
    ready: &[u32],
) -> Result<Vec<Job<N>>, AllocError>
    requires table { first.old.table_id ≡ cells.now }
    requires turns { first.old.me ≡ (turns_view ready.now, []) }
    requires tasks { (t : ℕ) → Contains ready.now t → t < length N.plan.graph.tasks }
    ensures jobs { IfOk result (λ jobs. jobs.items ≡ map (new_job cells.now) ready.now) }
    ensures table { first.new.table_id ≡ cells.now }
{
    let mut jobs = Vec::new(alloc);
    for place in 0..ready.len() {
        let seat = cells.table.shared.split_seat::<FirstTurn>(first);
        jobs.push(Job::of(seat, ready[place]))?;
    }
    Ok(jobs)
}

/// So many Hands.
pub(crate) fn deal_hands<N: NamesWork>(
    alloc: Global,
    cells: &Cells<N>,
    first: &mut Seat<(), View>,
    hands: u32,
) -> Result<Vec<Hand<N>>, AllocError>
    requires { first.old.table_id ≡ cells.now }
    ensures { IfOk result (λ dealt. dealt.items ≡ replicate hands (new_hand cells.now)) }
{
    let mut dealt = Vec::new(alloc);
    for hand in 0..hands {
        let seat = cells.table.shared.split_seat::<NoTurn>(first);
        dealt.push(Hand::of(seat))?;
    }
    Ok(dealt)
}
