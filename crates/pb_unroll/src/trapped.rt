ghost use Rattle.std.specs.Prelude.{◌≡◌, ◌+◌, ◌≤◌, drop, length, position, take};
ghost use Rattle.std.specs.List.{All};
ghost use Rattle.pb_run_work.specs.Running.{run_plan};
ghost use Rattle.pb_unroll.specs.Answers.{trapped_in};
ghost use Rattle.pb_unroll.specs.ShownCells.{IsShort, cells_shown, is_trapped};

use crate::places::place_of;
use pb_run_work::Run;
use pb_taskgraph::{MOST_CELLS, Outcomes};
use pb_values::{Outcome, Trap, View};
use std::marker::Model;

/// A cell whose outcome is a trap: the number of its matrix, its place, and the trap.
#[derive(Drop)]
pub struct TrappedCell {
    pub matrix: u32,
    pub x: u64,
    pub y: u64,
    pub trap: Trap,
}

impl Model for TrappedCell {
    ghost use Rattle.pb_model.specs.Calls as calls;

    ghost Value = { calls.TrappedCell };

    ghost view = { λ c. record { cell = record { matrix = c.matrix; x = c.x; y = c.y }; trap = c.trap } };
}

/// Whether an outcome is a trap.
fn is_trapped(outcome: &Outcome) -> bool
    ensures { result ≡ is_trapped outcome.now }
{
    matches!(outcome, Outcome::Trapped(_))
}

/// The number of the first outcome that is a trap among so many from `from` on, of which the first has number 0.
fn first_trap(outcomes: &Outcomes, from: u64, count: u64) -> Option<u64>
    requires room { from + count ≤ length outcomes.now }
    requires few { from + count ≤ MOST_CELLS }
    ensures { result ≡ position is_trapped (take count (drop from outcomes.now)) }
{
    if outcomes.is_untrapped() {
        return None;
    }
    for k in 0..count {
        let cell = from + k;
        if is_trapped(&outcomes.get(cell)) {
            return Some(k);
        }
    }
    None
}

/// How many cells matrices have, of no more than a run may have.
fn count_cells(views: &[View]) -> u64
    requires short { All IsShort views.now }
    requires few { cells_shown views.now ≤ MOST_CELLS }
    ensures { result ≡ cells_shown views.now }
{
    let mut cells = 0;
    for view in views {
        cells += view.shape.cells();
    }
    cells
}

/// The first trapped cell of a run with these outcomes: of the matrices of its first call after `through`, then of those after
/// `to`, in declared order, each row by row. What the calls below it make isn't looked at.
pub fn first_trapped(run: &Run<'_>, outcomes: &Outcomes) -> Option<TrappedCell>
    requires { outcomes.now ≡ (run_plan run.now).solution }
    ensures { result ≡ trapped_in run.now }
{
    let views = run.watched();
    let inputs = run.task_graph().inputs();
    let cell = first_trap(outcomes, inputs, count_cells(views))?;
    let (matrix, x, y) = place_of(views, run.transform().inputs, cell)?;
    let number = inputs + cell;
    match outcomes.get(number) {
        Outcome::Trapped(trap) => Some(TrappedCell { matrix, x, y, trap }),
        Outcome::Value(_) => None,
    }
}
