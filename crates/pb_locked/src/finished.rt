ghost use Rattle.std.specs.Prelude.{◌≡◌, IfOk};
ghost use Rattle.pb_core.specs.Cores.{state_of};
ghost use Rattle.pb_core.specs.Events.{AllFinished, by_number};
ghost use Rattle.pb_taskgraph.specs.Orders.{IsLawful};

use crate::board::Board;
use crate::places::Places;
use pb_taskgraph::{Finished, NamesWork, Outcomes, Work};
use std::alloc::{AllocError, Global};

/// The outcomes of all cells on a board of which all tasks are finished.
fn outcomes_on<W: Work, N: NamesWork>(
    alloc: Global,
    places: &Places<'_, N>,
    board: &Board<'_, W, N>,
) -> Result<Outcomes, AllocError>
    requires { AllFinished N.plan.graph (state_of N.plan board.now) }
    ensures { IfOk result (λ outcomes. outcomes ≡ N.plan.solution) }
{
    let cells = places.graph().cells();
    // What is known of a board is told with `done`.
    let _done = board.done();
    let mut outcomes = Outcomes::zeros(alloc, cells)?;
    for cell in 0..cells {
        outcomes.set(cell, board.value(cell).unwrap());
    }
    Ok(outcomes)
}

/// The tasks by their finish numbers on a board of which all tasks are finished.
fn order_on<W: Work, N: NamesWork>(
    alloc: Global,
    places: &Places<'_, N>,
    board: &Board<'_, W, N>,
) -> Result<Vec<u32>, AllocError>
    requires { AllFinished N.plan.graph (state_of N.plan board.now) }
    ensures { IfOk result (λ order. IsLawful N.plan.graph order.items) }
{
    let tasks = places.graph().tasks().len();
    // What is known of a board is told with `done`.
    let _done = board.done();
    let mut order = vec![in alloc; 0u32; tasks]?;
    for task in 0..tasks {
        let number = board.number(task as u32).unwrap();
        order[number as usize] = task as u32;
    }
    Ok(order)
}

/// What a board tells of which all tasks are finished.
pub(crate) fn finished<W: Work, N: NamesWork>(
    alloc: Global,
    places: &Places<'_, N>,
    board: &Board<'_, W, N>,
) -> Result<Finished, AllocError>
    requires { AllFinished N.plan.graph (state_of N.plan board.now) }
    ensures outcomes { IfOk result (λ f. f.outcomes ≡ N.plan.solution) }
    ensures order { IfOk result (λ f. IsLawful N.plan.graph f.order) }
{
    Ok(Finished {
        outcomes: outcomes_on(alloc, places, board)?,
        order: order_on(alloc, places, board)?,
    })
}
