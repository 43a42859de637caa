ghost use Rattle.std.specs.Prelude.{◌≡◌, IfOk, IsTrue, length};
ghost use Rattle.pb_taskgraph.specs.Plans.{IsPlan};
ghost use Rattle.pb_cells.specs.Banks.{bank_of};
ghost use Rattle.pb_cells.specs.Handles.{HasPlainInputs};
ghost use Rattle.pb_cells.specs.Openings.{AreTold, IsFirst};
ghost use Rattle.pb_cells.specs.Views.{ready_tasks};

use crate::words::pack;
use pb_taskgraph::Work;
use pb_values::Outcome;
use std::alloc::{AllocError, Global};

/// The words of a table in which the input cells are written, and nothing else is set.
fn told_inputs<W: Work>(
    alloc: Global,
    work: &W,
    inputs: u64,
    cells: usize,
    tasks: usize,
) -> Result<Vec<u64>, AllocError>
    requires plan { IsPlan (W.plan work.now) }
    requires inputs { inputs ≡ (W.plan work.now).graph.inputs }
    requires cells { cells ≡ (W.plan work.now).graph.cells }
    requires tasks { tasks ≡ length (W.plan work.now).graph.tasks }
    ensures { IfOk result (λ words. AreTold (W.plan work.now) inputs words.items) }
{
    let mut words = vec![in alloc; 0u64; cells + cells + tasks + tasks + 2]?;
    for cell in 0..inputs {
        let (mark, word) = pack(work.input(cell));
        words[cell as usize] = word;
        words[cells + cell as usize] = mark;
    }
    Ok(words)
}

/// The words of a table before any step.
pub(crate) fn first_words<W: Work>(alloc: Global, work: &W) -> Result<Vec<u64>, AllocError>
    ensures { IfOk result (λ words. IsFirst (W.plan work.now) words.items) }
{
    let graph = work.graph();
    let cells = graph.cells() as usize;
    let tasks = graph.tasks();
    let mut words = told_inputs(alloc, work, graph.inputs(), cells, tasks.len())?;
    for task in 0..tasks.len() {
        let links = &tasks[task];
        words[cells + cells + task] = links.before.len() as u64;
    }
    Ok(words)
}

/// Whether it is known that each input cell has a number.
pub(crate) fn has_plain_inputs<W: Work>(work: &W, inputs: u64) -> bool
    requires { inputs ≡ (W.plan work.now).graph.inputs }
    ensures { IsTrue result → HasPlainInputs (W.plan work.now) }
{
    for cell in 0..inputs {
        if let Outcome::Trapped(_) = work.input(cell) {
            return false;
        }
    }
    true
}

/// The tasks without predecessors, in order.
pub(crate) fn ready_list<W: Work>(alloc: Global, work: &W) -> Result<Vec<u32>, AllocError>
    ensures { IfOk result (λ ready. ready.items ≡ ready_tasks (W.plan work.now)) }
{
    let tasks = work.graph().tasks();
    let mut ready = Vec::new(alloc);
    for task in 0..tasks.len() {
        let links = &tasks[task];
        if links.before.is_empty() {
            ready.push(task as u32)?;
        }
    }
    Ok(ready)
}
