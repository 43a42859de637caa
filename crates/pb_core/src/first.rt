ghost use Rattle.std.specs.Prelude.{◌≡◌, ◌^◌, ◌<◌, ◌≤◌, IfOk, length, map};
ghost use Rattle.std.specs.List.{range_with_len};
ghost use Rattle.pb_taskgraph.specs.Plans.{IsPlan};
ghost use Rattle.pb_core.specs.Cores.{AreInputs, TellInputs, first_flags, first_progress, progress_at};

use crate::links::Flags;
use crate::progress::Progress;
use pb_taskgraph::{TaskGraph, Work};
use pb_values::Outcome;
use std::alloc::{AllocError, Global};

/// The progress of a task with these predecessors before any event.
fn progress_at(before: &[u32], hands: u32, task: u32) -> Progress
    requires some { 1 ≤ hands }
    requires few { length before.now < 2 ^ 32 }
    ensures { result ≡ progress_at before.now hands task }
{
    let holder = if before.is_empty() {
        Some(task % hands)
    } else {
        None
    };
    Progress {
        count: before.len() as u32,
        holder,
        runner: None,
        number: None,
        given: false,
    }
}

/// The progress of each task before any event.
pub(crate) fn first_tasks(
    alloc: Global,
    graph: &TaskGraph,
    hands: u32,
) -> Result<Vec<Progress>, AllocError>
    requires { 1 ≤ hands }
    ensures { IfOk result (λ tasks. tasks.items ≡ map (first_progress graph.now hands) (range_with_len 0 (length graph.now.tasks))) }
{
    let tasks = graph.tasks();
    let mut first = Vec::new(alloc);
    for task in 0..tasks.len() {
        let links = &tasks[task];
        first.push(progress_at(&links.before, hands, task as u32))?;
    }
    Ok(first)
}

/// Flags for the links of each task. None is set.
pub(crate) fn first_links(alloc: Global, graph: &TaskGraph) -> Result<Vec<Flags>, AllocError>
    ensures { IfOk result (λ flags. flags.items ≡ map (first_flags graph.now) (range_with_len 0 (length graph.now.tasks))) }
{
    let tasks = graph.tasks();
    let mut flags = Vec::new(alloc);
    for task in 0..tasks.len() {
        let links = &tasks[task];
        let list = vec![in alloc; false; links.after.len()]?;
        flags.push(Flags { list })?;
    }
    Ok(flags)
}

/// A flag for each cell. Those of the input cells are set.
pub(crate) fn first_written(alloc: Global, inputs: u64, cells: u64) -> Result<Vec<bool>, AllocError>
    requires { inputs ≤ cells }
    ensures { IfOk result (λ written. AreInputs inputs cells written.items) }
{
    let mut written = vec![in alloc; false; cells as usize]?;
    for cell in 0..inputs {
        written[cell as usize] = true;
    }
    Ok(written)
}

/// An outcome for each cell: those of the input cells, and 0 for the others.
pub(crate) fn first_outcomes<W: Work>(
    alloc: Global,
    work: &W,
    inputs: u64,
    cells: u64,
) -> Result<Vec<Outcome>, AllocError>
    requires plan { IsPlan (W.plan work.now) }
    requires inputs { inputs ≡ (W.plan work.now).graph.inputs }
    requires cells { cells ≡ (W.plan work.now).graph.cells }
    ensures { IfOk result (λ outcomes. TellInputs (W.plan work.now) outcomes.items) }
{
    let mut outcomes = vec![in alloc; Outcome::Value(0); cells as usize]?;
    for cell in 0..inputs {
        outcomes[cell as usize] = work.input(cell);
    }
    Ok(outcomes)
}
