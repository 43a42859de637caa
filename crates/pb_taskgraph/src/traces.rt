ghost use Rattle.std.specs.Prelude.{◌≡◌, ◌<◌, ◌++◌, IfOk, OnOk, length};
ghost use Rattle.std.specs.List.{All, flat_map};
ghost use Rattle.pb_taskgraph.specs.Trace.{after_blank, kind_word, task_line, task_line_at, trace_text};

use crate::graph::TaskGraph;
use crate::task::{Part, Task, TaskKind};
use crate::trace_part::{write_numbered, write_part};
use std::alloc::{AllocError, Global};

/// The word for what a task does.
fn kind_word(kind: TaskKind) -> &'static [u8]
    ensures { result.now ≡ kind_word kind }
{
    match kind {
        TaskKind::Block => b"block",
        TaskKind::Wide => b"wide",
        TaskKind::Copy => b"copy",
        TaskKind::Trap => b"trap",
    }
}

/// Parts, each after a blank.
fn write_parts(text: &mut Vec<u8>, parts: &[Part]) -> Result<(), AllocError>
    ensures { OnOk result (text.new.items ≡ text.old.items ++ flat_map after_blank parts.now) }
{
    for part in parts {
        text.extend_from_slice(b" ")?;
        write_part(text, part)?;
    }
    Ok(())
}

/// The line of a task with this number.
fn write_task(text: &mut Vec<u8>, number: u32, task: &Task) -> Result<(), AllocError>
    ensures { OnOk result (text.new.items ≡ text.old.items ++ task_line number task.now) }
{
    write_numbered(text, b"task ", u64::from(number))?;
    write_numbered(text, b" call ", u64::from(task.call))?;
    text.extend_from_slice(b" ")?;
    text.extend_from_slice(kind_word(task.kind))?;
    write_parts(text, &task.parts)?;
    text.extend_from_slice(b"\n")
}

/// The lines of the tasks with these numbers.
fn write_tasks(text: &mut Vec<u8>, tasks: &[Task], order: &[u32]) -> Result<(), AllocError>
    requires { All (λ t. t < length tasks.now) order.now }
    ensures { OnOk result (text.new.items ≡ text.old.items ++ flat_map (task_line_at tasks.now) order.now) }
{
    for number in order {
        write_task(text, *number, &tasks[*number as usize])?;
    }
    Ok(())
}

/// The trace of a run: the number of its tasks, then a line for each task of the order, with its number, its call, what it does
/// and its parts. Each number of the order is that of a task.
pub fn trace(alloc: Global, graph: &TaskGraph, order: &[u32]) -> Result<Vec<u8>, AllocError>
    requires tasks { All (λ t. t < length graph.now.tasks) order.now }
    ensures { IfOk result (λ text. text.items ≡ trace_text graph.now order.now) }
{
    let mut text = Vec::new(alloc);
    let tasks = graph.tasks();
    write_numbered(&mut text, b"trace ", tasks.len() as u64)?;
    text.extend_from_slice(b"\n")?;
    write_tasks(&mut text, tasks, order)?;
    Ok(text)
}
