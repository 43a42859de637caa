//! The graphs of the tasks of instances.
use crate::places::{BLUR, ROWS, SPREAD, has_room};
use crate::programs::{accepted, are_in_range, are_small, one, program, two};
use pb_check::Accepted;
use pb_config::{ConfigRefusal, read_config};
use pb_linear::Sizes;
use pb_plan::{PlanRefusal, plan};
use pb_taskgraph::{Part, Task, TaskGraph, TaskKind};
use std::alloc::{AllocError, Global};
use std::test::Fail;

fn word(kind: TaskKind) -> &'static str {
    match kind {
        TaskKind::Block => "block",
        TaskKind::Wide => "wide",
        TaskKind::Copy => "copy",
        TaskKind::Trap => "trap",
    }
}

fn add_numbers(alloc: Global, text: &mut String, numbers: &[u32]) -> Result<(), AllocError> {
    for number in numbers {
        text.push_str(format!(in alloc; " {number}")?.as_str())?;
    }
    Ok(())
}

// The name of a part's matrix, its first place, and its cells.
fn add_part(alloc: Global, text: &mut String, part: &Part) -> Result<(), AllocError> {
    text.push_str(" ")?;
    for byte in part.name.bytes() {
        text.push(char::from(*byte))?;
    }
    let (x, y) = (part.rect.x0, part.rect.y0);
    text.push_str(format!(in alloc; " from {x} {y}:")?.as_str())?;
    for y in 0..part.view.shape.h {
        for x in 0..part.view.shape.w {
            let cell = part.view.place(x, y);
            text.push_str(format!(in alloc; " {cell}")?.as_str())?;
        }
    }
    Ok(())
}

fn add_task(alloc: Global, text: &mut String, task: &Task) -> Result<(), AllocError> {
    text.push_str(word(task.kind))?;
    for part in &task.parts {
        add_part(alloc, text, part)?;
    }
    text.push_str(" after")?;
    add_numbers(alloc, text, &task.before)?;
    text.push_str(" before")?;
    add_numbers(alloc, text, &task.after)?;
    text.push_str("; ")
}

// How many cells there are, how many are given, how many links there are, and each task.
fn told(alloc: Global, graph: &TaskGraph) -> Result<String, AllocError> {
    let (cells, inputs, links) = (graph.cells(), graph.inputs(), graph.links());
    let mut text = format!(in alloc; "{cells} cells, {inputs} given, {links} links; ")?;
    for task in graph.tasks() {
        add_task(alloc, &mut text, task)?;
    }
    Ok(text)
}

// The graph of an instance of the first transform, at sizes in range, by the configuration that says nothing.
fn planned(alloc: Global, a: &Accepted, s: &Sizes) -> Result<String, AllocError> {
    let none = String::new(alloc);
    if !are_small(s) {
        return Ok(none);
    }
    if !are_in_range(a, 0, s) {
        return Ok(none);
    }
    if !has_room(a, 0, s) {
        return Ok(none);
    }
    let chosen = match read_config(alloc, b"", program(a)) {
        Ok(chosen) => chosen,
        Err(ConfigRefusal::Memory) => return Err(AllocError),
        Err(_) => return Ok(none),
    };
    match plan(alloc, a, &chosen, 0, s, 8) {
        Ok(found) => told(alloc, &found.graph),
        Err(PlanRefusal::Memory) => Err(AllocError),
        Err(_) => Ok(none),
    }
}

fn said(alloc: Global, text: &str, s: Sizes) -> Result<String, AllocError> {
    match accepted(alloc, text)? {
        Some(a) => planned(alloc, &a, &s),
        None => Ok(String::new(alloc)),
    }
}

#[test]
fn a_job_is_a_task_with_its_cells_and_its_links(rt: HostRuntime) -> Result<(), Fail> {
    let alloc = rt.alloc();
    assert_eq!(rt;
        said(alloc, BLUR, one(5))?.as_str(),
        "10 cells, 5 given, 0 links; block B from 0 0: 5 after before; block B from 1 0: 6 7 8 after before; block B from 4 0: 9 after before; "
    );
    assert_eq!(rt;
        said(alloc, ROWS, two(2, 3))?.as_str(),
        "12 cells, 6 given, 1 links; block B from 0 0: 6 8 10 after before 1; block B from 1 0: 7 9 11 after 0 before; "
    );
    assert_eq!(rt;
        said(alloc, SPREAD, one(3))?.as_str(),
        "6 cells, 3 given, 1 links; wide B from 0 0: 3 after before 1; wide B from 1 0: 4 5 after 0 before; "
    );
    Ok(())
}
