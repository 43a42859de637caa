//! Links of tasks.
ghost use Rattle.std.specs.Prelude.{◌^◌, ◌<◌, IsTrue, length};
ghost use Rattle.std.specs.List.{All};
ghost use Rattle.pb_links.specs.Spots.{AllWithin, IsWithin};

use pb_links::{LinksRefusal, Numbers, Places, Spot, links};
use pb_values::Rect;
use std::alloc::{AllocError, Global};
use std::test::Fail;

/// A rectangle of a matrix: the matrix, the columns and the rows, each from one to before another.
#[derive(Clone, Copy)]
struct Bounds {
    base: u32,
    columns: (u64, u64),
    rows: (u64, u64),
}

const fn on(base: u32, columns: (u64, u64), rows: (u64, u64)) -> Bounds {
    Bounds {
        base,
        columns,
        rows,
    }
}

fn spots(alloc: Global, bounds: &[Bounds]) -> Result<Vec<Spot>, AllocError> {
    let mut found = Vec::new(alloc);
    for b in bounds {
        found.push(Spot {
            base: b.base,
            rect: Rect {
                x0: b.columns.0,
                y0: b.rows.0,
                x1: b.columns.1,
                y1: b.rows.1,
            },
        })?;
    }
    Ok(found)
}

fn add(
    alloc: Global,
    tasks: &mut Vec<Places>,
    parts: &[Bounds],
    boxes: &[Bounds],
) -> Result<(), AllocError> {
    tasks.push(Places {
        parts: spots(alloc, parts)?,
        boxes: spots(alloc, boxes)?,
    })?;
    Ok(())
}

fn are_within(bases: u32, spots: &[Spot]) -> bool
    ensures { IsTrue result → All (IsWithin bases) spots.now }
{
    spots.iter().all(|spot| spot.base < bases)
}

fn is_within(bases: u32, task: &Places) -> bool
    ensures { IsTrue result → AllWithin bases task.now }
{
    are_within(bases, &task.parts)
}

// Whether all parts of the tasks are of so many matrices, and the tasks not too many to be numbered.
fn can_be_linked(bases: u32, tasks: &[Places]) -> bool
    ensures within { IsTrue result → All (AllWithin bases) tasks.now }
    ensures few { IsTrue result → length tasks.now < 2 ^ 32 }
{
    if tasks.len() > 1000 {
        return false;
    }
    tasks.iter().all(|task| is_within(bases, task))
}

fn add_lists(alloc: Global, text: &mut String, lists: &[Numbers]) -> Result<(), AllocError> {
    for numbers in lists {
        for number in &numbers.list {
            text.push_str(format!(in alloc; "{number} ")?.as_str())?;
        }
        text.push_str(";")?;
    }
    Ok(())
}

// The tasks before each task, then those after each, among three matrices.
fn said(alloc: Global, tasks: &[Places], most: u32) -> Result<String, AllocError> {
    let mut text = String::new(alloc);
    if !can_be_linked(3, tasks) {
        return Ok(text);
    }
    match links(alloc, 3, tasks, u64::from(most)) {
        Ok(found) => {
            add_lists(alloc, &mut text, &found.before)?;
            text.push_str(" ")?;
            add_lists(alloc, &mut text, &found.after)?;
        }
        Err(LinksRefusal::TooMany) => text.push_str("too many")?,
        Err(LinksRefusal::Memory) => return Err(AllocError),
    }
    Ok(text)
}

// Matrix 0 by halves, the right one from the left; both rows of matrix 1 from its middle, the second also from the first;
// matrix 2 is given.
fn halves(alloc: Global) -> Result<Vec<Places>, AllocError> {
    let mut tasks = Vec::new(alloc);
    let (left, right) = (on(0, (0, 2), (0, 1)), on(0, (2, 4), (0, 1)));
    let (middle, given) = (on(0, (1, 3), (0, 1)), on(2, (0, 4), (0, 1)));
    add(alloc, &mut tasks, &[left], &[given])?;
    add(alloc, &mut tasks, &[right], &[given, left])?;
    add(alloc, &mut tasks, &[on(1, (0, 4), (0, 1))], &[middle])?;
    add(
        alloc,
        &mut tasks,
        &[on(1, (0, 4), (1, 2))],
        &[on(1, (0, 4), (0, 2)), middle],
    )?;
    Ok(tasks)
}

#[test]
fn a_task_waits_for_those_that_make_what_it_reads(rt: HostRuntime) -> Result<(), Fail> {
    let alloc = rt.alloc();
    let tasks = halves(alloc)?;
    assert_eq!(rt;
        said(alloc, &tasks, 6)?.as_str(),
        ";0 ;0 1 ;0 1 2 ; 1 2 3 ;2 3 ;3 ;;"
    );
    assert_eq!(rt; said(alloc, &tasks, 5)?.as_str(), "too many");
    assert_eq!(rt; said(alloc, &[], 0)?.as_str(), " ");
    Ok(())
}

#[test]
fn rectangles_that_only_touch_are_no_link(rt: HostRuntime) -> Result<(), Fail> {
    let alloc = rt.alloc();
    let mut tasks = Vec::new(alloc);
    add(alloc, &mut tasks, &[on(0, (0, 2), (0, 2))], &[])?;
    add(
        alloc,
        &mut tasks,
        &[on(1, (0, 2), (0, 2)), on(1, (2, 3), (0, 2))],
        &[
            on(0, (2, 4), (0, 2)),
            on(0, (0, 2), (2, 4)),
            on(2, (0, 2), (0, 2)),
            on(0, (1, 1), (0, 2)),
        ],
    )?;
    // Both parts of the task before, and each task once.
    add(
        alloc,
        &mut tasks,
        &[on(2, (0, 1), (0, 1))],
        &[on(1, (1, 3), (1, 2)), on(0, (1, 2), (1, 9))],
    )?;
    assert_eq!(rt; said(alloc, &tasks, 4)?.as_str(), ";2 ;0 1 ; 2 ;2 ;1 ;");
    Ok(())
}
