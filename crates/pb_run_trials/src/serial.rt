//! Runs by number.
use crate::sums::Sums;
use pb_taskgraph::{Finished, Work, run_serial};
use pb_values::{Kind, Outcome};
use std::alloc::{AllocError, Global};
use std::test::Fail;

// The outcomes and the order of the tasks; a trap as its kind.
fn said(alloc: Global, finished: &Finished) -> Result<String, AllocError> {
    let mut text = String::new(alloc);
    let outcomes = &finished.outcomes;
    for cell in 0..outcomes.count() {
        match outcomes.get(cell) {
            Outcome::Value(value) => text.push_str(format!(in alloc; "{value} ")?.as_str())?,
            Outcome::Trapped(trap) => {
                text.push_str(if trap.kind == Kind::Overflow {
                    "overflow "
                } else {
                    "trap "
                })?;
            }
        }
    }
    text.push_str("by")?;
    for task in &finished.order {
        text.push_str(format!(in alloc; " {task}")?.as_str())?;
    }
    Ok(text)
}

#[test]
fn each_cell_is_the_sum_of_the_two_before_it(rt: HostRuntime) -> Result<(), Fail> {
    let alloc = rt.alloc();
    let work = Sums::new(alloc, 4, 1, 2)?;
    let finished = run_serial(alloc, &work)?;
    assert_eq!(rt;
        said(alloc, &finished)?.as_str(),
        "1 2 3 5 8 13 21 34 55 89 by 0 1 2 3"
    );
    Ok(())
}

#[test]
fn a_trap_stays_in_the_cells_that_read_it(rt: HostRuntime) -> Result<(), Fail> {
    let alloc = rt.alloc();
    let work = Sums::new(alloc, 3, 0, 4_000_000_000_000_000_000)?;
    let finished = run_serial(alloc, &work)?;
    assert_eq!(rt;
        said(alloc, &finished)?.as_str(),
        "0 4000000000000000000 4000000000000000000 8000000000000000000 overflow overflow overflow overflow by 0 1 2"
    );
    Ok(())
}

#[test]
fn a_run_without_tasks_has_the_given_cells(rt: HostRuntime) -> Result<(), Fail> {
    let alloc = rt.alloc();
    let work = Sums::new(alloc, 0, 7, -7)?;
    let finished = run_serial(alloc, &work)?;
    assert_eq!(rt; said(alloc, &finished)?.as_str(), "7 -7 by");
    Ok(())
}

#[test]
fn a_graph_tells_its_sizes_and_the_owners_of_its_cells(rt: HostRuntime) -> Result<(), Fail> {
    let work = Sums::new(rt.alloc(), 5, 0, 1)?;
    let graph = work.graph();
    assert_eq!(rt; graph.inputs(), 2);
    assert_eq!(rt; graph.cells(), 12);
    assert_eq!(rt; graph.tasks().len(), 5);
    assert_eq!(rt; graph.links(), 4);
    for cell in graph.inputs()..graph.cells() {
        assert_eq!(rt; u64::from(graph.owner(cell)), (cell - 2) / 2);
    }
    Ok(())
}
