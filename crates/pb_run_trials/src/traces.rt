//! The trace of a run.
ghost use Rattle.std.specs.Prelude.{◌<◌, IsTrue};
ghost use Rattle.std.specs.List.{All};

use crate::sums::Sums;
use pb_taskgraph::{TaskGraph, Work, trace};
use std::alloc::{AllocError, Global};
use std::test::Fail;

// Whether these are numbers of so many tasks.
fn are_tasks(count: usize, order: &[u32]) -> bool
    ensures { IsTrue result → All (λ t. t < count) order.now }
{
    order.iter().all(|task| (*task as usize) < count)
}

// The trace, or nothing where a number is none of a task.
fn told(alloc: Global, graph: &TaskGraph, order: &[u32]) -> Result<Vec<u8>, AllocError> {
    if are_tasks(graph.tasks().len(), order) {
        trace(alloc, graph, order)
    } else {
        Ok(Vec::new(alloc))
    }
}

#[test]
fn a_trace_has_a_line_for_each_task_in_the_order_given(rt: HostRuntime) -> Result<(), Fail> {
    let work = Sums::new(rt.alloc(), 3, 1, 2)?;
    let text = told(rt.alloc(), work.graph(), &[0, 2, 1])?;
    // The parts of this work are of a matrix without a name.
    assert_eq!(rt;
        text.as_slice(),
        b"trace 3\ntask 0 call 0 block [0,2)\ntask 2 call 0 block [4,6)\ntask 1 call 0 block [2,4)\n".as_slice()
    );
    Ok(())
}

#[test]
fn a_trace_of_no_tasks_has_one_line(rt: HostRuntime) -> Result<(), Fail> {
    let work = Sums::new(rt.alloc(), 0, 1, 2)?;
    let text = told(rt.alloc(), work.graph(), &[])?;
    assert_eq!(rt; text.as_slice(), b"trace 0\n".as_slice());
    Ok(())
}
