ghost use Rattle.std.specs.Prelude.{◌≡◌, ◌<◌, ◌≤◌, ◌⊎◌, [], ◌∷◌, IfNone, IfOk, IfSome, length};
ghost use Rattle.std.specs.List.{All, Contains};
ghost use Rattle.std.specs.List.Sorted.{IsPermutation};
ghost use Rattle.pb_taskgraph.specs.Graphs.{before_of};
ghost use Rattle.pb_core.specs.Cores.{state_of};
ghost use Rattle.pb_locked.specs.Ready.{Adds, Holds};

use pb_core::Core;
use pb_taskgraph::{NamesWork, TaskGraph, Work};
use std::alloc::{AllocError, Global};
use std::cmp::Reverse;
use std::collections::BinaryHeap;
use std::marker::Model;

/// Numbers of tasks of which the least is taken first, in a heap with room for as many as there may be.
#[derive(Drop)]
pub(crate) struct Ready {
    heap: BinaryHeap<Reverse<u32>>,
}

impl Model for Ready {
    ghost use Rattle.std.specs.Prelude.{map};
    ghost use Rattle.std.specs.BinaryHeap.{IsHeap, heap_capacity, heap_items};
    ghost use Rattle.std.specs.Ordering.{nat_cmp};
    ghost use Rattle.pb_locked.specs.Ready.{ReadyValue};

    ghost Value = { ReadyValue };

    ghost view = { λ r. record { tasks = map (λ x. x.0) (heap_items r.heap); room = heap_capacity r.heap } };

    ghost invariant = { λ r. IsHeap (λ x y. nat_cmp y.0 x.0) (heap_items r.heap) };
}

impl Ready {
    /// No tasks, with room for so many.
    pub(crate) fn new(alloc: Global, room: usize) -> Result<Ready, AllocError>
        ensures { IfOk result (λ r. r ≡ record { tasks = []; room = room }) }
    {
        Ok(Ready {
            heap: BinaryHeap::with_capacity(alloc, room)?,
        })
    }

    /// Adds a task.
    pub(crate) fn add(&mut self, task: u32)
        requires { length self.old.tasks < self.old.room }
        ensures tasks { IsPermutation (task ∷ self.old.tasks) self.new.tasks }
        ensures room { self.old.room ≤ self.new.room }
    {
        let _pushed = self.heap.push(Reverse(task));
    }

    /// Takes the least task out.
    pub(crate) fn take(&mut self) -> Option<u32>
        ensures tasks { IfSome result (λ t. IsPermutation self.old.tasks (t ∷ self.new.tasks)) }
        ensures least { IfSome result (λ t. All (λ u. t ≤ u) self.new.tasks) }
        ensures none { IfNone result (self.old.tasks ≡ []) }
        ensures rest { IfNone result (self.new ≡ self.old) }
        ensures room { self.new.room ≡ self.old.room }
    {
        let Some(Reverse(task)) = self.heap.pop() else {
            return None;
        };
        Some(task)
    }
}

/// The tasks without predecessors, with room for all tasks.
pub(crate) fn first_ready(alloc: Global, graph: &TaskGraph) -> Result<Ready, AllocError>
    ensures { IfOk result (Holds (λ t. (t < length graph.now.tasks) × (length (before_of graph.now t) ≡ 0)) (length graph.now.tasks)) }
{
    let tasks = graph.tasks();
    let mut ready = Ready::new(alloc, tasks.len())?;
    for task in 0..tasks.len() {
        let links = &tasks[task];
        if links.before.is_empty() {
            ready.add(task as u32);
        }
    }
    Ok(ready)
}

/// Adds those of some tasks that wait for no release.
pub(crate) fn add_ready<W: Work, N: NamesWork>(
    core: &Core<'_, W, N>,
    ready: &mut Ready,
    nexts: &[u32],
)
    requires { Adds N.plan ready.old nexts.now }
    ensures { Holds (λ t. Contains ready.old.tasks t ⊎ (Contains nexts.now t × ((state_of N.plan core.now).count t ≡ 0))) (length N.plan.graph.tasks) ready.new }
{
    for next in nexts {
        if core.progress(*next).count == 0 {
            ready.add(*next);
        }
    }
}
