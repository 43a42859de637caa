ghost use Rattle.std.specs.Prelude.{◌≡◌, ◌<◌, IfOk, length};
ghost use Rattle.pb_taskgraph.specs.Plans.{IsPlan, Plan, outcome_at};
ghost use Rattle.pb_taskgraph.specs.Turns.{Begins, after_all};

use crate::graph::TaskGraph;
use crate::port::CellPort;
use pb_values::Outcome;
use std::alloc::{AllocError, Global};

/// A run: the graph of its tasks, the outcomes of the input cells, and how a task makes its cells.
pub trait Work: Sync {
    /// Room that tasks use, one after another.
    type Scratch: Send + Drop;

    /// The graph, the solution, and the order in which each task writes its cells.
    ghost plan: { Self → Plan };

    /// Which scratches a task may use.
    ghost fits: { Self → Self.Scratch → Type 0 };

    /// The graph of the tasks.
    fn graph(&self) -> &TaskGraph
        ensures graph { result.now ≡ (plan self.now).graph }
        ensures plan { IsPlan (plan self.now) };

    /// The outcome of an input cell.
    fn input(&self, cell: u64) -> Outcome
        requires { cell < (plan self.now).graph.inputs }
        ensures { result ≡ outcome_at (plan self.now).solution cell };

    /// A scratch that a task may use.
    fn scratch(&self, alloc: Global) -> Result<Self::Scratch, AllocError>
        ensures { IfOk result (λ s. fits self.now s) };

    /// Writes all cells of a task, in its order. It reads input cells, cells of its predecessors, and cells that it has
    /// written.
    fn run<C: CellPort>(&self, task: u32, port: &mut C, scratch: &mut Self::Scratch)
        requires task { task < length (plan self.now).graph.tasks }
        requires begins { Begins (plan self.now) task (C.turn port.old) }
        requires fits { fits self.now scratch.old }
        ensures written { C.turn port.new ≡ after_all (C.turn port.old) }
        ensures fits { fits self.now scratch.new };
}
