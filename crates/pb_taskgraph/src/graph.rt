use crate::owners::fill_task;
use crate::task::Task;
use std::alloc::{AllocError, Global};
use std::marker::Model;

/// The tasks of a run, by number. The cells 0 to `inputs` - 1 are input cells; each of the others is made by one task. A
/// predecessor has a smaller number than its successors.
#[derive(Drop)]
pub struct TaskGraph {
    inputs: u64,
    cells: u64,
    tasks: Vec<Task>,
    owners: Vec<u32>,
}

impl Model for TaskGraph {
    ghost use Rattle.pb_taskgraph.specs.Graphs.{GraphValue};
    ghost use Rattle.pb_taskgraph.specs.Owners.{IsHeld};

    ghost Value = { GraphValue };

    ghost view = { λ g. record { inputs = g.inputs; cells = g.cells; tasks = g.tasks.items } };

    ghost invariant = { λ g. IsHeld (record { inputs = g.inputs; cells = g.cells; tasks = g.tasks.items }) g.owners.items };
}

impl TaskGraph {
    ghost use Rattle.std.specs.Prelude.{◌≡◌, ◌<◌, ◌≤◌, IfOk, length};
    ghost use Rattle.std.specs.List.{Contains};
    ghost use Rattle.pb_taskgraph.specs.Graphs.{IsGraph, cells_of, link_count};

    /// The graph of these tasks. It makes a table from the cells that tasks make to these tasks, in one pass over the parts and
    /// these cells.
    pub fn new(
        alloc: Global,
        inputs: u64,
        cells: u64,
        tasks: Vec<Task>,
    ) -> Result<TaskGraph, AllocError>
        requires { IsGraph (record { inputs = inputs; cells = cells; tasks = tasks.items }) }
        ensures { IfOk result (λ g. g ≡ record { inputs = inputs; cells = cells; tasks = tasks.items }) }
    {
        let mut owners = vec![in alloc; 0u32; (cells - inputs) as usize]?;
        for task in 0..tasks.len() {
            fill_task(&mut owners, inputs, &tasks[task].parts, task as u32);
        }
        Ok(TaskGraph {
            inputs,
            cells,
            tasks,
            owners,
        })
    }

    /// How many input cells there are.
    pub fn inputs(&self) -> u64
        ensures { result ≡ self.now.inputs }
    {
        self.inputs
    }

    /// How many cells there are, the input cells among them.
    pub fn cells(&self) -> u64
        ensures { result ≡ self.now.cells }
    {
        self.cells
    }

    /// The tasks by number.
    pub fn tasks(&self) -> &[Task]
        ensures tasks { result.now ≡ self.now.tasks }
        ensures graph { IsGraph self.now }
    {
        &self.tasks
    }

    /// How many links there are: pairs of a task and a predecessor.
    pub fn links(&self) -> u64
        ensures { result ≡ link_count self.now }
    {
        self.tasks.iter().map(|task| task.before.len() as u64).sum()
    }

    /// The number of the task that makes a cell, which is no input cell.
    pub fn owner(&self, cell: u64) -> u32
        requires past { self.now.inputs ≤ cell }
        requires below { cell < self.now.cells }
        ensures task { result < length self.now.tasks }
        ensures cell { Contains (cells_of self.now result) cell }
    {
        self.owners[(cell - self.inputs) as usize]
    }
}
