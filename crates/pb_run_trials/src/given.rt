ghost use Rattle.std.specs.Prelude.{◌≡◌, ◌<◌, ◌≤◌, ◌+◌, [], ◌∷◌, IfOk, length};
ghost use Rattle.std.specs.List.{AllByRecursion};
ghost use Rattle.pb_taskgraph.specs.Graphs.{cells_of};
ghost use Rattle.pb_taskgraph.specs.Plans.{IsSmall, outcome_at};
ghost use Rattle.pb_run_trials.specs.Given.{IsGiven, IsPiece, IsSplit};

use pb_taskgraph::{CellPort, MOST_CELLS, Part, Task, TaskGraph, TaskKind, Work};
use pb_values::{Name, Outcome, Rect, Shape, View};
use std::alloc::{AllocError, Global};
use std::marker::Model;

/// Outcomes that are given. After the input cells, one task makes one cell, and a second, which waits for it, all others.
#[derive(Drop)]
pub struct Given {
    graph: TaskGraph,
    outcomes: Vec<Outcome>,
}

impl Model for Given {
    ghost use Rattle.pb_run_trials.specs.Given.{GivenValue, IsGiven};

    ghost Value = { GivenValue };

    ghost view = { λ g. record { graph = g.graph; outcomes = g.outcomes.items } };

    ghost invariant = { λ g. IsGiven (record { graph = g.graph; outcomes = g.outcomes.items }) };
}

/// A task of so many cells from the first on.
fn piece(
    alloc: Global,
    first: u64,
    width: u64,
    before: Vec<u32>,
    after: Vec<u32>,
) -> Result<Task, AllocError>
    requires first { first ≤ MOST_CELLS }
    requires width { width ≤ MOST_CELLS }
    ensures { IfOk result (λ t. IsPiece first width before.items after.items t) }
{
    let part = Part {
        name: Name::new(Vec::new(alloc), 0),
        rect: Rect {
            x0: 0,
            y0: 0,
            x1: width,
            y1: 1,
        },
        view: View {
            first,
            step_x: 1,
            step_y: width,
            shape: Shape {
                dims: 1,
                w: width,
                h: 1,
            },
        },
    };
    Ok(Task {
        call: 0,
        kind: TaskKind::Block,
        parts: vec![in alloc; part]?,
        before,
        after,
    })
}

/// The graph of the two tasks.
fn split(alloc: Global, inputs: u64, others: u64) -> Result<TaskGraph, AllocError>
    requires { inputs + 1 + others ≤ MOST_CELLS }
    ensures split { IfOk result (λ g. IsSplit others g) }
    ensures inputs { IfOk result (λ g. g.inputs ≡ inputs) }
{
    let next = vec![in alloc; 1u32]?;
    let one = piece(alloc, inputs, 1, Vec::new(alloc), next)?;
    let previous = vec![in alloc; 0u32]?;
    let two = piece(alloc, inputs + 1, others, previous, Vec::new(alloc))?;
    let tasks = vec![in alloc; one, two]?;
    TaskGraph::new(alloc, inputs, inputs + 1 + others, tasks)
}

impl Given {
    /// A work with these outcomes, of which so many are those of input cells.
    pub fn new(alloc: Global, inputs: u64, outcomes: Vec<Outcome>) -> Result<Given, AllocError>
        requires some { inputs < length outcomes.items }
        requires few { length outcomes.items ≤ MOST_CELLS }
        requires small { AllByRecursion IsSmall outcomes.items }
        ensures given { IfOk result (λ g. IsGiven g) }
        ensures inputs { IfOk result (λ g. g.graph.inputs ≡ inputs) }
        ensures outcomes { IfOk result (λ g. g.outcomes ≡ outcomes.items) }
    {
        let others = outcomes.len() as u64 - inputs - 1;
        Ok(Given {
            graph: split(alloc, inputs, others)?,
            outcomes,
        })
    }

    /// The outcome of a cell.
    #[tactic(auto, unfolding(pb_taskgraph::specs::Plans::outcome_at))]
    pub fn outcome(&self, cell: u64) -> Outcome
        requires { cell < self.now.graph.cells }
        ensures { result ≡ outcome_at self.now.outcomes cell }
    {
        self.outcomes[cell as usize]
    }

    /// The number after that of the last cell of a task.
    pub fn end(&self, task: u32) -> u64
        requires { task < length self.now.graph.tasks }
        ensures end { result ≡ self.now.graph.inputs + task + length (cells_of self.now.graph task) }
        ensures given { IsGiven self.now }
    {
        if task == 0 {
            self.graph.inputs() + 1
        } else {
            self.graph.cells()
        }
    }
}

impl Work for Given {
    ghost use Rattle.pb_run_trials.specs.Given.{given_plan};

    type Scratch = ();

    ghost plan = { given_plan };

    ghost fits = { λ w scratch. Unit {0} };

    fn graph(&self) -> &TaskGraph {
        &self.graph
    }

    fn input(&self, cell: u64) -> Outcome {
        let _graph = &self.graph;
        self.outcome(cell)
    }

    fn scratch(&self, _alloc: Global) -> Result<(), AllocError> {
        Ok(())
    }

    fn run<C: CellPort>(&self, task: u32, port: &mut C, _scratch: &mut ()) {
        let first = self.graph.inputs() + u64::from(task);
        for cell in first..self.end(task) {
            port.write(cell, self.outcome(cell));
        }
    }
}
