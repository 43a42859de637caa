ghost use Rattle.std.specs.Prelude.{◌≡◌, ◌<◌, ◌≤◌, ◌+◌, [], ◌∷◌, IfOk, length};
ghost use Rattle.pb_taskgraph.specs.Graphs.{cells_of};
ghost use Rattle.pb_run_trials.specs.Sums.{IsRow, IsStep, sum_of};

use pb_taskgraph::{CellPort, Part, Task, TaskGraph, TaskKind, Work};
use pb_values::{Name, Outcome, Rect, Shape, Trap, View, add};
use std::alloc::{AllocError, Global};
use std::marker::Model;

/// A row of cells: two given numbers, and after them in each cell the sum of the two before it. A task makes two cells.
#[derive(Drop)]
pub struct Sums {
    graph: TaskGraph,
    first: i64,
    second: i64,
}

impl Model for Sums {
    ghost use Rattle.pb_run_trials.specs.Sums.{AreSums, SumsValue};

    ghost Value = { SumsValue };

    ghost view = { λ s. record { graph = s.graph; first = s.first; second = s.second } };

    ghost invariant = { λ s. AreSums (record { graph = s.graph; first = s.first; second = s.second }) };
}

/// The sum of two outcomes, or the first trap.
fn sum(first: Outcome, second: Outcome) -> Outcome
    ensures { result ≡ sum_of first second }
{
    match (first, second) {
        (Outcome::Value(x), Outcome::Value(y)) => match add(x, y) {
            Ok(sum) => Outcome::Value(sum),
            Err(kind) => Outcome::Trapped(Trap {
                kind,
                transform: 0,
                rule: 0,
                x: 0,
                y: 0,
            }),
        },
        (Outcome::Value(_), Outcome::Trapped(trap)) => Outcome::Trapped(trap),
        (Outcome::Trapped(trap), _) => Outcome::Trapped(trap),
    }
}

/// A task by number, among so many.
fn step(alloc: Global, steps: u32, step: u32) -> Result<Task, AllocError>
    requires few { steps ≤ 1000 }
    requires step { step < steps }
    ensures { IfOk result (λ t. IsStep steps step t) }
{
    let mut parts = Vec::new(alloc);
    let at = u64::from(2 * step);
    parts.push(Part {
        name: Name::new(Vec::new(alloc), 0),
        rect: Rect {
            x0: at,
            y0: 0,
            x1: at + 2,
            y1: 1,
        },
        view: View {
            first: at + 2,
            step_x: 1,
            step_y: 2,
            shape: Shape {
                dims: 1,
                w: 2,
                h: 1,
            },
        },
    })?;
    let mut before = Vec::new(alloc);
    if 0 < step {
        before.push(step - 1)?;
    }
    let mut after = Vec::new(alloc);
    if step + 1 < steps {
        after.push(step + 1)?;
    }
    Ok(Task {
        call: 0,
        kind: TaskKind::Block,
        parts,
        before,
        after,
    })
}

/// The graph of so many tasks, at most 1,000.
fn row(alloc: Global, steps: u32) -> Result<TaskGraph, AllocError>
    requires { steps ≤ 1000 }
    ensures { IfOk result (λ g. IsRow steps g) }
{
    let mut tasks = Vec::new(alloc);
    for task in 0..steps {
        tasks.push(step(alloc, steps, task)?)?;
    }
    TaskGraph::new(alloc, 2, u64::from(2 * steps + 2), tasks)
}

impl Sums {
    /// The row of so many tasks, at most 1,000, from these two numbers on.
    pub fn new(alloc: Global, steps: u32, first: i64, second: i64) -> Result<Sums, AllocError>
        requires { steps ≤ 1000 }
        ensures row { IfOk result (λ s. IsRow steps s.graph) }
        ensures first { IfOk result (λ s. s.first ≡ first) }
        ensures second { IfOk result (λ s. s.second ≡ second) }
    {
        Ok(Sums {
            graph: row(alloc, steps)?,
            first,
            second,
        })
    }

    /// The first of the two cells of a task.
    pub fn first_cell(&self, task: u32) -> u64
        requires { task < length self.now.graph.tasks }
        ensures { cells_of self.now.graph task ≡ result ∷ (result + 1) ∷ [] }
    {
        let _graph = &self.graph;
        2 * u64::from(task) + 2
    }
}

impl Work for Sums {
    ghost use Rattle.pb_run_trials.specs.Sums.{plan_of};

    type Scratch = ();

    ghost plan = { plan_of };

    ghost fits = { λ s scratch. Unit {0} };

    fn graph(&self) -> &TaskGraph {
        &self.graph
    }

    fn input(&self, cell: u64) -> Outcome {
        if cell == 0 {
            Outcome::Value(self.first)
        } else {
            Outcome::Value(self.second)
        }
    }

    fn scratch(&self, _alloc: Global) -> Result<(), AllocError> {
        Ok(())
    }

    fn run<C: CellPort>(&self, task: u32, port: &mut C, _scratch: &mut ()) {
        let _graph = &self.graph;
        for k in 0..2u64 {
            let cell = 2 * u64::from(task) + 2 + k;
            let first = port.read(cell - 2);
            let second = port.read(cell - 1);
            port.write(cell, sum(first, second));
        }
    }
}
