ghost use Rattle.std.specs.Prelude.{◌≡◌, ◌<◌, ◌+◌, ℕ, IfOk, length, slice_get};
ghost use Rattle.std.specs.List.{range_with_len};
ghost use Rattle.pb_taskgraph.specs.Plans.{IsPlan};
ghost use Rattle.pb_taskgraph.specs.Serial.{IsWritten, serial_turn};

use crate::names::NamesWork;
use crate::outcomes::Outcomes;
use crate::port::CellPort;
use crate::work::Work;
use pb_values::{CellReader, Outcome};
use std::alloc::{AllocError, Global};
use std::marker::{Brand, Model, PhantomData};

/// The outcomes of all cells, and the numbers of the tasks in the order in which they were run.
#[derive(Debug, Drop)]
pub struct Finished {
    pub outcomes: Outcomes,
    pub order: Vec<u32>,
}

impl Model for Finished {
    ghost use Rattle.pb_taskgraph.specs.Runs.{FinishedValue};

    ghost Value = { FinishedValue };

    ghost view = { λ f. record { outcomes = f.outcomes; order = f.order.items } };
}

/// The port of a task that is run alone. It holds the outcomes of all cells.
#[derive(Drop)]
struct SerialPort<N: NamesWork> {
    task: u32,
    written: usize,
    outcomes: Outcomes,
    of: PhantomData<N>,
}

impl<N: NamesWork> Model for SerialPort<N> {
    ghost use Rattle.pb_taskgraph.specs.Serial.{IsPort, SerialValue};

    ghost Value = { SerialValue };

    ghost view = { λ p. record { task = p.task; written = p.written; outcomes = p.outcomes } };

    ghost invariant = { λ p. IsPort N.plan p.task p.outcomes };
}

impl<N: NamesWork> SerialPort<N> {
    fn into_outcomes(self) -> Outcomes
        ensures outcomes { result ≡ self.outcomes }
        ensures size { length result ≡ N.plan.graph.cells }
    {
        self.outcomes
    }
}

impl<N: NamesWork> CellReader for SerialPort<N> {
    ghost turn = { serial_turn N.plan };

    fn read(&mut self, cell: u64) -> Outcome {
        self.outcomes.get(cell)
    }

    #[inline(always)]
    fn is_untrapped(&self) -> bool {
        self.outcomes.is_untrapped()
    }

    #[inline(always)]
    fn number(&mut self, cell: u64) -> i64 {
        self.outcomes.number(cell)
    }
}

impl<N: NamesWork> CellPort for SerialPort<N> {
    fn write(&mut self, cell: u64, v: Outcome) {
        self.written += 1;
        match v {
            Outcome::Value(number) => self.outcomes.set_number(cell, number),
            Outcome::Trapped(trap) => self.outcomes.set_trap(cell, trap),
        }
    }
}

/// Runs a task over these outcomes.
fn run_task<N: NamesWork, W: Work>(
    work: &W,
    scratch: &mut W::Scratch,
    task: u32,
    outcomes: Outcomes,
) -> Outcomes
    requires name { W.plan work.now ≡ N.plan }
    requires plan { IsPlan N.plan }
    requires task { task < length N.plan.graph.tasks }
    requires fits { W.fits work.now scratch.old }
    requires written { IsWritten N.plan task outcomes }
    ensures fits { W.fits work.now scratch.new }
    ensures written { IsWritten N.plan (task + 1) result }
{
    let mut port = SerialPort::<N> {
        task,
        written: 0,
        outcomes,
        of: PhantomData,
    };
    work.run(task, &mut port, scratch);
    port.into_outcomes()
}

/// The outcomes before a task is run: those of the input cells. Of the others nothing is said.
fn given_outcomes<W: Work>(
    alloc: Global,
    work: &W,
    inputs: u64,
    cells: u64,
) -> Result<Outcomes, AllocError>
    requires plan { IsPlan (W.plan work.now) }
    requires inputs { inputs ≡ (W.plan work.now).graph.inputs }
    requires cells { cells ≡ (W.plan work.now).graph.cells }
    ensures { IfOk result (λ outcomes. IsWritten (W.plan work.now) 0 outcomes) }
{
    let mut outcomes = Outcomes::zeros(alloc, cells)?;
    for cell in 0..inputs {
        outcomes.set(cell, work.input(cell));
    }
    Ok(outcomes)
}

/// Runs the tasks one after another, by number.
pub fn run_serial<W: Work>(alloc: Global, work: &W) -> Result<Finished, AllocError>
    ensures outcomes { IfOk result (λ f. f.outcomes ≡ (W.plan work.now).solution) }
    ensures order { IfOk result (λ f. f.order ≡ range_with_len 0 (length (W.plan work.now).graph.tasks)) }
{
    let graph = work.graph();
    let mut outcomes = given_outcomes(alloc, work, graph.inputs(), graph.cells())?;
    let mut scratch = work.scratch(alloc)?;
    let mut order = Vec::new(alloc);
    for task in 0..graph.tasks().len() {
        outcomes = run_task::<Brand, W>(work, &mut scratch, task as u32, outcomes);
        order.push(task as u32)?;
    }
    Ok(Finished { outcomes, order })
}
