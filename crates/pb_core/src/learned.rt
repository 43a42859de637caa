ghost use Rattle.std.specs.Prelude.{◌≡◌};
ghost use Rattle.pb_taskgraph.specs.Plans.{IsPlan};
ghost use Rattle.pb_taskgraph.specs.Serial.{serial_turn};
ghost use Rattle.pb_core.specs.Cores.{AreLearned, CanRun, HasRun};

use pb_taskgraph::{CellPort, NamesWork, Work};
use pb_values::{CellReader, Outcome};
use std::marker::{Model, PhantomData};

/// The port of a task that is run over the outcomes that are told so far.
#[derive(Drop)]
struct LearningPort<N: NamesWork> {
    task: u32,
    written: usize,
    outcomes: Vec<Outcome>,
    of: PhantomData<N>,
}

impl<N: NamesWork> Model for LearningPort<N> {
    ghost use Rattle.pb_taskgraph.specs.Serial.{IsPort, SerialValue};

    ghost Value = { SerialValue };

    ghost view = { λ p. record { task = p.task; written = p.written; outcomes = p.outcomes.items } };

    ghost invariant = { λ p. IsPort N.plan p.task p.outcomes.items };
}

impl<N: NamesWork> LearningPort<N> {
    ghost use Rattle.std.specs.Prelude.{length};

    fn into_outcomes(self) -> Vec<Outcome>
        ensures outcomes { result.items ≡ self.outcomes }
        ensures room { length result.items ≡ N.plan.graph.cells }
    {
        self.outcomes
    }
}

impl<N: NamesWork> CellReader for LearningPort<N> {
    ghost turn = { serial_turn N.plan };

    fn read(&mut self, cell: u64) -> Outcome {
        self.outcomes[cell as usize]
    }
}

impl<N: NamesWork> CellPort for LearningPort<N> {
    fn write(&mut self, cell: u64, v: Outcome) {
        self.outcomes[cell as usize] = v;
        self.written += 1;
    }
}

/// Runs a task over these outcomes.
fn run_over<N: NamesWork, W: Work>(
    work: &W,
    scratch: &mut W::Scratch,
    task: u32,
    outcomes: Vec<Outcome>,
) -> Vec<Outcome>
    requires name { W.plan work.now ≡ N.plan }
    requires plan { IsPlan N.plan }
    requires fits { W.fits work.now scratch.old }
    requires can { CanRun N.plan task outcomes.items }
    ensures fits { W.fits work.now scratch.new }
    ensures has { HasRun N.plan task outcomes.items result.items }
{
    let mut port = LearningPort::<N> {
        task,
        written: 0,
        outcomes,
        of: PhantomData,
    };
    work.run(task, &mut port, scratch);
    port.into_outcomes()
}

/// Runs a task that wasn't run before.
pub(crate) fn learn<N: NamesWork, W: Work>(
    work: &W,
    scratch: &mut W::Scratch,
    run: &mut Vec<bool>,
    task: u32,
    outcomes: Vec<Outcome>,
) -> Vec<Outcome>
    requires name { W.plan work.now ≡ N.plan }
    requires plan { IsPlan N.plan }
    requires fits { W.fits work.now scratch.old }
    requires can { CanRun N.plan task outcomes.items }
    requires learned { AreLearned N.plan run.old.items outcomes.items }
    ensures fits { W.fits work.now scratch.new }
    ensures has { HasRun N.plan task outcomes.items result.items }
    ensures learned { AreLearned N.plan run.new.items result.items }
{
    if run[task as usize] {
        return outcomes;
    }
    let outcomes = run_over::<N, W>(work, scratch, task, outcomes);
    run[task as usize] = true;
    outcomes
}
