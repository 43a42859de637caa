use crate::inputs::input_at;
use crate::run::Run;
use crate::steps::{StepScratch, run_step};
use pb_taskgraph::{CellPort, TaskGraph, Work};
use pb_values::Outcome;
use std::alloc::{AllocError, Global};

impl<'a> Work for Run<'a> {
    ghost use Rattle.pb_run_work.specs.Running.{fits_run, run_plan};

    type Scratch = StepScratch;

    ghost plan = { run_plan };

    ghost fits = { fits_run };

    fn graph(&self) -> &TaskGraph {
        &self.graph
    }

    fn input(&self, cell: u64) -> Outcome {
        input_at(&self.inputs, cell)
    }

    fn scratch(&self, alloc: Global) -> Result<StepScratch, AllocError> {
        StepScratch::new(alloc, self.rooms)
    }

    fn run<C: CellPort>(&self, task: u32, port: &mut C, scratch: &mut StepScratch) {
        let unrolled = &self.unrolled;
        run_step(
            self.accepted,
            &unrolled.instances,
            &unrolled.steps[task as usize],
            &self.sights,
            &self.pieces[task as usize],
            port,
            scratch,
        );
    }
}
