ghost use Rattle.std.specs.Prelude.{◌≡◌, IfOk};
ghost use Rattle.std.specs.List.{All};
ghost use Rattle.pb_program.specs.Trees.{bare_prog};
ghost use Rattle.pb_frame.specs.Frames.{JobValue};
ghost use Rattle.pb_plan.specs.Tasks.{kind_for};
ghost use Rattle.pb_steps.specs.Handed.{Step as RunStep};
ghost use Rattle.pb_run_plan.specs.RunTasks.{call_of, kind_of};
ghost use Rattle.pb_run_graph.specs.Ready.{AreMadeWith, CanMake, IsMadeFor, IsTaskWith};

use crate::parts::step_parts;
use pb_check::Accepted;
use pb_frame::Job;
use pb_links::Links;
use pb_steps::{Instance, Step, Unrolled};
use pb_taskgraph::{Task, TaskKind};
use std::alloc::{AllocError, Global};

/// Whether a job is a block or all that a rule makes.
fn kind_for(job: &Job) -> TaskKind
    ensures { result ≡ kind_for job.now.rule }
{
    match job.rule {
        None => TaskKind::Block,
        Some(_) => TaskKind::Wide,
    }
}

/// What the task of a step does.
fn kind_of(a: &Accepted, instances: &[Instance], step: &Step) -> TaskKind
    requires { CanMake (bare_prog a.now.program) a.now.found instances.now step.now }
    ensures { IsMadeFor (bare_prog a.now.program) a.now.found instances.now (λ s kind. kind ≡ kind_of s) step.now result }
{
    match step {
        Step::Job { instance, job } => {
            let here = &instances[*instance as usize];
            kind_for(&here.jobs[*job as usize])
        }
        Step::Copy(_) => TaskKind::Copy,
        Step::Trap(_) => TaskKind::Trap,
    }
}

/// The number of the call of a step.
fn call_of(a: &Accepted, instances: &[Instance], step: &Step) -> u32
    requires { CanMake (bare_prog a.now.program) a.now.found instances.now step.now }
    ensures { IsMadeFor (bare_prog a.now.program) a.now.found instances.now (λ s call. call ≡ call_of s) step.now result }
{
    match step {
        Step::Job { instance, job: _ } => {
            let here = &instances[*instance as usize];
            here.call
        }
        Step::Copy(copied) => {
            let here = &instances[copied.instance as usize];
            here.call
        }
        Step::Trap(failed) => failed.call,
    }
}

/// The task of a step with these links.
fn task_for(
    alloc: Global,
    a: &Accepted,
    instances: &[Instance],
    step: &Step,
    before: Vec<u32>,
    after: Vec<u32>,
) -> Result<Task, AllocError>
    requires { CanMake (bare_prog a.now.program) a.now.found instances.now step.now }
    ensures { IfOk result (λ task. IsMadeFor (bare_prog a.now.program) a.now.found instances.now (λ s made. IsTaskWith s before.items after.items made) step.now task) }
{
    Ok(Task {
        call: call_of(a, instances, step),
        kind: kind_of(a, instances, step),
        parts: step_parts(alloc, a, instances, step)?,
        before,
        after,
    })
}

/// The tasks of a run, one for each step, with their links.
pub(crate) fn tasks_for(
    alloc: Global,
    a: &Accepted,
    run: &Unrolled,
    links: Links,
) -> Result<Vec<Task>, AllocError>
    requires { All (CanMake (bare_prog a.now.program) a.now.found run.now.instances) run.now.steps }
    ensures { IfOk result (λ tasks. AreMadeWith (bare_prog a.now.program) a.now.found run.now links tasks.items) }
{
    let mut tasks = Vec::new(alloc);
    for ((step, before), after) in run.steps.iter().zip(links.before).zip(links.after) {
        tasks.push(task_for(alloc, a, &run.instances, step, before.list, after.list)?)?;
    }
    Ok(tasks)
}
