//! Who runs the tasks of a run.
ghost use Rattle.std.specs.Prelude.{◌≡◌, ◌≤◌, IfOk};
ghost use Rattle.pb_words.specs.declared.ask.Pool.TheVariants.{Serial};
ghost use Rattle.pb_unroll.specs.Handed.{run_plan};
ghost use Rattle.pb_top.specs.Runs.{orders_of};
ghost use Rattle.pb_top.specs.Working.{Continues, IsReady, Writes};

use crate::finish::finish;
use crate::prepare::Prepared;
use crate::reply::Stop;
use crate::steps::begin_run;
use pb_locked::run_locked;
use pb_steal::run_steal;
use pb_taskgraph::{Finished, Gate, run_serial};
use pb_unroll::Run;
use pb_words::Pool;
use std::alloc::{AllocError, Global};
use std::sync::Wait;
use std::thread::Threads;

/// The run on one thread, which runs the tasks by their numbers.
pub fn run_alone(
    alloc: Global,
    prepared: Prepared,
    name: &str,
    depth: u32,
    grain: u64,
    traced: bool,
) -> Result<Vec<u8>, Stop>
    requires { IsReady prepared }
    ensures { Writes (Continues name.now depth grain traced prepared Serial) result }
{
    let Prepared {
        accepted,
        config,
        transform,
        inputs,
    } = prepared;
    let run = begin_run(
        alloc, &accepted, &config, transform, name, inputs, depth, grain,
    )?;
    let finished = run_serial(alloc, &run)?;
    finish(alloc, &run, &finished, traced)
}

/// What a pool has run, on one thread or on so many. Each worker of a pool of threads calls the gate's `enter` before it runs a task.
pub fn run_pool<R: Threads + Wait + Sync, G: Gate>(
    rt: &R,
    alloc: Global,
    run: &Run<'_>,
    pool: Pool,
    workers: u32,
    gate: &G,
) -> Result<Finished, AllocError>
    requires some { 1 ≤ workers }
    requires few { workers ≤ 64 }
    ensures outcomes { IfOk result (λ finished. finished.outcomes ≡ (run_plan run.now).solution) }
    ensures order { IfOk result (λ finished. orders_of pool (run_plan run.now).graph finished.order) }
{
    match pool {
        Pool::Serial => run_serial(alloc, run),
        Pool::Locked => run_locked(rt, alloc, run, workers, gate),
        Pool::Steal => run_steal(rt, alloc, run, workers, gate),
    }
}

/// The run by a pool, which has so many threads where it has any.
pub fn run_beside<R: Threads + Wait + Sync, G: Gate>(
    rt: &R,
    alloc: Global,
    prepared: Prepared,
    name: &str,
    depth: u32,
    grain: u64,
    traced: bool,
    pool: Pool,
    workers: u32,
    gate: &G,
) -> Result<Vec<u8>, Stop>
    requires ready { IsReady prepared }
    requires some { 1 ≤ workers }
    requires few { workers ≤ 64 }
    ensures { Writes (Continues name.now depth grain traced prepared pool) result }
{
    let Prepared {
        accepted,
        config,
        transform,
        inputs,
    } = prepared;
    let run = begin_run(
        alloc, &accepted, &config, transform, name, inputs, depth, grain,
    )?;
    let finished = run_pool(rt, alloc, &run, pool, workers, gate)?;
    finish(alloc, &run, &finished, traced)
}
