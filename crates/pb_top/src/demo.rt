//! `demo`: two runs of programs that are always the same, over matrices that are drawn from a seed.
ghost use Rattle.std.specs.Prelude.{◌≡◌, ◌<◌, ◌≤◌, Some, length};
ghost use Rattle.std.specs.List.{All};
ghost use Rattle.pb_program.specs.Configs.{IsValid};
ghost use Rattle.pb_program.specs.Trees.{bare_prog};
ghost use Rattle.pb_region.specs.Dims.{HasTransform};
ghost use Rattle.pb_unroll.specs.Handed.{IsWhole};
ghost use Rattle.pb_syntax.specs.Trees.{bare_text};
ghost use Rattle.pb_syntax.specs.WithinLimits.{IsWithinLimits};
ghost use Rattle.pb_demo.specs.Demonstrations.{demo_config, demo_transform};
ghost use Rattle.pb_top.specs.Demos.{DemoAnswers, DemoRun, Summarizes, demo_name};
ghost use Rattle.pb_top.specs.Runs.{AfterAcceptWith, AfterInputs};
ghost use Rattle.pb_top.specs.Steps.{AfterResolved};
ghost use Rattle.pb_top.specs.Working.{Replies};
ghost use Rattle.pb_words.specs.Ranges.{IsWithin};

use crate::finish::summarize;
use crate::phases::{accept, read, resolve_names};
use crate::pools::run_pool;
use crate::reply::Stop;
use crate::steps::{begin_run, configure, find_transform};
use pb_check::Accepted;
use pb_gen::{example, text};
use pb_matrix::Matrix;
use pb_prog::Text;
use pb_program::Config;
use pb_taskgraph::Gate;
use pb_words::Pool;
use std::alloc::Global;
use std::sync::Wait;
use std::thread::Threads;

/// How deep plans may call.
const DEPTH: u32 = 64;

/// The least side of a block, in cells.
const GRAIN: u64 = 16;

/// The name of the transform of a run.
fn transform_of(which: u32) -> &'static str
    requires { which < 2 }
    ensures { result.now ≡ demo_transform which }
{
    if which == 0 {
        "MatrixMultiply"
    } else {
        "RollingSum"
    }
}

/// The text of the configuration of a run.
fn config_of(which: u32) -> &'static [u8]
    requires { which < 2 }
    ensures { result.now ≡ demo_config which }
{
    if which == 0 {
        b"choose MatrixMultiply.AB {0,1,2,3} = 0 until 32 then 3\n"
    } else {
        b"choose RollingSum.B {0,1} = 0 until 2 then 1\n"
    }
}

/// The name that the summary of a run begins with.
fn name_of(which: u32) -> &'static str
    requires { which < 2 }
    ensures { result.now ≡ demo_name which }
{
    if which == 0 {
        "MatrixMultiply AB"
    } else {
        "RollingSum B"
    }
}

/// The summaries of a run of transform `t`, which takes as many matrices, by the pool that steals.
fn demo_inputs<R: Threads + Wait + Sync, G: Gate>(
    rt: &R,
    alloc: Global,
    which: u32,
    a: &Accepted,
    c: &Config,
    t: u32,
    inputs: Vec<Matrix>,
    workers: u32,
    gate: &G,
) -> Result<Vec<u8>, Stop>
    requires which { which < 2 }
    requires valid { IsValid (bare_prog a.now.program) c.now }
    requires count { HasTransform (bare_prog a.now.program) t (λ transform. length inputs.items ≡ transform.inputs) }
    requires whole { All IsWhole inputs.items }
    requires workers { IsWithin 1 64 workers }
    ensures { Replies (AfterInputs (demo_transform which) 64 16 (Summarizes (demo_name which)) (bare_prog a.now.program) a.now.found c.now t inputs.items) result }
{
    let name = transform_of(which);
    let run = begin_run(alloc, a, c, t, name, inputs, DEPTH, GRAIN)?;
    let finished = run_pool(rt, alloc, &run, Pool::Steal, workers, gate)?;
    summarize(alloc, &run, &finished.outcomes, name_of(which))
}

/// The summaries of a run of an accepted program.
fn demo_accepted<R: Threads + Wait + Sync, G: Gate>(
    rt: &R,
    alloc: Global,
    which: u32,
    a: &Accepted,
    inputs: Vec<Matrix>,
    workers: u32,
    gate: &G,
) -> Result<Vec<u8>, Stop>
    requires which { which < 2 }
    requires few { length inputs.items ≤ 16 }
    requires whole { All IsWhole inputs.items }
    requires workers { IsWithin 1 64 workers }
    ensures { Replies (AfterAcceptWith (demo_transform which) 64 16 (Summarizes (demo_name which)) (bare_prog a.now.program) a.now.found (Some (demo_config which)) inputs.items) result }
{
    let c = configure(alloc, a.prog(), Some(config_of(which)))?;
    let t = find_transform(alloc, a, transform_of(which), inputs.len() as u32)?;
    demo_inputs(rt, alloc, which, a, &c, t, inputs, workers, gate)
}

/// The summaries of a run of the program that a tree is.
fn demo_resolved<R: Threads + Wait + Sync, G: Gate>(
    rt: &R,
    alloc: Global,
    which: u32,
    tree: &Text,
    inputs: Vec<Matrix>,
    workers: u32,
    gate: &G,
) -> Result<Vec<u8>, Stop>
    requires which { which < 2 }
    requires within { IsWithinLimits (bare_text tree.now) }
    requires few { length inputs.items ≤ 16 }
    requires whole { All IsWhole inputs.items }
    requires workers { IsWithin 1 64 workers }
    ensures { Replies (AfterResolved (λ tree p found. AfterAcceptWith (demo_transform which) 64 16 (Summarizes (demo_name which)) p found (Some (demo_config which)) inputs.items) (bare_text tree.now)) result }
{
    let program = resolve_names(alloc, tree)?;
    let found = accept(alloc, &program)?;
    let accepted = Accepted::new(program, found);
    demo_accepted(rt, alloc, which, &accepted, inputs, workers, gate)
}

/// The summaries of a run of the demonstration.
#[tactic(auto, using(crate::proofs::LineLemmas::read_within))]
fn demo_run<R: Threads + Wait + Sync, G: Gate>(
    rt: &R,
    alloc: Global,
    which: u32,
    seed: u32,
    size: u64,
    workers: u32,
    gate: &G,
) -> Result<Vec<u8>, Stop>
    requires which { which < 2 }
    requires size { IsWithin 1 256 size }
    requires workers { IsWithin 1 64 workers }
    ensures { Replies (DemoRun which seed size) result }
{
    let inputs = example(alloc, which, u64::from(seed), size)?;
    let tree = read(alloc, text(which))?;
    demo_resolved(rt, alloc, which, &tree, inputs, workers, gate)
}

/// The summaries of both runs, one after the other.
pub fn demo<R: Threads + Wait + Sync, G: Gate>(
    rt: &R,
    alloc: Global,
    seed: u32,
    size: u64,
    workers: u32,
    gate: &G,
) -> Result<Vec<u8>, Stop>
    requires size { IsWithin 1 256 size }
    requires workers { IsWithin 1 64 workers }
    ensures { Replies (DemoAnswers seed size) result }
{
    let mut text = demo_run(rt, alloc, 0, seed, size, workers, gate)?;
    let second = demo_run(rt, alloc, 1, seed, size, workers, gate)?;
    text.extend_from_slice(&second)?;
    Ok(text)
}
