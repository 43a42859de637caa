ghost use Rattle.std.specs.Prelude.{◌≡◌, ◌≤◌, IfOk, length};
ghost use Rattle.pb_program.specs.Configs.{IsValid};
ghost use Rattle.pb_program.specs.Trees.{bare_prog};
ghost use Rattle.pb_region.specs.Dims.{HasTransform};
ghost use Rattle.pb_syntax.specs.Trees.{bare_text};
ghost use Rattle.pb_syntax.specs.WithinLimits.{IsWithinLimits};
ghost use Rattle.pb_top.specs.Runs.{AfterAccept, AfterConfig, AfterName, RunWrites, RunsProgram};
ghost use Rattle.pb_top.specs.Steps.{AfterResolved};
ghost use Rattle.pb_top.specs.Working.{IsReady, Prepares, files_of, text_in};

use crate::phases::{accept, read, resolve_names};
use crate::reply::Stop;
use crate::steps::{configure, find_transform, read_inputs};
use pb_check::Accepted;
use pb_matrix::Matrix;
use pb_prog::Text;
use pb_program::Config;
use std::alloc::Global;

/// What is asked of a run: the name of the transform, how deep plans may call, the least side of a block, whether a trace is
/// wanted, and the words and the texts of the inputs.
#[derive(Drop)]
pub struct Request<'a> {
    pub transform: &'a str,
    pub depth: u32,
    pub grain: u64,
    pub traced: bool,
    pub files: &'a [String],
    pub texts: &'a [Vec<u8>],
}

/// What a run begins with: an accepted program, a configuration of it, the number of a transform, and as many matrices as it
/// takes.
#[derive(Drop)]
pub struct Prepared {
    pub accepted: Accepted,
    pub config: Config,
    pub transform: u32,
    pub inputs: Vec<Matrix>,
}

/// The run of transform `t`, which takes as many matrices.
fn prepare_inputs(
    alloc: Global,
    a: Accepted,
    c: Config,
    t: u32,
    r: &Request<'_>,
) -> Result<Prepared, Stop>
    requires valid { IsValid (bare_prog a.program) c }
    requires count { HasTransform (bare_prog a.program) t (λ transform. length r.now.files.now ≡ transform.inputs) }
    requires texts { length r.now.files.now ≡ length r.now.texts.now }
    ensures prepares { Prepares r.now.transform.now r.now.depth r.now.grain r.now.traced (λ pool tail. AfterName r.now.transform.now r.now.depth r.now.grain (RunWrites pool r.now.traced tail) (bare_prog a.program) a.found c t (files_of r.now.files.now r.now.texts.now)) result }
    ensures ready { IfOk result IsReady }
{
    let inputs = read_inputs(alloc, r.files, r.texts)?;
    Ok(Prepared {
        accepted: a,
        config: c,
        transform: t,
        inputs,
    })
}

/// The run with a configuration.
fn prepare_configured(
    alloc: Global,
    a: Accepted,
    c: Config,
    r: &Request<'_>,
) -> Result<Prepared, Stop>
    requires valid { IsValid (bare_prog a.program) c }
    requires texts { length r.now.files.now ≡ length r.now.texts.now }
    requires few { length r.now.files.now ≤ 16 }
    ensures prepares { Prepares r.now.transform.now r.now.depth r.now.grain r.now.traced (λ pool tail. AfterConfig r.now.transform.now r.now.depth r.now.grain (RunWrites pool r.now.traced tail) (bare_prog a.program) a.found (files_of r.now.files.now r.now.texts.now) c) result }
    ensures ready { IfOk result IsReady }
{
    let t = find_transform(alloc, &a, r.transform, r.files.len() as u32)?;
    prepare_inputs(alloc, a, c, t, r)
}

/// The run of an accepted program.
fn prepare_accepted(
    alloc: Global,
    a: Accepted,
    config: Option<&[u8]>,
    r: &Request<'_>,
) -> Result<Prepared, Stop>
    requires texts { length r.now.files.now ≡ length r.now.texts.now }
    requires few { length r.now.files.now ≤ 16 }
    ensures prepares { Prepares r.now.transform.now r.now.depth r.now.grain r.now.traced (λ pool tail. AfterAccept r.now.transform.now r.now.depth r.now.grain (RunWrites pool r.now.traced tail) (bare_prog a.program) a.found (text_in config.entry) (files_of r.now.files.now r.now.texts.now)) result }
    ensures ready { IfOk result IsReady }
{
    let c = configure(alloc, a.prog(), config)?;
    prepare_configured(alloc, a, c, r)
}

/// The run of the program that a tree is.
fn prepare_tree(
    alloc: Global,
    tree: &Text,
    config: Option<&[u8]>,
    r: &Request<'_>,
) -> Result<Prepared, Stop>
    requires within { IsWithinLimits (bare_text tree.now) }
    requires texts { length r.now.files.now ≡ length r.now.texts.now }
    requires few { length r.now.files.now ≤ 16 }
    ensures prepares { Prepares r.now.transform.now r.now.depth r.now.grain r.now.traced (λ pool tail. AfterResolved (λ tree p found. AfterAccept r.now.transform.now r.now.depth r.now.grain (RunWrites pool r.now.traced tail) p found (text_in config.entry) (files_of r.now.files.now r.now.texts.now)) (bare_text tree.now)) result }
    ensures ready { IfOk result IsReady }
{
    let program = resolve_names(alloc, tree)?;
    let found = accept(alloc, &program)?;
    prepare_accepted(alloc, Accepted::new(program, found), config, r)
}

/// The steps before a run, from the text of its program on.
#[tactic(auto, using(crate::proofs::LineLemmas::read_within))]
pub fn prepare(
    alloc: Global,
    program: &[u8],
    config: Option<&[u8]>,
    r: &Request<'_>,
) -> Result<Prepared, Stop>
    requires texts { length r.now.files.now ≡ length r.now.texts.now }
    requires few { length r.now.files.now ≤ 16 }
    ensures prepares { Prepares r.now.transform.now r.now.depth r.now.grain r.now.traced (λ pool tail. RunsProgram r.now.transform.now r.now.depth r.now.grain (RunWrites pool r.now.traced tail) program.now (text_in config.entry) (files_of r.now.files.now r.now.texts.now)) result }
    ensures ready { IfOk result IsReady }
{
    let tree = read(alloc, program)?;
    prepare_tree(alloc, &tree, config, r)
}
