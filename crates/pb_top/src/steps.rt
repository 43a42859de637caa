ghost use Rattle.std.specs.Prelude.{◌≡◌, IfErr, IfOk, length};
ghost use Rattle.std.specs.List.{All};
ghost use Rattle.pb_program.specs.Configs.{IsValid};
ghost use Rattle.pb_program.specs.Trees.{bare_prog};
ghost use Rattle.pb_program.specs.WellFormed.{IsWellFormed};
ghost use Rattle.pb_region.specs.Dims.{HasTransform};
ghost use Rattle.pb_unroll.specs.Handed.{IsWhole};
ghost use Rattle.pb_unroll.specs.Handed.{IsUnrolled};
ghost use Rattle.pb_top.specs.Runs.{Configures, FindsTransform, ReadsInput};
ghost use Rattle.pb_top.specs.Steps.{Each};
ghost use Rattle.pb_top.specs.Working.{CannotRun, Gives, ReadsConfig, StopsWith, files_of, refusal_status, text_in};

use crate::reply::{Status, Stop, faulty_input};
use pb_check::Accepted;
use pb_config::{ConfigRefusal, read_config};
use pb_entry::{RunRefusal, enter};
use pb_matrix::{Matrix, read_matrix};
use pb_program::{Config, Prog};
use pb_run_lines::{config_line, run_line};
use pb_unroll::{Run, unroll};
use std::alloc::Global;

/// The configuration that a text says for a program.
fn read_choices(alloc: Global, p: &Prog, text: &[u8]) -> Result<Config, Stop>
    requires { IsWellFormed (bare_prog p.now) }
    ensures gives { Gives (λ c. c) (ReadsConfig (bare_prog p.now) text.now) result }
    ensures valid { IfOk result (IsValid (bare_prog p.now)) }
{
    match read_config(alloc, text, p) {
        Ok(config) => Ok(config),
        Err(ConfigRefusal::Memory) => Err(Stop::Memory),
        Err(refusal) => {
            let line = config_line(alloc, &refusal)?;
            Err(Stop::Refused(Status::Config, line))
        }
    }
}

/// The configuration that a text says for a program, the empty one where there is no text.
pub fn configure(alloc: Global, p: &Prog, text: Option<&[u8]>) -> Result<Config, Stop>
    requires { IsWellFormed (bare_prog p.now) }
    ensures gives { Gives (λ c. c) (Configures (bare_prog p.now) (text_in text.entry)) result }
    ensures valid { IfOk result (IsValid (bare_prog p.now)) }
{
    match text {
        Some(text) => read_choices(alloc, p, text),
        None => read_choices(alloc, p, b""),
    }
}

/// The number of the transform of this name, which takes so many matrices.
pub fn find_transform(alloc: Global, a: &Accepted, name: &str, given: u32) -> Result<u32, Stop>
    ensures { Gives (λ t. t) (FindsTransform (bare_prog a.now.program) name.now given) result }
{
    match enter(a, name.as_bytes(), given) {
        Ok(t) => Ok(t),
        Err(refusal) => {
            let transforms = &a.prog().transforms;
            let line = run_line(alloc, transforms, 0, name.as_bytes(), &refusal)?;
            Err(Stop::Refused(Status::Input, line))
        }
    }
}

/// The matrix that an input is.
fn read_input(alloc: Global, file: &str, text: &[u8]) -> Result<Matrix, Stop>
    ensures gives { Gives (λ m. m) (ReadsInput (file.now, text.now)) result }
    ensures whole { IfOk result IsWhole }
{
    match read_matrix(alloc, text) {
        Ok(matrix) => Ok(matrix),
        Err(refusal) => Err(faulty_input(alloc, file, refusal)?),
    }
}

/// The matrices that inputs are, by their words and their texts.
pub fn read_inputs(alloc: Global, files: &[String], texts: &[Vec<u8>]) -> Result<Vec<Matrix>, Stop>
    requires { length files.now ≡ length texts.now }
    ensures gives { Gives (λ ms. ms.items) (Each ReadsInput (files_of files.now texts.now)) result }
    ensures whole { IfOk result (λ ms. All IsWhole ms.items) }
{
    let mut found = Vec::with_capacity(alloc, files.len())?;
    for i in 0..files.len() {
        found.push(read_input(alloc, files[i].as_str(), &texts[i])?)?;
    }
    Ok(found)
}

/// How a run that can't be begun ends.
fn status_of(refusal: RunRefusal) -> Status
    ensures { result ≡ refusal_status refusal }
{
    match refusal {
        RunRefusal::TooLarge { .. } => Status::TooLarge,
        _ => Status::Input,
    }
}

/// The run of a transform with these matrices.
pub fn begin_run<'a>(
    alloc: Global,
    a: &'a Accepted,
    c: &'a Config,
    t: u32,
    name: &str,
    inputs: Vec<Matrix>,
    depth: u32,
    grain: u64,
) -> Result<Run<'a>, Stop>
    requires valid { IsValid (bare_prog a.now.program) c.now }
    requires count { HasTransform (bare_prog a.now.program) t (λ transform. length inputs.items ≡ transform.inputs) }
    requires whole { All IsWhole inputs.items }
    ensures found { IfOk result (IsUnrolled a.now c.now t inputs.items depth grain) }
    ensures refused { IfErr result (StopsWith (CannotRun a.now c.now t name.now inputs.items depth grain)) }
{
    match unroll(alloc, a, c, t, inputs, depth, grain) {
        Ok(run) => Ok(run),
        Err(RunRefusal::Memory) => Err(Stop::Memory),
        Err(refusal) => {
            let transforms = &a.prog().transforms;
            let line = run_line(alloc, transforms, t, name.as_bytes(), &refusal)?;
            Err(Stop::Refused(status_of(refusal), line))
        }
    }
}
