//! `tune`: the configuration that the tuner finds by the cost model.
ghost use Rattle.std.specs.Prelude.{◌≡◌, ◌<◌, IfErr, IfOk, IsTrue, [], length};
ghost use Rattle.pb_program.specs.Configs.{is_cutoff};
ghost use Rattle.pb_program.specs.Trees.{bare_prog};
ghost use Rattle.pb_syntax.specs.Trees.{bare_text};
ghost use Rattle.pb_syntax.specs.WithinLimits.{IsWithinLimits};
ghost use Rattle.pb_top.specs.Steps.{AfterResolved};
ghost use Rattle.pb_top.specs.Tunes.{FindsNamed, IsTunedFor, Tunes, TunesProgram};
ghost use Rattle.pb_top.specs.Working.{Gives, Replies};
ghost use Rattle.pb_top.specs.declared.reply.Stop.TheVariants.{Memory};

use crate::judge::CostModel;
use crate::phases::{accept, read, resolve_names};
use crate::reply::{Status, Stop};
use pb_check::Accepted;
use pb_config::print_config;
use pb_entry::RunRefusal;
use pb_prog::Text;
use pb_program::Config;
use pb_run_lines::run_line;
use pb_tuner::{TuneFault, tune as find_tuned};
use std::alloc::Global;

/// The number of the transform of this name.
fn find_named(alloc: Global, a: &Accepted, name: &str) -> Result<u32, Stop>
    ensures { Gives (λ t. t) (FindsNamed (bare_prog a.now.program) name.now) result }
{
    match a.find(name.as_bytes()) {
        Some(t) => Ok(t),
        None => {
            let transforms = &a.prog().transforms;
            let refusal = RunRefusal::UnknownTransform;
            let line = run_line(alloc, transforms, 0, name.as_bytes(), &refusal)?;
            Err(Stop::Refused(Status::Input, line))
        }
    }
}

/// The configuration that is tuned for transform `t`.
fn tune_transform(alloc: Global, a: &Accepted, t: u32, up_to: u64) -> Result<Config, Stop>
    requires there { t < length (bare_prog a.now.program) }
    requires up_to { IsTrue (is_cutoff up_to) }
    ensures found { IfOk result (IsTunedFor (bare_prog a.now.program) a.now.found up_to t) }
    ensures refused { IfErr result (λ e. e ≡ Memory) }
{
    let sites = a.sites(alloc)?;
    let mut judge = CostModel::new(alloc, a, t);
    match find_tuned(alloc, a.prog(), &sites, up_to, &mut judge) {
        Ok((config, _)) => Ok(config),
        Err(TuneFault::Memory) => Err(Stop::Memory),
        Err(TuneFault::JudgeFault { .. }) => unreachable!(),
    }
}

/// The text of the configuration that is tuned for the transform of this name.
fn tune_accepted(alloc: Global, a: &Accepted, name: &str, up_to: u64) -> Result<Vec<u8>, Stop>
    requires { IsTrue (is_cutoff up_to) }
    ensures { Replies (Tunes name.now up_to [] (bare_prog a.now.program) a.now.found) result }
{
    let t = find_named(alloc, a, name)?;
    let config = tune_transform(alloc, a, t, up_to)?;
    Ok(print_config(alloc, &config, a.prog())?)
}

/// The same of the program that a tree is.
fn tune_resolved(alloc: Global, tree: &Text, name: &str, up_to: u64) -> Result<Vec<u8>, Stop>
    requires within { IsWithinLimits (bare_text tree.now) }
    requires up_to { IsTrue (is_cutoff up_to) }
    ensures { Replies (AfterResolved (Tunes name.now up_to) (bare_text tree.now)) result }
{
    let program = resolve_names(alloc, tree)?;
    let found = accept(alloc, &program)?;
    let accepted = Accepted::new(program, found);
    tune_accepted(alloc, &accepted, name, up_to)
}

/// The text of the configuration of a program that is tuned up to a size, for the transform of this name, if no phase refuses the
/// program.
#[tactic(auto, using(crate::proofs::LineLemmas::read_within))]
pub fn tune(alloc: Global, program: &[u8], name: &str, up_to: u64) -> Result<Vec<u8>, Stop>
    requires { IsTrue (is_cutoff up_to) }
    ensures { Replies (TunesProgram name.now up_to program.now) result }
{
    let tree = read(alloc, program)?;
    tune_resolved(alloc, &tree, name, up_to)
}
