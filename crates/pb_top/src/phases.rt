ghost use Rattle.std.specs.Prelude.{◌≡◌, IfErr, IfOk, Ok};
ghost use Rattle.pb_program.specs.Trees.{bare_prog};
ghost use Rattle.pb_program.specs.WellFormed.{IsWellFormed};
ghost use Rattle.pb_check.specs.Orders.{AreFound, AreNamed};
ghost use Rattle.pb_check.specs.Phases.{IsRefused, IsSound};
ghost use Rattle.pb_syntax.specs.Trees.{bare_text};
ghost use Rattle.pb_syntax.specs.WithinLimits.{IsWithinLimits};
ghost use Rattle.pb_top.specs.Steps.{Accepts, Reads, Resolves};
ghost use Rattle.pb_top.specs.declared.reply.Stop.TheVariants.{Memory};
ghost use Rattle.pb_top.specs.Working.{Gives};

use crate::reply::{Status, Stop};
use pb_check::{Analysis, judge, named_segments};
use pb_front::read_text;
use pb_graph::Node;
use pb_lines::refusal_line;
use pb_prog::{Refusal, Text};
use pb_program::Prog;
use pb_resolve::resolve;
use std::alloc::Global;

/// The tree of a program's text.
#[tactic(auto, using(crate::proofs::LineLemmas::text_line))]
pub fn read(alloc: Global, program: &[u8]) -> Result<Text, Stop>
    ensures { Gives bare_text (Reads program.now) result }
{
    match read_text(alloc, program) {
        Ok(tree) => Ok(tree),
        Err(Refusal::Memory) => Err(Stop::Memory),
        Err(refusal) => {
            let line = refusal_line(alloc, &[], &[], &refusal)?;
            Err(Stop::Refused(Status::Program, line))
        }
    }
}

/// The program that a tree is.
#[tactic(auto, using(crate::proofs::LineLemmas::names_line))]
pub fn resolve_names(alloc: Global, tree: &Text) -> Result<Prog, Stop>
    requires { IsWithinLimits (bare_text tree.now) }
    ensures gives { Gives bare_prog (Resolves (bare_text tree.now)) result }
    ensures well_formed { IfOk result (λ p. IsWellFormed (bare_prog p)) }
{
    match resolve(alloc, tree) {
        Ok(program) => Ok(program),
        Err(Refusal::Memory) => Err(Stop::Memory),
        Err(refusal) => {
            let line = refusal_line(alloc, &[], &[], &refusal)?;
            Err(Stop::Refused(Status::Program, line))
        }
    }
}

// The segments that a refusal names.
fn named(alloc: Global, program: &Prog, refusal: &Refusal) -> Result<Vec<Node>, Stop>
    requires well_formed { IsWellFormed (bare_prog program.now) }
    requires refused { IsRefused (bare_prog program.now) refusal.now }
    ensures found { IfOk result (λ nodes. AreNamed (bare_prog program.now) refusal.now nodes.items) }
    ensures refused { IfErr result (λ e. e ≡ Memory) }
{
    match named_segments(alloc, program, refusal) {
        Ok(nodes) => Ok(nodes),
        Err(_) => Err(Stop::Memory),
    }
}

// The line of a program that a further phase refuses.
#[tactic(auto, using(crate::proofs::LineLemmas::phase_refusal, crate::proofs::LineLemmas::few_sizes))]
fn refuse(alloc: Global, program: &Prog, refusal: &Refusal) -> Result<Vec<Analysis>, Stop>
    requires well_formed { IsWellFormed (bare_prog program.now) }
    requires refused { IsRefused (bare_prog program.now) refusal.now }
    ensures { Gives (λ found. found.items) (Accepts (bare_prog program.now)) result }
{
    let nodes = named(alloc, program, refusal)?;
    let line = refusal_line(alloc, &program.transforms, &nodes, refusal)?;
    Err(Stop::Refused(Status::Program, line))
}

/// What is found of each transform of a program that every further phase accepts.
#[tactic(auto, using(crate::proofs::LineLemmas::phase_why))]
pub fn accept(alloc: Global, program: &Prog) -> Result<Vec<Analysis>, Stop>
    requires { IsWellFormed (bare_prog program.now) }
    ensures gives { Gives (λ found. found.items) (Accepts (bare_prog program.now)) result }
    ensures found { IfOk result (λ found. AreFound (bare_prog program.now) found.items) }
{
    match judge(alloc, program) {
        Ok(found) => Ok(found),
        Err(Refusal::Memory) => Err(Stop::Memory),
        Err(refusal) => refuse(alloc, program, &refusal),
    }
}
