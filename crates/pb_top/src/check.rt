ghost use Rattle.pb_program.specs.Trees.{bare_prog};
ghost use Rattle.pb_program.specs.WellFormed.{IsWellFormed};
ghost use Rattle.pb_syntax.specs.Trees.{bare_text};
ghost use Rattle.pb_syntax.specs.WithinLimits.{IsWithinLimits};
ghost use Rattle.pb_top.specs.Steps.{AfterAccepted, AfterResolved};
ghost use Rattle.pb_top.specs.Check.{CheckAnswers, ChoicesAnswers, Printed, its_canonical, its_report};
ghost use Rattle.pb_top.specs.Working.{Replies};

use crate::phases::{accept, read, resolve_names};
use crate::reply::Stop;
use pb_prog::{Text, print_text};
use pb_program::Prog;
use pb_report::report_of;
use std::alloc::Global;

// The canonical text of a tree, for a program that is accepted.
fn print_accepted(alloc: Global, tree: &Text, program: &Prog) -> Result<Vec<u8>, Stop>
    requires { IsWellFormed (bare_prog program.now) }
    ensures { Replies (AfterAccepted (Printed its_canonical) (bare_text tree.now) (bare_prog program.now)) result }
{
    accept(alloc, program)?;
    Ok(print_text(alloc, tree)?)
}

// The canonical text of a tree, for one that is a program.
fn print_resolved(alloc: Global, tree: &Text) -> Result<Vec<u8>, Stop>
    requires { IsWithinLimits (bare_text tree.now) }
    ensures { Replies (AfterResolved (Printed its_canonical) (bare_text tree.now)) result }
{
    let program = resolve_names(alloc, tree)?;
    print_accepted(alloc, tree, &program)
}

/// The canonical text of a program, if no phase refuses it.
#[tactic(auto, using(crate::proofs::LineLemmas::read_within))]
pub fn check(alloc: Global, program: &[u8]) -> Result<Vec<u8>, Stop>
    ensures { Replies (CheckAnswers program.now) result }
{
    let tree = read(alloc, program)?;
    print_resolved(alloc, &tree)
}

// The report of a program that is accepted.
fn report_accepted(alloc: Global, tree: &Text, program: &Prog) -> Result<Vec<u8>, Stop>
    requires { IsWellFormed (bare_prog program.now) }
    ensures { Replies (AfterAccepted (Printed its_report) (bare_text tree.now) (bare_prog program.now)) result }
{
    let found = accept(alloc, program)?;
    Ok(report_of(alloc, program, &found)?)
}

// The report of a tree that is a program.
fn report_resolved(alloc: Global, tree: &Text) -> Result<Vec<u8>, Stop>
    requires { IsWithinLimits (bare_text tree.now) }
    ensures { Replies (AfterResolved (Printed its_report) (bare_text tree.now)) result }
{
    let program = resolve_names(alloc, tree)?;
    report_accepted(alloc, tree, &program)
}

/// The report of a program, if no phase refuses it.
#[tactic(auto, using(crate::proofs::LineLemmas::read_within))]
pub fn choices(alloc: Global, program: &[u8]) -> Result<Vec<u8>, Stop>
    ensures { Replies (ChoicesAnswers program.now) result }
{
    let tree = read(alloc, program)?;
    report_resolved(alloc, &tree)
}
