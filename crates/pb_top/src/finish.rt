ghost use Rattle.std.specs.Prelude.{◌≡◌, ◌<◌, IfOk, flat_map, length};
ghost use Rattle.std.specs.List.{All};
ghost use Rattle.pb_words.specs.declared.ask.Pool.{Pool};
ghost use Rattle.pb_unroll.specs.Handed.{run_plan};
ghost use Rattle.pb_summary.specs.Summary.{summary_text};
ghost use Rattle.pb_top.specs.Demos.{Summarizes};
ghost use Rattle.pb_top.specs.Runs.{RunWrites, orders_of, trap_status};
ghost use Rattle.pb_top.specs.Working.{IsTailFor, IsTrapped, Replies, StopsWith, Writes, fitting_of};

use crate::reply::{Status, Stop};
use pb_matrix::Matrix;
use pb_run_lines::trap_line;
use pb_summary::summary;
use pb_taskgraph::{Finished, Outcomes, trace};
use pb_unroll::{Run, TrappedCell, first_trapped, result_matrices, results_text};
use pb_values::Kind;
use std::alloc::{AllocError, Global};

/// How a trapped run ends.
fn status_of(kind: Kind) -> Status
    ensures { result ≡ trap_status kind }
{
    match kind {
        Kind::DepthEnded => Status::DepthEnded,
        _ => Status::Trapped,
    }
}

/// The line of a run's trapped cell.
fn trapped(alloc: Global, run: &Run<'_>, cell: &TrappedCell) -> Result<Stop, AllocError>
    ensures { IfOk result (StopsWith (IsTrapped run.now cell.now)) }
{
    let program = run.program();
    let line = trap_line(
        alloc,
        &program.transforms,
        run.transform_number(),
        cell.matrix,
        cell.x,
        cell.y,
        &cell.trap,
    )?;
    Ok(Stop::Refused(status_of(cell.trap.kind), line))
}

/// The trace of a run whose tasks were finished in this order, if it is wanted.
#[tactic(auto, using(crate::proofs::FinishLemmas::is_tail))]
fn tail_of(alloc: Global, run: &Run<'_>, order: &[u32], traced: bool) -> Result<Vec<u8>, AllocError>
    requires { All (λ t. t < length run.now.graph.tasks) order.now }
    ensures { IfOk result (λ text. (pool : Pool) → orders_of pool (run_plan run.now).graph order.now → IsTailFor pool run.now traced text.items) }
{
    if traced {
        trace(alloc, run.task_graph(), order)
    } else {
        Ok(Vec::new(alloc))
    }
}

/// What a run comes to whose tasks a pool has run: the texts of its matrices, and then its trace, if it is wanted; or the line of
/// its first trapped cell.
pub fn finish(
    alloc: Global,
    run: &Run<'_>,
    finished: &Finished,
    traced: bool,
) -> Result<Vec<u8>, Stop>
    requires outcomes { finished.now.outcomes ≡ (run_plan run.now).solution }
    requires order { All (λ t. t < length run.now.graph.tasks) finished.now.order }
    ensures { (pool : Pool) → orders_of pool (run_plan run.now).graph finished.now.order → Writes (λ tail. RunWrites pool traced tail (fitting_of run.now)) result }
{
    if let Some(cell) = first_trapped(run, &finished.outcomes) {
        return Err(trapped(alloc, run, &cell)?);
    }
    let mut text = results_text(alloc, run, &finished.outcomes)?;
    let tail = tail_of(alloc, run, &finished.order, traced)?;
    text.extend_from_slice(&tail)?;
    Ok(text)
}

/// The summaries of matrices, which all begin with this name.
fn summaries(alloc: Global, name: &str, matrices: &[Matrix]) -> Result<Vec<u8>, AllocError>
    ensures { IfOk result (λ text. text.items ≡ flat_map (summary_text name.now) matrices.now) }
{
    let mut text = Vec::new(alloc);
    for matrix in matrices {
        text.extend_from_slice(&summary(alloc, name, matrix)?)?;
    }
    Ok(text)
}

/// What a run comes to whose matrices are summarized: a line on each of them, which begins with this name; or the line of its first
/// trapped cell.
pub fn summarize(
    alloc: Global,
    run: &Run<'_>,
    outcomes: &Outcomes,
    name: &str,
) -> Result<Vec<u8>, Stop>
    requires { outcomes.now ≡ (run_plan run.now).solution }
    ensures { Replies (Summarizes name.now (fitting_of run.now)) result }
{
    if let Some(cell) = first_trapped(run, outcomes) {
        return Err(trapped(alloc, run, &cell)?);
    }
    let matrices = result_matrices(alloc, run, outcomes)?;
    Ok(summaries(alloc, name, &matrices)?)
}
