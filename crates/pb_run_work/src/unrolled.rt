ghost use Rattle.std.specs.Prelude.{◌≡◌, ◌≤◌, ◌⊎◌, IfErr, IfOk, Some, length, map, slice_get};
ghost use Rattle.std.specs.List.{All};
ghost use Rattle.pb_program.specs.Configs.{IsValid};
ghost use Rattle.pb_program.specs.Trees.{bare_prog};
ghost use Rattle.pb_region.specs.Dims.{HasTransform};
ghost use Rattle.pb_entry.specs.declared.refusal.RunRefusal.TheVariants.{Memory};
ghost use Rattle.pb_recursion.specs.Depths.{sides_of_matrix};
ghost use Rattle.pb_steps.specs.Handed.{total};
ghost use Rattle.pb_run_graph.specs.Linking.{IsTooMany};
ghost use Rattle.pb_taskgraph.specs.declared.limits.TheConstants.{MOST_CELLS};
ghost use Rattle.pb_run_work.specs.Given.{IsWhole, given_as};
ghost use Rattle.pb_run_work.specs.Holding.{AreFitted, CanBegin, IsShort};
ghost use Rattle.pb_run_work.specs.Limits.{run_steps};
ghost use Rattle.pb_run_work.specs.Running.{IsBegun};
ghost use Rattle.pb_run_work.specs.Unrolled.{IsRefused, IsUnrolled};

use crate::pieces::all_pieces;
use crate::run::Run;
use crate::sights::sights_of;
use pb_check::Accepted;
use pb_entry::{RunRefusal, bind_sizes};
use pb_linear::Sizes;
use pb_matrix::Matrix;
use pb_program::{Config, Transform};
use pb_recursion::given_matrices_can_enter;
use pb_run_graph::graph_of;
use pb_steps::{Unrolled, check_counts, unroll as unroll_steps};
use pb_taskgraph::TaskGraph;
use pb_views::lay_out;
use std::alloc::{AllocError, Global};

/// The sides of matrices.
fn sides_of(alloc: Global, inputs: &[Matrix]) -> Result<Vec<(i64, i64)>, AllocError>
    requires { All IsShort inputs.now }
    ensures { IfOk result (λ sides. sides.items ≡ map sides_of_matrix (given_as inputs.now)) }
{
    let mut sides = Vec::new(alloc);
    for matrix in inputs {
        let shape = matrix.shape;
        sides.push((shape.w as i64, shape.h as i64))?;
    }
    Ok(sides)
}

/// How many cells matrices have.
fn count_cells(inputs: &[Matrix]) -> u64
    requires { total (given_as inputs.now) ≤ MOST_CELLS }
    ensures { result ≡ total (given_as inputs.now) }
{
    let mut cells = 0;
    for matrix in inputs {
        cells += matrix.cells.len() as u64;
    }
    cells
}

/// The steps of a run, and the graph of their tasks.
fn begin(
    alloc: Global,
    a: &Accepted,
    c: &Config,
    t: u32,
    inputs: &[Matrix],
    depth: u32,
    grain: u64,
) -> Result<(Unrolled, TaskGraph), RunRefusal>
    requires { CanBegin a.now c.now grain depth t (given_as inputs.now) }
    ensures found { IfOk result (λ r. IsBegun a.now c.now grain depth t (given_as inputs.now) r.0 r.1) }
    ensures refused { IfErr result (λ e. (e ≡ Memory) ⊎ IsTooMany (run_steps (bare_prog a.now.program) a.now.found c.now grain depth t (given_as inputs.now)) e) }
{
    let sides = sides_of(alloc, inputs)?;
    let unrolled = unroll_steps(alloc, a, c, depth, t, &sides, grain)?;
    let graph = graph_of(alloc, a, &unrolled, count_cells(inputs))?;
    Ok((unrolled, graph))
}

/// The run of transform `t` by its steps and the graph of their tasks, with what its tasks need.
fn run_of<'a>(
    alloc: Global,
    a: &'a Accepted,
    c: &'a Config,
    t: u32,
    transform: &'a Transform,
    inputs: Vec<Matrix>,
    s: Sizes,
    depth: u32,
    grain: u64,
    unrolled: Unrolled,
    graph: TaskGraph,
) -> Result<Run<'a>, AllocError>
    requires there { slice_get a.now.program.transforms t ≡ Some transform.now }
    requires fitted { AreFitted a.now t inputs.items s }
    requires begun { IsBegun a.now c.now grain depth t (given_as inputs.items) unrolled graph }
    ensures { IfOk result (IsUnrolled a.now c.now t inputs.items depth grain) }
{
    let views = lay_out(alloc, &transform.matrices, &s, 0)?;
    let sights = sights_of(alloc, a, &unrolled.instances)?;
    let (pieces, rooms) = all_pieces(alloc, a, &unrolled.instances, &unrolled.steps)?;
    Ok(Run {
        accepted: a,
        config: c,
        grain,
        depth,
        number: t,
        transform,
        sizes: s,
        inputs,
        views,
        unrolled,
        graph,
        sights,
        pieces,
        rooms,
    })
}

/// The run of transform `t` with these matrices, as many as it takes, where a valid configuration chooses and plans may call `depth`
/// deep. `grain` is the least side of a block.
///
/// Refuses the first matrix with another number of dimensions; then the first size out of range; then the first side that
/// differs from its form; then the first of these that passes its limit: the calls, a side, the cells, the tasks, the links.
pub fn unroll<'a>(
    alloc: Global,
    a: &'a Accepted,
    c: &'a Config,
    t: u32,
    inputs: Vec<Matrix>,
    depth: u32,
    grain: u64,
) -> Result<Run<'a>, RunRefusal>
    requires valid { IsValid (bare_prog a.now.program) c.now }
    requires count { HasTransform (bare_prog a.now.program) t (λ transform. length inputs.items ≡ transform.inputs) }
    requires whole { All IsWhole inputs.items }
    ensures found { IfOk result (IsUnrolled a.now c.now t inputs.items depth grain) }
    ensures refused { IfErr result (λ e. (e ≡ Memory) ⊎ IsRefused a.now c.now t inputs.items depth grain e) }
{
    given_matrices_can_enter();
    let transform = &a.prog().transforms[t as usize];
    let s = bind_sizes(a, t, &inputs)?;
    check_counts(alloc, a, c, depth, t, &s)?;
    let (unrolled, graph) = begin(alloc, a, c, t, &inputs, depth, grain)?;
    Ok(run_of(
        alloc, a, c, t, transform, inputs, s, depth, grain, unrolled, graph,
    )?)
}
