ghost use Rattle.std.specs.Prelude.{◌≡◌, ◌⊎◌, ◌≤◌, IfErr, IfOk};
ghost use Rattle.std.specs.List.{All};
ghost use Rattle.pb_linear.specs.Sizes.{InRange, leasts_of, sizes_of};
ghost use Rattle.pb_program.specs.Configs.{IsValid};
ghost use Rattle.pb_program.specs.Trees.{bare_prog, bare_transform};
ghost use Rattle.pb_check.specs.Ranked.{OfTransform};
ghost use Rattle.pb_views.specs.Layouts.{HasShortSides, cell_count};
ghost use Rattle.pb_plan.specs.Laid.{HasRoom};
ghost use Rattle.pb_plan.specs.Planned.{IsPlanned, IsReady, IsTooLarge, IsTooMany};
ghost use Rattle.pb_plan.specs.Tasks.{AreTasks, IsWithinLimits, graph_of};
ghost use Rattle.pb_plan.specs.declared.refusal.PlanRefusal.TheVariants.{Memory};

use crate::laid::{Laid, instance};
use crate::refusal::PlanRefusal;
use crate::tasks::tasks_for;
use pb_check::Accepted;
use pb_frame::FrameTasks;
use pb_graph::Node;
use pb_linear::{SIZE_TOP, Sizes};
use pb_links::{Places, links};
use pb_program::{Config, Decl, Transform};
use pb_taskgraph::{MOST_CELLS, MOST_LINKS, MOST_TASKS, TaskGraph};
use pb_values::View;
use pb_views::shape_of;
use std::alloc::Global;
use std::marker::Model;

/// An instance of a transform that is laid out, and the graph of its tasks.
#[derive(Drop)]
pub struct Planned {
    pub laid: Laid,
    pub graph: TaskGraph,
}

impl Model for Planned {
    ghost use Rattle.pb_plan.specs.Planned.{PlannedValue};

    ghost Value = { PlannedValue };

    ghost view = { λ p. record { laid = p.laid; graph = p.graph } };
}

/// How many cells matrices have.
fn cell_count(decls: &[Decl], s: &Sizes) -> u64
    requires sizes { All (λ size. size ≤ SIZE_TOP) s.now.of }
    requires sides { All (HasShortSides (sizes_of s.now)) decls.now }
    requires cells { cell_count (sizes_of s.now) decls.now ≤ MOST_CELLS }
    ensures { result ≡ cell_count (sizes_of s.now) decls.now }
{
    let mut count = 0;
    for decl in decls {
        count += shape_of(decl, s).cells();
    }
    count
}

/// The graph of the tasks of an instance. How many there are is asked before links are looked for.
fn graph_of(
    alloc: Global,
    transform: &Transform,
    nodes: &[Node],
    frame: &FrameTasks,
    views: &[View],
    places: &[Places],
) -> Result<TaskGraph, PlanRefusal>
    requires ready { IsReady (bare_transform transform.now) nodes.now frame.now views.now places.now }
    ensures tasks { IfOk result (λ graph. AreTasks (bare_transform transform.now) nodes.now (sizes_of frame.now.sizes) views.now frame.now.jobs graph.tasks) }
    ensures graph { IfOk result (λ graph. graph ≡ graph_of (bare_transform transform.now) (sizes_of frame.now.sizes) graph.tasks) }
    ensures within { IfOk result (λ graph. IsWithinLimits (bare_transform transform.now) nodes.now (sizes_of frame.now.sizes) frame.now.jobs) }
    ensures refused { IfErr result (λ e. (e ≡ Memory) ⊎ IsTooMany frame.now.jobs places.now e) }
{
    if frame.jobs.len() > MOST_TASKS {
        return Err(PlanRefusal::Tasks);
    }
    let matrices = &transform.matrices;
    let given = &matrices[..transform.inputs as usize];
    let links = links(alloc, matrices.len() as u32, places, MOST_LINKS)?;
    let tasks = tasks_for(alloc, transform, nodes, frame, views, links)?;
    let inputs = cell_count(given, &frame.sizes);
    let cells = cell_count(matrices, &frame.sizes);
    Ok(TaskGraph::new(alloc, inputs, cells, tasks)?)
}

/// Lays out an instance of transform `t` as `instance` does, and makes the graph of its tasks. It is refused where there are
/// more tasks than `MOST_TASKS`, before their links are looked for; or more links than `MOST_LINKS`.
pub fn plan(
    alloc: Global,
    a: &Accepted,
    c: &Config,
    t: u32,
    s: &Sizes,
    grain: u64,
) -> Result<Planned, PlanRefusal>
    requires valid { IsValid (bare_prog a.now.program) c.now }
    requires sizes { OfTransform a.now t (λ transform found. InRange (leasts_of transform.ranges) (sizes_of s.now)) }
    requires room { OfTransform a.now t (λ transform found. HasRoom (sizes_of s.now) transform) }
    ensures found { IfOk result (λ p. OfTransform a.now t (λ transform found. IsPlanned c.now t s.now grain transform found p)) }
    ensures refused { IfErr result (λ e. (e ≡ Memory) ⊎ OfTransform a.now t (λ transform found. IsTooLarge c.now t s.now grain transform found e)) }
{
    let Laid {
        frame,
        views,
        places,
    } = instance(alloc, a, c, t, s, grain)?;
    let transform = &a.prog().transforms[t as usize];
    let nodes = a.analyses()[t as usize].nodes();
    let graph = graph_of(alloc, transform, nodes, &frame, &views, &places)?;
    let laid = Laid {
        frame,
        views,
        places,
    };
    Ok(Planned { laid, graph })
}
