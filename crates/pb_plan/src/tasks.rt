ghost use Rattle.std.specs.Prelude.{◌≡◌, IfOk};
ghost use Rattle.std.specs.List.{All, AllZip};
ghost use Rattle.pb_linear.specs.Sizes.{sizes_of};
ghost use Rattle.pb_program.specs.Trees.{bare_transform};
ghost use Rattle.pb_frame.specs.Frames.{JobValue};
ghost use Rattle.pb_plan.specs.Tasks.{AreLinks, AreTasks, IsPartFor, LiesInView, kind_for};

use pb_frame::{FramePart, FrameTasks, Job};
use pb_graph::Node;
use pb_links::Links;
use pb_program::Transform;
use pb_taskgraph::{Part, Task, TaskKind};
use pb_values::{Name, View};
use std::alloc::{AllocError, Global};

fn copy_of(alloc: Global, name: &Name) -> Result<Name, AllocError>
    ensures { IfOk result (λ copy. copy ≡ name.now) }
{
    Ok(Name::new(name.bytes().to_vec(alloc)?, name.at()))
}

/// The cells of a part, with the name of their matrix.
fn part_for(
    alloc: Global,
    transform: &Transform,
    nodes: &[Node],
    views: &[View],
    part: &FramePart,
) -> Result<Part, AllocError>
    requires { LiesInView (bare_transform transform.now) nodes.now views.now part.now }
    ensures { IfOk result (λ found. IsPartFor (bare_transform transform.now) nodes.now views.now part.now found) }
{
    let node = &nodes[part.node as usize];
    let decl = &transform.matrices[node.matrix as usize];
    Ok(Part {
        name: copy_of(alloc, &decl.name)?,
        rect: part.rect,
        view: views[node.matrix as usize].region(&part.rect),
    })
}

fn parts_for(
    alloc: Global,
    transform: &Transform,
    nodes: &[Node],
    views: &[View],
    parts: &[FramePart],
) -> Result<Vec<Part>, AllocError>
    requires { All (LiesInView (bare_transform transform.now) nodes.now views.now) parts.now }
    ensures { IfOk result (λ found. AllZip (IsPartFor (bare_transform transform.now) nodes.now views.now) parts.now found.items) }
{
    let mut found = Vec::new(alloc);
    for part in parts {
        found.push(part_for(alloc, transform, nodes, views, part)?)?;
    }
    Ok(found)
}

/// Whether a job is a block or all that a rule makes.
fn kind_for(job: &Job) -> TaskKind
    ensures { result ≡ kind_for job.now.rule }
{
    match job.rule {
        None => TaskKind::Block,
        Some(_) => TaskKind::Wide,
    }
}

/// The task of a job with these links.
fn task_for(
    alloc: Global,
    transform: &Transform,
    nodes: &[Node],
    views: &[View],
    job: &Job,
    before: Vec<u32>,
    after: Vec<u32>,
) -> Result<Task, AllocError>
    requires { All (LiesInView (bare_transform transform.now) nodes.now views.now) job.now.parts }
    ensures call { IfOk result (λ task. task.call ≡ 0) }
    ensures kind { IfOk result (λ task. task.kind ≡ kind_for job.now.rule) }
    ensures parts { IfOk result (λ task. AllZip (IsPartFor (bare_transform transform.now) nodes.now views.now) job.now.parts task.parts) }
    ensures before { IfOk result (λ task. task.before ≡ before.items) }
    ensures after { IfOk result (λ task. task.after ≡ after.items) }
{
    Ok(Task {
        call: 0,
        kind: kind_for(job),
        parts: parts_for(alloc, transform, nodes, views, &job.parts)?,
        before,
        after,
    })
}

/// The tasks of an instance, one for each job, with their links.
pub(crate) fn tasks_for(
    alloc: Global,
    transform: &Transform,
    nodes: &[Node],
    frame: &FrameTasks,
    views: &[View],
    links: Links,
) -> Result<Vec<Task>, AllocError>
    requires parts { All (λ (job : JobValue). All (LiesInView (bare_transform transform.now) nodes.now views.now) job.parts) frame.now.jobs }
    requires links { AreLinks (bare_transform transform.now) nodes.now (sizes_of frame.now.sizes) frame.now.jobs links }
    ensures { IfOk result (λ tasks. AreTasks (bare_transform transform.now) nodes.now (sizes_of frame.now.sizes) views.now frame.now.jobs tasks.items) }
{
    let jobs = &frame.jobs;
    let mut tasks = Vec::new(alloc);
    for ((job, before), after) in jobs.iter().zip(links.before).zip(links.after) {
        tasks.push(task_for(alloc, transform, nodes, views, job, before.list, after.list)?)?;
    }
    Ok(tasks)
}
