ghost use Rattle.std.specs.Prelude.{◌≡◌, ◌<◌, ◌^◌, List, IfOk, OnOk, length, map};
ghost use Rattle.pb_check.specs.Orders.{AnalysisValue};
ghost use Rattle.pb_frame.specs.Frames.{JobValue};
ghost use Rattle.pb_plan.specs.Boxes.{HasNodes, whole_box};
ghost use Rattle.pb_program.specs.Trees.{ProgTransform};
ghost use Rattle.pb_program.specs.declared.view.Read.{Read};
ghost use Rattle.pb_counts.specs.Handed.{Instance as RunInstance};
ghost use Rattle.pb_counts.specs.Handed.{copies_of, copy_step};
ghost use Rattle.pb_steps.specs.Stands.{Appends, IsJobAt, common_parts, is_common};
ghost use Rattle.pb_steps.specs.Values.{InstanceValue};

use crate::names::Names;
use crate::step::{Copied, Step};
use pb_frame::{FramePart, cut_by, has_place};
use pb_graph::Node;
use pb_links::Spot;
use pb_program::Slot;
use pb_values::Rect;
use std::alloc::{AllocError, Global};

/// Whether a part has a place of a rectangle of a matrix.
fn is_common(nodes: &[Node], matrix: u32, rect: &Rect, part: &FramePart) -> bool
    requires { part.now.node < length nodes.now }
    ensures { result ≡ is_common nodes.now matrix rect.now part.now }
{
    let node = &nodes[part.node as usize];
    node.matrix == matrix && has_place(&cut_by(rect, &part.rect))
}

/// Of some parts, what they have of a rectangle of a matrix.
fn common_parts(
    alloc: Global,
    nodes: &[Node],
    matrix: u32,
    rect: &Rect,
    parts: &[FramePart],
) -> Result<Vec<FramePart>, AllocError>
    requires { HasNodes nodes.now parts.now }
    ensures { IfOk result (λ found. found.items ≡ common_parts nodes.now matrix rect.now parts.now) }
{
    let mut found = Vec::new(alloc);
    for part in parts {
        if is_common(nodes, matrix, rect, part) {
            found.push(FramePart {
                node: part.node,
                rect: cut_by(rect, &part.rect),
                rule: part.rule,
            })?;
        }
    }
    Ok(found)
}

/// Adds the copy of some parts, unless there are none.
fn add_copy(steps: &mut Vec<Step>, copied: Copied) -> Result<(), AllocError>
    ensures { OnOk result ((p : List ProgTransform) (found : List AnalysisValue) (instances : List InstanceValue) (i : RunInstance) (job : JobValue) → IsJobAt p found instances copied.instance copied.job i job
        → Appends p found instances steps.old.items steps.new.items (copy_step i job copied.source copied.corner copied.parts)) }
{
    if copied.parts.len() > 0 {
        steps.push(Step::Copy(copied))?;
    }
    Ok(())
}

/// Adds the copies of a plan's outputs, which are these rectangles of matrices of its instance: of the parts of its job, what they have of
/// each output, from where the matrix stands that has the output's name. The job is the one with this number of the instance with this number.
pub(crate) fn add_copies(
    alloc: Global,
    steps: &mut Vec<Step>,
    nodes: &[Node],
    outs: &[Spot],
    parts: &[FramePart],
    names: &Names,
    instance: u32,
    job: u32,
) -> Result<(), AllocError>
    requires nodes { HasNodes nodes.now parts.now }
    requires few { length outs.now < 2 ^ 32 }
    ensures { OnOk result ((p : List ProgTransform) (found : List AnalysisValue) (instances : List InstanceValue) (i : RunInstance) (j : JobValue) (views : List Read) → IsJobAt p found instances instance job i j
        → i.found.nodes ≡ nodes.now → j.parts ≡ parts.now → outs.now ≡ map (whole_box i.transform.matrices i.sizes) views
        → Appends p found instances steps.old.items steps.new.items (copies_of i j names.now 0 views)) }
{
    for k in 0..outs.len() {
        let out = &outs[k];
        let rect = &out.rect;
        add_copy(
            steps,
            Copied {
                instance,
                job,
                parts: common_parts(alloc, nodes, out.base, rect, parts)?,
                corner: (rect.x0, rect.y0),
                source: names.named(Slot::Out(k as u32)),
            },
        )?;
    }
    Ok(())
}
