ghost use Rattle.std.specs.Prelude.{◌≡◌, ◌≤◌, ◌++◌, OnOk, length, slice_get};
ghost use Rattle.std.specs.List.{enumerate_from, flat_map};
ghost use Rattle.pb_program.specs.Trees.{bare_transform};
ghost use Rattle.pb_report.specs.Report.{direction_at, direction_text, layer_at, layer_text, segment_line, step_text};

use crate::sets::{write_numbered, write_rules};
use pb_graph::{Layer, Layering, Node, Sign, Step};
use pb_lines::{write_axis, write_segment};
use pb_program::Transform;
use std::alloc::{AllocError, Global};

/// A step along an axis.
fn write_step(text: &mut Vec<u8>, step: &Step) -> Result<(), AllocError>
    ensures { OnOk result (text.new.items ≡ text.old.items ++ step_text step.now) }
{
    text.extend_from_slice(b" ")?;
    write_axis(text, step.axis)?;
    match step.sign {
        Sign::Plus => text.extend_from_slice(b"+"),
        Sign::Minus => text.extend_from_slice(b"-"),
    }
}

/// Steps, in their order.
fn write_steps(text: &mut Vec<u8>, steps: &[Step]) -> Result<(), AllocError>
    ensures { OnOk result (text.new.items ≡ text.old.items ++ flat_map step_text steps.now) }
{
    for step in steps {
        write_step(text, step)?;
    }
    Ok(())
}

/// The direction of a layer, if its segments read each other.
fn write_direction(text: &mut Vec<u8>, layer: &Layer) -> Result<(), AllocError>
    ensures { OnOk result (text.new.items ≡ text.old.items ++ direction_text layer.now) }
{
    if !layer.inner {
        return Ok(());
    }
    text.extend_from_slice(b" direction")?;
    write_steps(text, &layer.steps)
}

/// The direction of the layer with this number, if there is one.
fn write_direction_at(text: &mut Vec<u8>, layers: &[Layer], place: u32) -> Result<(), AllocError>
    ensures { OnOk result (text.new.items ≡ text.old.items ++ direction_at (slice_get layers.now place)) }
{
    match layers.get(place as usize) {
        Some(layer) => write_direction(text, layer),
        None => Ok(()),
    }
}

/// A layer by its number.
fn write_layer(text: &mut Vec<u8>, layers: &[Layer], place: u32) -> Result<(), AllocError>
    ensures { OnOk result (text.new.items ≡ text.old.items ++ layer_text layers.now place) }
{
    write_numbered(text, b" layer ", place)?;
    write_direction_at(text, layers, place)
}

/// The layer of a segment, if it has one.
fn write_layer_at(text: &mut Vec<u8>, order: &Layering, segment: usize) -> Result<(), AllocError>
    ensures { OnOk result (text.new.items ≡ text.old.items ++ layer_at order.now.layers (slice_get order.now.layer segment)) }
{
    match order.layer.get(segment) {
        Some(place) => write_layer(text, &order.layers, *place),
        None => Ok(()),
    }
}

/// The line of a segment.
fn write_segment_line(
    alloc: Global,
    text: &mut Vec<u8>,
    transform: &Transform,
    order: &Layering,
    segment: usize,
    node: &Node,
) -> Result<(), AllocError>
    requires few { length transform.now.sizes ≤ 8 }
    ensures { OnOk result (text.new.items ≡ text.old.items ++ segment_line (bare_transform transform.now) order.now (segment, node.now)) }
{
    text.extend_from_slice(b"segment ")?;
    write_segment(alloc, text, transform, node)?;
    write_rules(text, &node.rules)?;
    write_layer_at(text, order, segment)?;
    text.extend_from_slice(b"\n")
}

/// The lines of all segments.
pub(crate) fn write_segments(
    alloc: Global,
    text: &mut Vec<u8>,
    transform: &Transform,
    nodes: &[Node],
    order: &Layering,
) -> Result<(), AllocError>
    requires few { length transform.now.sizes ≤ 8 }
    ensures { OnOk result (text.new.items ≡ text.old.items ++ flat_map (segment_line (bare_transform transform.now) order.now) (enumerate_from 0 nodes.now)) }
{
    for (segment, node) in nodes.iter().enumerate() {
        write_segment_line(alloc, text, transform, order, segment, node)?;
    }
    Ok(())
}
