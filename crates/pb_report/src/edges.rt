ghost use Rattle.std.specs.Prelude.{◌≡◌, ◌≤◌, ◌++◌, Bool, IfOk, OnOk, length, map, slice_get};
ghost use Rattle.std.specs.List.{flat_map};
ghost use Rattle.pb_program.specs.Trees.{bare_transform};
ghost use Rattle.pb_report.specs.Report.{axes_text, edge_line, has_plane, is_plane, label_of, label_text, mark_text, marks_text};

use crate::sets::write_rules;
use pb_graph::{Edge, Node};
use pb_lines::write_segment;
use pb_program::Transform;
use std::alloc::{AllocError, Global};
use std::marker::Model;

/// What the line of an edge says of a segment, kept since many edges name it: its text, and whether its matrix has two
/// dimensions.
#[derive(Drop)]
struct Label {
    text: Vec<u8>,
    plane: bool,
}

impl Model for Label {
    ghost use Rattle.pb_report.specs.Report.{LabelValue};

    ghost Value = { LabelValue };

    ghost view = { λ l. record { text = l.text.items; plane = l.plane } };
}

/// Whether the matrix of this number is there and has two dimensions.
fn has_plane(transform: &Transform, matrix: u32) -> bool
    ensures { result ≡ has_plane (slice_get transform.now.matrices matrix) }
{
    match transform.matrices.get(matrix as usize) {
        Some(matrix) => matrix.dims == 2,
        None => false,
    }
}

fn label_of(alloc: Global, transform: &Transform, node: &Node) -> Result<Label, AllocError>
    requires few { length transform.now.sizes ≤ 8 }
    ensures { IfOk result (λ label. label ≡ label_of (bare_transform transform.now) node.now) }
{
    let mut text = Vec::new(alloc);
    write_segment(alloc, &mut text, transform, node)?;
    Ok(Label {
        text,
        plane: has_plane(transform, node.matrix),
    })
}

/// The labels of all segments.
fn labels(alloc: Global, transform: &Transform, nodes: &[Node]) -> Result<Vec<Label>, AllocError>
    requires few { length transform.now.sizes ≤ 8 }
    ensures { IfOk result (λ labels. labels.items ≡ map (label_of (bare_transform transform.now)) nodes.now) }
{
    let mut labels = Vec::new(alloc);
    for node in nodes {
        labels.push(label_of(alloc, transform, node)?)?;
    }
    Ok(labels)
}

/// The text of a segment, if there is one with this number.
fn write_label(text: &mut Vec<u8>, labels: &[Label], segment: u32) -> Result<(), AllocError>
    ensures { OnOk result (text.new.items ≡ text.old.items ++ label_text (slice_get labels.now segment)) }
{
    match labels.get(segment as usize) {
        Some(label) => text.extend_from_slice(&label.text),
        None => Ok(()),
    }
}

/// Whether the matrix of a segment has two dimensions.
fn is_plane(labels: &[Label], segment: u32) -> bool
    ensures { result ≡ is_plane (slice_get labels.now segment) }
{
    match labels.get(segment as usize) {
        Some(label) => label.plane,
        None => false,
    }
}

fn mark_text(mark: u8) -> &'static [u8]
    ensures { result.now ≡ mark_text mark }
{
    match mark {
        0 => b"=",
        1 => b"<",
        2 => b">",
        3 => b"<=",
        4 => b">=",
        _ => b"*",
    }
}

/// The marks of the axes: of x, and of y where there are two dimensions.
fn write_axes(text: &mut Vec<u8>, plane: bool, edge: &Edge) -> Result<(), AllocError>
    ensures { OnOk result (text.new.items ≡ text.old.items ++ axes_text plane edge.now.mark_x edge.now.mark_y) }
{
    text.extend_from_slice(b" x")?;
    text.extend_from_slice(mark_text(edge.mark_x))?;
    if !plane {
        return Ok(());
    }
    text.extend_from_slice(b" y")?;
    text.extend_from_slice(mark_text(edge.mark_y))
}

/// The marks of an edge, or `wide`.
fn write_marks(text: &mut Vec<u8>, plane: bool, edge: &Edge) -> Result<(), AllocError>
    ensures { OnOk result (text.new.items ≡ text.old.items ++ marks_text plane edge.now) }
{
    if edge.wide {
        return text.extend_from_slice(b" wide");
    }
    write_axes(text, plane, edge)
}

/// The line of an edge.
fn write_edge(text: &mut Vec<u8>, labels: &[Label], edge: &Edge) -> Result<(), AllocError>
    ensures { OnOk result (text.new.items ≡ text.old.items ++ edge_line labels.now edge.now) }
{
    let plane = is_plane(labels, edge.reader) || is_plane(labels, edge.source);
    text.extend_from_slice(b"edge ")?;
    write_label(text, labels, edge.reader)?;
    text.extend_from_slice(b" to ")?;
    write_label(text, labels, edge.source)?;
    write_rules(text, &edge.rules)?;
    write_marks(text, plane, edge)?;
    text.extend_from_slice(b"\n")
}

/// The lines of all edges.
pub(crate) fn write_edges(
    alloc: Global,
    text: &mut Vec<u8>,
    transform: &Transform,
    nodes: &[Node],
    edges: &[Edge],
) -> Result<(), AllocError>
    requires few { length transform.now.sizes ≤ 8 }
    ensures { OnOk result (text.new.items ≡ text.old.items ++ flat_map (edge_line (map (label_of (bare_transform transform.now)) nodes.now)) edges.now) }
{
    let labels = labels(alloc, transform, nodes)?;
    for edge in edges {
        write_edge(text, &labels, edge)?;
    }
    Ok(())
}
