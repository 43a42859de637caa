ghost use Rattle.std.specs.Prelude.{◌≡◌, ◌≤◌, ◌++◌, OnOk, length, slice_get};
ghost use Rattle.std.specs.List.{flat_map};
ghost use Rattle.pb_program.specs.Trees.{bare_transform};
ghost use Rattle.pb_lines.specs.Lines.{decl_text};
ghost use Rattle.pb_report.specs.Report.{site_line, transform_line, transform_report};

use crate::edges::write_edges;
use crate::segments::write_segments;
use crate::sets::write_set;
use pb_graph::{Layering, Node};
use pb_program::{Site, Transform};
use std::alloc::{AllocError, Global};

/// The line of a transform.
fn write_name(text: &mut Vec<u8>, transform: &Transform) -> Result<(), AllocError>
    ensures { OnOk result (text.new.items ≡ text.old.items ++ transform_line (bare_transform transform.now)) }
{
    text.extend_from_slice(b"transform ")?;
    text.extend_from_slice(transform.name.bytes())?;
    text.extend_from_slice(b"\n")
}

/// The name of a matrix, if there is one with this number, after a point.
fn write_matrix(text: &mut Vec<u8>, transform: &Transform, matrix: u32) -> Result<(), AllocError>
    ensures { OnOk result (text.new.items ≡ text.old.items ++ decl_text (slice_get transform.now.matrices matrix)) }
{
    let Some(matrix) = transform.matrices.get(matrix as usize) else {
        return Ok(());
    };
    text.extend_from_slice(b".")?;
    text.extend_from_slice(matrix.name.bytes())
}

/// The line of a site.
fn write_site(text: &mut Vec<u8>, transform: &Transform, site: &Site) -> Result<(), AllocError>
    ensures { OnOk result (text.new.items ≡ text.old.items ++ site_line (bare_transform transform.now) site.now) }
{
    text.extend_from_slice(b"site ")?;
    text.extend_from_slice(transform.name.bytes())?;
    write_matrix(text, transform, site.matrix)?;
    text.extend_from_slice(b" ")?;
    write_set(text, &site.set)?;
    text.extend_from_slice(b"\n")
}

/// The lines of all sites.
fn write_sites(text: &mut Vec<u8>, transform: &Transform, sites: &[Site]) -> Result<(), AllocError>
    ensures { OnOk result (text.new.items ≡ text.old.items ++ flat_map (site_line (bare_transform transform.now)) sites.now) }
{
    for site in sites {
        write_site(text, transform, site)?;
    }
    Ok(())
}

/// Adds the report of a transform: a line for the transform, one for each of its segments, for each edge, by which a segment reads
/// another, and for each of the sites, which are its own. What isn't there by its number prints nothing. The transform has at most 8
/// size variables.
pub fn write_transform(
    alloc: Global,
    text: &mut Vec<u8>,
    transform: &Transform,
    nodes: &[Node],
    order: &Layering,
    sites: &[Site],
) -> Result<(), AllocError>
    requires few { length transform.now.sizes ≤ 8 }
    ensures report { OnOk result (text.new.items ≡ text.old.items ++ transform_report (bare_transform transform.now) nodes.now order.now sites.now) }
{
    write_name(text, transform)?;
    write_segments(alloc, text, transform, nodes, order)?;
    write_edges(alloc, text, transform, nodes, &order.edges)?;
    write_sites(text, transform, sites)
}
