ghost use Rattle.std.specs.Prelude.{◌≡◌, ◌<◌, ◌^◌, ◌&&◌, ℕ, false, IfErr, IfOk, IfSome, List, length, map, slice_index_or};
ghost use Rattle.std.specs.List.{All};
ghost use Rattle.pb_linear.specs.Sizes.{IsRanges, leasts_of};
ghost use Rattle.pb_graph.specs.Cached.{AreFirsts, AreRows, AreRowsOf, IsRow, IsSpan, both, near_on, part};
ghost use Rattle.pb_graph.specs.Nodes.{NodeValue};
ghost use Rattle.pb_graph.specs.Rows.{may_touch, row};
ghost use Rattle.pb_graph.specs.Small.{IsSmallArea, IsSmallRead};
ghost use Rattle.pb_graph.specs.declared.refusal.GraphRefusal.TheVariants.{Memory};

use crate::alike::{are_alike, firsts};
use crate::joining::makes;
use crate::node::Node;
use crate::refusal::GraphRefusal;
use crate::standing::are_apart;
use pb_linear::{Ranges, ReadBox, SymBox};
use std::alloc::Global;
use std::marker::Model;

/// An area, and for each segment whether a cell of the area may read a cell of it on an axis.
#[derive(Drop)]
pub(crate) struct Row {
    pub(crate) area: SymBox,
    pub(crate) near: Vec<bool>,
}

impl Model for Row {
    ghost use Rattle.pb_graph.specs.Cached.{RowValue};

    ghost Value = { RowValue };

    ghost view = { λ r. record { area = r.area; near = r.near.items } };
}

/// The rows of a read on both axes, over the segments from `first` to before `end`: all of the matrix that is read.
#[derive(Drop)]
pub(crate) struct Rows {
    pub(crate) first: usize,
    pub(crate) end: usize,
    pub(crate) x: Vec<Row>,
    pub(crate) y: Vec<Row>,
}

impl Model for Rows {
    ghost use Rattle.pb_graph.specs.Cached.{RowsValue};

    ghost Value = { RowsValue };

    ghost view = { λ r. record { first = r.first; end = r.end; x = r.x.items; y = r.y.items } };
}

/// Whether a cell of an area may read a cell of a segment on an axis.
fn is_near(ranges: &Ranges, read: &ReadBox, axis: u8, area: &SymBox, source: &Node) -> bool
    requires ranges { IsRanges ranges.now }
    requires area { IsSmallArea area.now }
    requires source { IsSmallArea source.now.area }
    requires read { IsSmallRead read.now }
    ensures { result ≡ near_on (leasts_of ranges.now) read.now axis area.now source.now }
{
    read.matrix == source.matrix && !are_apart(ranges, area, read, &source.area, axis)
}

/// For each segment whether it may, tested once for segments with the same ends.
fn near_row(
    alloc: Global,
    nodes: &[Node],
    ranges: &Ranges,
    firsts: &[u32],
    read: &ReadBox,
    axis: u8,
    area: &SymBox,
) -> Result<Vec<bool>, GraphRefusal>
    requires ranges { IsRanges ranges.now }
    requires areas { All (λ n. IsSmallArea n.area) nodes.now }
    requires room { length firsts.now ≡ length nodes.now }
    requires firsts { AreFirsts axis nodes.now firsts.now }
    requires area { IsSmallArea area.now }
    requires read { IsSmallRead read.now }
    ensures found { IfOk result (λ bs. bs.items ≡ map (near_on (leasts_of ranges.now) read.now axis area.now) nodes.now) }
    ensures refused { IfErr result (λ e. e ≡ Memory) }
{
    let mut row = Vec::new(alloc);
    for (number, source) in nodes.iter().enumerate() {
        let first = firsts[number] as usize;
        if first < number {
            let near = row[first];
            row.push(near)?;
            continue;
        }
        row.push(is_near(ranges, read, axis, area, source))?;
    }
    Ok(row)
}

/// The tests of a read on an axis for an area that it shows the same, if they are known.
fn find_row<'a>(rows: &'a [Row], read: &ReadBox, axis: u8, area: &SymBox) -> Option<&'a [bool]>
    ensures { (leasts : List ℕ) (nodes : List NodeValue) → All (IsRow leasts nodes read.now axis) rows.now → IfSome result (λ near. near.now ≡ map (near_on leasts read.now axis area.now) nodes) }
{
    for row in rows {
        if are_alike(read, axis, &row.area, area) {
            return Some(&row.near);
        }
    }
    None
}

/// The tests of a read on an axis for the segments of its rule.
fn axis_rows(
    alloc: Global,
    nodes: &[Node],
    sources: &[Node],
    ranges: &Ranges,
    firsts: &[u32],
    read: &ReadBox,
    axis: u8,
) -> Result<Vec<Row>, GraphRefusal>
    requires ranges { IsRanges ranges.now }
    requires areas { All (λ n. IsSmallArea n.area) nodes.now }
    requires sources { All (λ n. IsSmallArea n.area) sources.now }
    requires room { length firsts.now ≡ length sources.now }
    requires firsts { AreFirsts axis sources.now firsts.now }
    requires read { IsSmallRead read.now }
    ensures found { IfOk result (λ rs. All (IsRow (leasts_of ranges.now) sources.now read.now axis) rs.items) }
    ensures refused { IfErr result (λ e. e ≡ Memory) }
{
    let mut rows = Vec::new(alloc);
    for node in nodes {
        if !makes(node, read.rule) || find_row(&rows, read, axis, &node.area).is_some() {
            continue;
        }
        rows.push(Row {
            area: node.area,
            near: near_row(alloc, sources, ranges, firsts, read, axis, &node.area)?,
        })?;
    }
    Ok(rows)
}

/// Where the segments of a matrix stand: from the first to after the last, or nowhere.
fn span_of(nodes: &[Node], matrix: u32) -> (usize, usize)
    ensures { IsSpan nodes.now matrix result.0 result.1 }
{
    let mut first = 0usize;
    let mut end = 0usize;
    for (number, node) in nodes.iter().enumerate() {
        if matrix != node.matrix {
            continue;
        }
        if end == 0 {
            first = number;
        }
        end = number + 1;
    }
    (first, end)
}

/// The tests of a read on both axes, for the segments of the matrix that is read.
fn rows_of(
    alloc: Global,
    nodes: &[Node],
    ranges: &Ranges,
    read: &ReadBox,
) -> Result<Rows, GraphRefusal>
    requires ranges { IsRanges ranges.now }
    requires few { length nodes.now < 2 ^ 32 }
    requires areas { All (λ n. IsSmallArea n.area) nodes.now }
    requires read { IsSmallRead read.now }
    ensures found { IfOk result (AreRowsOf (leasts_of ranges.now) nodes.now read.now) }
    ensures refused { IfErr result (λ e. e ≡ Memory) }
{
    let (first, end) = span_of(nodes, read.matrix);
    let sources = &nodes[first..end];
    let firsts_x = firsts(alloc, sources, 0)?;
    let firsts_y = firsts(alloc, sources, 1)?;
    Ok(Rows {
        first,
        end,
        x: axis_rows(alloc, nodes, sources, ranges, &firsts_x, read, 0)?,
        y: axis_rows(alloc, nodes, sources, ranges, &firsts_y, read, 1)?,
    })
}

/// The tests of each read.
pub(crate) fn all_rows(
    alloc: Global,
    nodes: &[Node],
    ranges: &Ranges,
    reads: &[ReadBox],
) -> Result<Vec<Rows>, GraphRefusal>
    requires ranges { IsRanges ranges.now }
    requires few { length nodes.now < 2 ^ 32 }
    requires areas { All (λ n. IsSmallArea n.area) nodes.now }
    requires reads { All IsSmallRead reads.now }
    ensures found { IfOk result (λ rs. AreRows (leasts_of ranges.now) nodes.now reads.now rs.items) }
    ensures refused { IfErr result (λ e. e ≡ Memory) }
{
    let mut rows = Vec::new(alloc);
    for read in reads {
        rows.push(rows_of(alloc, nodes, ranges, read)?)?;
    }
    Ok(rows)
}

fn pass_both(x: &[bool], y: &[bool], number: usize) -> bool
    requires x { number < length x.now }
    requires y { number < length y.now }
    ensures { result ≡ (slice_index_or x.now number false && slice_index_or y.now number false) }
{
    x[number] && y[number]
}

/// What passes both tests.
fn both(alloc: Global, x: &[bool], y: &[bool]) -> Result<Vec<bool>, GraphRefusal>
    requires { length x.now ≡ length y.now }
    ensures found { IfOk result (λ bs. bs.items ≡ both x.now y.now) }
    ensures refused { IfErr result (λ e. e ≡ Memory) }
{
    let mut row = Vec::new(alloc);
    for number in 0..x.len() {
        row.push(pass_both(x, y, number))?;
    }
    Ok(row)
}

/// Whether a cell of an area may read a cell of a segment.
fn may_touch(ranges: &Ranges, area: &SymBox, source: &Node, read: &ReadBox) -> bool
    requires ranges { IsRanges ranges.now }
    requires area { IsSmallArea area.now }
    requires source { IsSmallArea source.now.area }
    requires read { IsSmallRead read.now }
    ensures { result ≡ may_touch (leasts_of ranges.now) area.now source.now read.now }
{
    read.matrix == source.matrix
        && !are_apart(ranges, area, read, &source.area, 0)
        && !are_apart(ranges, area, read, &source.area, 1)
}

/// For each segment whether it may.
fn tested_row(
    alloc: Global,
    nodes: &[Node],
    ranges: &Ranges,
    area: &SymBox,
    read: &ReadBox,
) -> Result<Vec<bool>, GraphRefusal>
    requires ranges { IsRanges ranges.now }
    requires areas { All (λ n. IsSmallArea n.area) nodes.now }
    requires area { IsSmallArea area.now }
    requires read { IsSmallRead read.now }
    ensures found { IfOk result (λ bs. bs.items ≡ row (leasts_of ranges.now) nodes.now area.now read.now) }
    ensures refused { IfErr result (λ e. e ≡ Memory) }
{
    let mut row = Vec::new(alloc);
    for source in nodes {
        row.push(may_touch(ranges, area, source, read))?;
    }
    Ok(row)
}

/// For each segment of the part that has rows whether a cell of an area may read a cell of it: by the tests that are known,
/// else by tests of its own.
pub(crate) fn touched_row(
    alloc: Global,
    nodes: &[Node],
    ranges: &Ranges,
    rows: &Rows,
    read: &ReadBox,
    area: &SymBox,
) -> Result<Vec<bool>, GraphRefusal>
    requires ranges { IsRanges ranges.now }
    requires areas { All (λ n. IsSmallArea n.area) nodes.now }
    requires rows { AreRowsOf (leasts_of ranges.now) nodes.now read.now rows.now }
    requires area { IsSmallArea area.now }
    requires read { IsSmallRead read.now }
    ensures found { IfOk result (λ bs. bs.items ≡ row (leasts_of ranges.now) (part nodes.now rows.now.first rows.now.end) area.now read.now) }
    ensures refused { IfErr result (λ e. e ≡ Memory) }
{
    if let Some(x) = find_row(&rows.x, read, 0, area) {
        if let Some(y) = find_row(&rows.y, read, 1, area) {
            return both(alloc, x, y);
        }
    }
    tested_row(alloc, &nodes[rows.first..rows.end], ranges, area, read)
}
