ghost use Rattle.std.specs.Prelude.{◌≡◌, ◌++◌, ◌∷◌, ◌<◌, ◌≤◌, ◌^◌, ℕ, false, [], IfErr, IfOk, OnOk, map, filter, length};
ghost use Rattle.std.specs.List.{All};
ghost use Rattle.pb_linear.specs.Sizes.{IsRanges, leasts_of};
ghost use Rattle.pb_graph.specs.Edges.{edges, is_some, links};
ghost use Rattle.pb_graph.specs.Rows.{edge_by, is_met, is_touched, link_by, met_by, met_reads, met_rules, plain, side_by, sides, sources_by};
ghost use Rattle.pb_graph.specs.Small.{IsSmallArea, IsSmallRead};
ghost use Rattle.pb_graph.specs.declared.refusal.GraphRefusal.TheVariants.{Memory};

use crate::layering::Edge;
use crate::node::Node;
use crate::readers::{Group, OwnRead, groups};
use crate::refusal::GraphRefusal;
use crate::rows::all_rows;
use crate::seen::{EdgeSides, Seen, is_wide, mark, serving, sides_by};
use pb_linear::{Ranges, ReadBox};
use std::alloc::Global;

/// Edges by reader and then by source: as they are answered, as links between segments, and whether all that they read stands
/// at or before the cell by each sign.
#[derive(Drop)]
pub(crate) struct Found {
    pub(crate) edges: Vec<Edge>,
    pub(crate) links: Vec<pb_layers::Edge>,
    pub(crate) sides: Vec<EdgeSides>,
}

#[tactic(auto, unfolding(crate::specs::Rows::is_touched))]
fn is_touched(source: usize, read: &OwnRead) -> bool
    ensures { result ≡ is_touched source read.now }
{
    if source < read.first {
        return false;
    }
    let number = source - read.first;
    number < read.touched.len() && read.touched[number]
}

/// The first number from `source` on that is among those of a read, or the end.
#[tactic(auto, unfolding(crate::specs::Rows::is_touched))]
fn next_by(read: &OwnRead, source: usize, end: usize) -> usize
    requires { source ≤ end }
    ensures order { (source ≤ result) × (result ≤ end) }
    ensures none { (k : ℕ) → source ≤ k → k < result → is_touched k read.now ≡ false }
{
    if source < read.first {
        return read.first.min(end);
    }
    if source - read.first < read.touched.len() {
        return source;
    }
    end
}

fn next_in(group: &Group, source: usize, end: usize) -> usize
    requires { source ≤ end }
    ensures order { (source ≤ result) × (result ≤ end) }
    ensures none { (k : ℕ) → source ≤ k → k < result → met_by k group.now ≡ [] }
{
    let mut next = end;
    for read in &group.reads {
        next = next_by(read, source, next);
    }
    next
}

/// The first number from `source` on that is among those of any read, or the end.
fn next_source(groups: &[Group], source: usize, end: usize) -> usize
    requires { source ≤ end }
    ensures order { (source ≤ result) × (result ≤ end) }
    ensures none { (k : ℕ) → source ≤ k → k < result → met_reads k groups.now ≡ [] }
{
    let mut next = end;
    for group in groups {
        next = next_in(group, source, next);
    }
    next
}

/// Adds at the end of a list what is known of the reads of a rule by which a segment reads another.
fn push_met(met: &mut Vec<Seen>, source: usize, group: &Group) -> Result<(), GraphRefusal>
    ensures found { OnOk result (met.new.items ≡ met.old.items ++ met_by source group.now) }
    ensures refused { IfErr result (λ e. e ≡ Memory) }
{
    for read in &group.reads {
        if !is_touched(source, read) {
            continue;
        }
        met.push(read.seen)?;
    }
    Ok(())
}

/// What is known of the reads by which a segment reads another.
fn met_reads(alloc: Global, source: usize, groups: &[Group]) -> Result<Vec<Seen>, GraphRefusal>
    ensures found { IfOk result (λ met. met.items ≡ met_reads source groups.now) }
    ensures refused { IfErr result (λ e. e ≡ Memory) }
{
    let mut met = Vec::new(alloc);
    for group in groups {
        push_met(&mut met, source, group)?;
    }
    Ok(met)
}

fn is_met(source: usize, group: &Group) -> bool
    ensures { result ≡ is_met source group.now }
{
    for read in &group.reads {
        if is_touched(source, read) {
            return true;
        }
    }
    false
}

/// The rules of these reads.
fn met_rules(alloc: Global, source: usize, groups: &[Group]) -> Result<Vec<u32>, GraphRefusal>
    ensures found { IfOk result (λ met. met.items ≡ met_rules source groups.now) }
    ensures refused { IfErr result (λ e. e ≡ Memory) }
{
    let mut met = Vec::new(alloc);
    for group in groups {
        if !is_met(source, group) {
            continue;
        }
        met.push(group.rule)?;
    }
    Ok(met)
}

/// Whether there are some.
fn are_some(reads: &[Seen]) -> bool
    ensures { result ≡ is_some reads.now }
{
    !reads.is_empty()
}

/// Adds an edge at the end.
fn push_edge(
    alloc: Global,
    found: &mut Found,
    reader: u32,
    groups: &[Group],
    source: u32,
    reads: &[Seen],
) -> Result<(), GraphRefusal>
    requires { reads.now ≡ met_reads source groups.now }
    ensures edges { OnOk result (found.new.edges.items ≡ found.old.edges.items ++ edge_by reader groups.now source ∷ []) }
    ensures links { OnOk result (found.new.links.items ≡ found.old.links.items ++ link_by reader groups.now source ∷ []) }
    ensures sides { OnOk result (found.new.sides.items ≡ found.old.sides.items ++ side_by reader groups.now source ∷ []) }
    ensures refused { IfErr result (λ e. e ≡ Memory) }
{
    let rules = met_rules(alloc, source as usize, groups)?;
    found.links.push(pb_layers::Edge {
        reader,
        source,
        serves: serving(reads),
    })?;
    found.sides.push(EdgeSides {
        reader,
        source,
        sides: sides_by(reads),
    })?;
    found.edges.push(Edge {
        reader,
        source,
        rules,
        mark_x: mark(reads, 0),
        mark_y: mark(reads, 1),
        wide: is_wide(reads),
    })?;
    Ok(())
}

/// Adds an edge at the end, if there is one.
fn push_if_met(
    alloc: Global,
    found: &mut Found,
    reader: u32,
    groups: &[Group],
    source: u32,
) -> Result<(), GraphRefusal>
    ensures edges { OnOk result (found.new.edges.items ≡ found.old.edges.items ++ map (edge_by reader groups.now) (filter (λ s. is_some (met_reads s groups.now)) (source ∷ []))) }
    ensures links { OnOk result (found.new.links.items ≡ found.old.links.items ++ map (link_by reader groups.now) (filter (λ s. is_some (met_reads s groups.now)) (source ∷ []))) }
    ensures sides { OnOk result (found.new.sides.items ≡ found.old.sides.items ++ map (side_by reader groups.now) (filter (λ s. is_some (met_reads s groups.now)) (source ∷ []))) }
    ensures refused { IfErr result (λ e. e ≡ Memory) }
{
    let reads = met_reads(alloc, source as usize, groups)?;
    if !are_some(&reads) {
        return Ok(());
    }
    push_edge(alloc, found, reader, groups, source, &reads)
}

/// Adds the edges of a reader at the end.
fn push_edges(
    alloc: Global,
    found: &mut Found,
    reader: u32,
    groups: &[Group],
    count: u32,
) -> Result<(), GraphRefusal>
    ensures edges { OnOk result (found.new.edges.items ≡ found.old.edges.items ++ map (edge_by reader groups.now) (sources_by groups.now count)) }
    ensures links { OnOk result (found.new.links.items ≡ found.old.links.items ++ map (link_by reader groups.now) (sources_by groups.now count)) }
    ensures sides { OnOk result (found.new.sides.items ≡ found.old.sides.items ++ map (side_by reader groups.now) (sources_by groups.now count)) }
    ensures refused { IfErr result (λ e. e ≡ Memory) }
{
    let end = count as usize;
    let mut source = next_source(groups, 0, end);
    while source < end {
        push_if_met(alloc, found, reader, groups, source as u32)?;
        source = next_source(groups, source + 1, end);
    }
    Ok(())
}

/// All edges.
pub(crate) fn find_edges(
    alloc: Global,
    nodes: &[Node],
    reads: &[ReadBox],
    ranges: &Ranges,
) -> Result<Found, GraphRefusal>
    requires ranges { IsRanges ranges.now }
    requires few { length nodes.now < 2 ^ 32 }
    requires areas { All (λ n. IsSmallArea n.area) nodes.now }
    requires reads { All IsSmallRead reads.now }
    ensures edges { IfOk result (λ f. f.edges.items ≡ edges (plain ranges.now nodes.now reads.now)) }
    ensures links { IfOk result (λ f. f.links.items ≡ links (plain ranges.now nodes.now reads.now)) }
    ensures sides { IfOk result (λ f. f.sides.items ≡ sides (plain ranges.now nodes.now reads.now)) }
    ensures refused { IfErr result (λ e. e ≡ Memory) }
{
    let mut found = Found {
        edges: Vec::new(alloc),
        links: Vec::new(alloc),
        sides: Vec::new(alloc),
    };
    let count = nodes.len() as u32;
    let rows = all_rows(alloc, nodes, ranges, reads)?;
    for (reader, node) in nodes.iter().enumerate() {
        let groups = groups(alloc, nodes, reads, ranges, &rows, node)?;
        push_edges(alloc, &mut found, reader as u32, &groups, count)?;
    }
    Ok(found)
}
