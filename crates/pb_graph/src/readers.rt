ghost use Rattle.std.specs.Prelude.{◌≡◌, IfErr, IfOk};
ghost use Rattle.std.specs.List.{All};
ghost use Rattle.pb_linear.specs.Sizes.{IsRanges, leasts_of};
ghost use Rattle.pb_graph.specs.Cached.{AreRows};
ghost use Rattle.pb_graph.specs.Rows.{AreGroups, IsGroup};
ghost use Rattle.pb_graph.specs.Small.{IsSmallArea, IsSmallRead};
ghost use Rattle.pb_graph.specs.declared.refusal.GraphRefusal.TheVariants.{Memory};

use crate::node::Node;
use crate::refusal::GraphRefusal;
use crate::rows::{Rows, touched_row};
use crate::seen::{Seen, seen_at};
use pb_linear::{Ranges, ReadBox, SymBox};
use std::alloc::Global;
use std::marker::Model;

/// A read by a segment, and for each segment from `first` on whether a cell of the reader may read a cell of it.
#[derive(Drop)]
pub(crate) struct OwnRead {
    pub(crate) seen: Seen,
    pub(crate) first: usize,
    pub(crate) touched: Vec<bool>,
}

impl Model for OwnRead {
    ghost use Rattle.pb_graph.specs.Rows.{OwnValue};

    ghost Value = { OwnValue };

    ghost view = { λ o. record { seen = o.seen; first = o.first; touched = o.touched.items } };
}

/// The reads of a rule of a segment.
#[derive(Drop)]
pub(crate) struct Group {
    pub(crate) rule: u32,
    pub(crate) reads: Vec<OwnRead>,
}

impl Model for Group {
    ghost use Rattle.pb_graph.specs.Rows.{GroupValue};

    ghost Value = { GroupValue };

    ghost view = { λ g. record { rule = g.rule; reads = g.reads.items } };
}

/// The reads of a rule, as a segment makes them.
fn group_of(
    alloc: Global,
    nodes: &[Node],
    reads: &[ReadBox],
    ranges: &Ranges,
    rows: &[Rows],
    area: &SymBox,
    rule: u32,
) -> Result<Group, GraphRefusal>
    requires ranges { IsRanges ranges.now }
    requires areas { All (λ n. IsSmallArea n.area) nodes.now }
    requires area { IsSmallArea area.now }
    requires reads { All IsSmallRead reads.now }
    requires rows { AreRows (leasts_of ranges.now) nodes.now reads.now rows.now }
    ensures found { IfOk result (λ g. IsGroup (leasts_of ranges.now) nodes.now area.now reads.now rule g) }
    ensures refused { IfErr result (λ e. e ≡ Memory) }
{
    let mut own = Vec::new(alloc);
    for (number, read) in reads.iter().enumerate() {
        if read.rule != rule {
            continue;
        }
        let known: &Rows = &rows[number];
        own.push(OwnRead {
            seen: seen_at(ranges, area, read),
            first: known.first,
            touched: touched_row(alloc, nodes, ranges, known, read, area)?,
        })?;
    }
    Ok(Group { rule, reads: own })
}

/// The reads of each rule of a segment.
pub(crate) fn groups(
    alloc: Global,
    nodes: &[Node],
    reads: &[ReadBox],
    ranges: &Ranges,
    rows: &[Rows],
    reader: &Node,
) -> Result<Vec<Group>, GraphRefusal>
    requires ranges { IsRanges ranges.now }
    requires areas { All (λ n. IsSmallArea n.area) nodes.now }
    requires reader { IsSmallArea reader.now.area }
    requires reads { All IsSmallRead reads.now }
    requires rows { AreRows (leasts_of ranges.now) nodes.now reads.now rows.now }
    ensures found { IfOk result (λ gs. AreGroups (leasts_of ranges.now) nodes.now reader.now.area reads.now reader.now.rules gs.items) }
    ensures refused { IfErr result (λ e. e ≡ Memory) }
{
    let mut groups = Vec::new(alloc);
    for rule in &reader.rules {
        groups.push(group_of(alloc, nodes, reads, ranges, rows, &reader.area, *rule)?)?;
    }
    Ok(groups)
}
