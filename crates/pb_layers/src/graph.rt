ghost use Rattle.std.specs.Prelude.{◌≡◌, ◌<◌, ◌++◌, ◌∷◌, IfOk, OnOk, [], length, replicate};
ghost use Rattle.std.specs.List.{All};
ghost use Rattle.pb_layers.specs.Graphs.{IsAdded, IsLinked};
ghost use Rattle.pb_layers.specs.Layers.{EdgeInside, LinksInside, graph_of};
ghost use Rattle.pb_layers.specs.Orders.{Leads};

use crate::link::{Edge, Link};
use std::alloc::{AllocError, Global};
use std::marker::Model;

/// The nodes to which the links of one node lead.
#[derive(Drop)]
pub(crate) struct Targets {
    nodes: Vec<u32>,
}

impl Model for Targets {
    ghost use Rattle.std.specs.Prelude.{ℕ, List};

    ghost Value = { List ℕ };

    ghost view = { λ t. t.nodes.items };
}

impl Targets {
    pub(crate) fn nodes(&self) -> &[u32]
        ensures { result.now ≡ self.now }
    {
        &self.nodes
    }

    fn push(&mut self, node: u32) -> Result<(), AllocError>
        ensures { OnOk result (self.new ≡ self.old ++ node ∷ []) }
    {
        self.nodes.push(node)?;
        Ok(())
    }
}

/// Links by the node from which they go, and turned round by the node to which they go.
#[derive(Drop)]
pub(crate) struct Graph {
    pub(crate) down: Vec<Targets>,
    pub(crate) up: Vec<Targets>,
}

fn unlinked(alloc: Global, nodes: u32) -> Result<Vec<Targets>, AllocError>
    ensures { IfOk result (λ ts. ts.items ≡ replicate nodes []) }
{
    let mut targets = Vec::new(alloc);
    for _node in 0..nodes {
        targets.push(Targets {
            nodes: Vec::new(alloc),
        })?;
    }
    Ok(targets)
}

fn add(targets: &mut Vec<Targets>, from: u32, to: u32) -> Result<(), AllocError>
    requires { from < length targets.old.items }
    ensures { OnOk result (IsAdded targets.old.items targets.new.items from to) }
{
    targets[from as usize].push(to)
}

fn link(graph: &mut Graph, from: u32, to: u32) -> Result<(), AllocError>
    requires from { from < length graph.old.down.items }
    requires to { to < length graph.old.up.items }
    ensures down { OnOk result (IsAdded graph.old.down.items graph.new.down.items from to) }
    ensures up { OnOk result (IsAdded graph.old.up.items graph.new.up.items to from) }
{
    add(&mut graph.down, from, to)?;
    add(&mut graph.up, to, from)
}

/// Links each of two joined nodes with the other.
fn link_joined(alloc: Global, nodes: u32, joined: &[Link]) -> Result<Graph, AllocError>
    requires { All (LinksInside nodes) joined.now }
    ensures { IfOk result (λ g. IsLinked (Leads (graph_of joined.now [])) nodes g.down.items g.up.items) }
{
    let mut graph = Graph {
        down: unlinked(alloc, nodes)?,
        up: unlinked(alloc, nodes)?,
    };
    for pair in joined {
        link(&mut graph, pair.from, pair.to)?;
        link(&mut graph, pair.to, pair.from)?;
    }
    Ok(graph)
}

/// The links between joined nodes, and those from readers to their sources.
pub(crate) fn linked(
    alloc: Global,
    nodes: u32,
    joined: &[Link],
    edges: &[Edge],
) -> Result<Graph, AllocError>
    requires joined { All (LinksInside nodes) joined.now }
    requires edges { All (EdgeInside nodes) edges.now }
    ensures { IfOk result (λ g. IsLinked (Leads (graph_of joined.now edges.now)) nodes g.down.items g.up.items) }
{
    let mut graph = link_joined(alloc, nodes, joined)?;
    for edge in edges {
        link(&mut graph, edge.reader, edge.source)?;
    }
    Ok(graph)
}
