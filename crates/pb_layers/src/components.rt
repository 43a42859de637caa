ghost use Rattle.std.specs.Prelude.{◌≡◌, ◌<◌, ◌≤◌, ◌+◌, ◌^◌, ℕ, false, List, IfOk, OnOk, length};
ghost use Rattle.std.specs.List.{All, Contains};
ghost use Rattle.pb_layers.specs.Components.{AreFound, AreSettled, IsClosed, IsHeight, IsNamed, IsTaken, IsTurned, LeftBy, NoneMarked};
ghost use Rattle.pb_layers.specs.Graphs.{IsMarked, Out, marked};

use crate::graph::{Graph, Targets};
use crate::reach::{fill, first_marked, reached};
use crate::walk::finishing_order;
use std::alloc::{AllocError, Global};

/// The least member and the depth of the strong component of each node, while they are found. No node is marked as ahead
/// between two components.
#[derive(Drop)]
pub(crate) struct Components {
    pub(crate) least: Vec<u32>,
    pub(crate) depth: Vec<u32>,
    pub(crate) left: Vec<bool>,
    pub(crate) ahead: Vec<bool>,
}

/// Takes from what is left a component that no link leaves to the rest of it: there and back from a node, and on from a node
/// that doesn't lead back as long as there is one.
fn take_component(
    alloc: Global,
    graph: &Graph,
    left: &mut Vec<bool>,
    ahead: &mut Vec<bool>,
    start: u32,
) -> Result<Vec<u32>, AllocError>
    requires turned { IsTurned (length left.old.items) graph.now.down.items graph.now.up.items }
    requires closed { IsClosed (Out graph.now.down.items) left.old.items }
    requires start { IsMarked left.old.items start }
    requires room { length ahead.old.items ≡ length left.old.items }
    requires clear { NoneMarked ahead.old.items }
    ensures taken { IfOk result (λ members. IsTaken (Out graph.now.down.items) left.old.items left.new.items members.items) }
    ensures room { OnOk result (length ahead.new.items ≡ length left.old.items) }
    ensures clear { OnOk result (NoneMarked ahead.new.items) }
{
    let mut from = start;
    let mut there = reached(alloc, &graph.down, left, from)?;
    'there: loop {
        fill(ahead, &there, true);
        let back = reached(alloc, &graph.up, ahead, from)?;
        let Some(other) = first_marked(ahead, &there) else {
            return Ok(back);
        };
        fill(ahead, &there, false);
        fill(left, &there, true);
        from = other;
        there = reached(alloc, &graph.down, left, from)?;
    }
}

/// One more than the greatest depth of these nodes outside of the component with this least member, or `so_far` where that is
/// more.
fn height_of(nodes: &[u32], least: &[u32], depth: &[u32], root: u32, so_far: u32) -> u32
    requires least { All (λ v. v < length least.now) nodes.now }
    requires depth { All (λ v. v < length depth.now) nodes.now }
    requires fits { All (λ d. d + 1 < 2 ^ 32) depth.now }
    ensures { IsHeight (Contains nodes.now) least.now depth.now root so_far result }
{
    let mut height = so_far;
    for node in nodes {
        if least[*node as usize] != root {
            height = height.max(depth[*node as usize] + 1);
        }
    }
    height
}

/// The depth of the component of these members.
fn height(targets: &[Targets], members: &[u32], least: &[u32], depth: &[u32], root: u32) -> u32
    requires members { All (λ v. v < length targets.now) members.now }
    requires least { (u v : ℕ) → Out targets.now u v → v < length least.now }
    requires depth { (u v : ℕ) → Out targets.now u v → v < length depth.now }
    requires fits { All (λ d. d + 1 < 2 ^ 32) depth.now }
    ensures { IsHeight (LeftBy targets.now members.now) least.now depth.now root 0 result }
{
    let mut height = 0;
    for member in members {
        height = height_of(
            targets[*member as usize].nodes(),
            least,
            depth,
            root,
            height,
        );
    }
    height
}

fn least_of(members: &[u32]) -> u32
    requires { 0 < length members.now }
    ensures member { Contains members.now result }
    ensures least { (v : ℕ) → Contains members.now v → result ≤ v }
{
    let mut least = members[0];
    for member in members {
        least = least.min(*member);
    }
    least
}

/// Writes the least member and the depth of the component of these members.
fn name(targets: &[Targets], least: &mut Vec<u32>, depth: &mut Vec<u32>, members: &[u32])
    requires some { 0 < length members.now }
    requires members { All (λ v. v < length targets.now) members.now }
    requires inside { (u v : ℕ) → Out targets.now u v → v < length targets.now }
    requires least { length least.old.items ≡ length targets.now }
    requires depth { length depth.old.items ≡ length targets.now }
    requires fits { All (λ d. d + 1 < 2 ^ 32) depth.old.items }
    ensures { IsNamed targets.now members.now least.old.items least.new.items depth.old.items depth.new.items }
{
    let root = least_of(members);
    fill(least, members, root);
    let height = height(targets, members, least, depth, root);
    fill(depth, members, height);
}

/// Finds components until the one of this node is found.
fn settle(
    alloc: Global,
    graph: &Graph,
    components: &mut Components,
    nodes: u32,
    node: u32,
) -> Result<(), AllocError>
    requires turned { IsTurned nodes graph.now.down.items graph.now.up.items }
    requires settled { AreSettled graph.now.down.items nodes components.old.left.items components.old.ahead.items components.old.least.items components.old.depth.items }
    requires node { node < nodes }
    ensures settled { OnOk result (AreSettled graph.now.down.items nodes components.new.left.items components.new.ahead.items components.new.least.items components.new.depth.items) }
    ensures fewer { OnOk result ((v : ℕ) → IsMarked components.new.left.items v → IsMarked components.old.left.items v) }
    ensures found { OnOk result (marked components.new.left.items node ≡ false) }
{
    'left: while components.left[node as usize] {
        let members = take_component(
            alloc,
            graph,
            &mut components.left,
            &mut components.ahead,
            node,
        )?;
        name(
            &graph.down,
            &mut components.least,
            &mut components.depth,
            &members,
        );
    }
    Ok(())
}

/// Finds components along these nodes.
fn settle_along(
    alloc: Global,
    graph: &Graph,
    components: &mut Components,
    nodes: u32,
    order: &[u32],
) -> Result<(), AllocError>
    requires turned { IsTurned nodes graph.now.down.items graph.now.up.items }
    requires settled { AreSettled graph.now.down.items nodes components.old.left.items components.old.ahead.items components.old.least.items components.old.depth.items }
    requires order { All (λ v. v < nodes) order.now }
    ensures { OnOk result (AreSettled graph.now.down.items nodes components.new.left.items components.new.ahead.items components.new.least.items components.new.depth.items) }
{
    for node in order {
        settle(alloc, graph, components, nodes, *node)?;
    }
    Ok(())
}

/// Finds the components of all nodes.
fn settle_all(
    alloc: Global,
    graph: &Graph,
    components: &mut Components,
    nodes: u32,
) -> Result<(), AllocError>
    requires turned { IsTurned nodes graph.now.down.items graph.now.up.items }
    requires settled { AreSettled graph.now.down.items nodes components.old.left.items components.old.ahead.items components.old.least.items components.old.depth.items }
    ensures { OnOk result (AreFound (Out graph.now.down.items) nodes components.new.least.items components.new.depth.items) }
{
    for node in 0..nodes {
        settle(alloc, graph, components, nodes, node)?;
    }
    Ok(())
}

fn unsettled(alloc: Global, nodes: u32) -> Result<Components, AllocError>
    ensures { IfOk result (λ c. (targets : List (List ℕ)) → ((u v : ℕ) → Out targets u v → u < nodes) → AreSettled targets nodes c.left.items c.ahead.items c.least.items c.depth.items) }
{
    let nodes = nodes as usize;
    Ok(Components {
        least: vec![in alloc; 0; nodes]?,
        depth: vec![in alloc; 0; nodes]?,
        left: vec![in alloc; true; nodes]?,
        ahead: vec![in alloc; false; nodes]?,
    })
}

/// The strong components of the nodes. They are the same whatever the order in which nodes are looked at; along the reverse of
/// the order in which a walk over the turned links finishes them each is found at once.
pub(crate) fn find_components(
    alloc: Global,
    graph: &Graph,
    nodes: u32,
) -> Result<Components, AllocError>
    requires { IsTurned nodes graph.now.down.items graph.now.up.items }
    ensures { IfOk result (λ c. AreFound (Out graph.now.down.items) nodes c.least.items c.depth.items) }
{
    let mut components = unsettled(alloc, nodes)?;
    let mut order = finishing_order(alloc, &graph.up, nodes)?;
    order.reverse();
    settle_along(alloc, graph, &mut components, nodes, &order)?;
    settle_all(alloc, graph, &mut components, nodes)?;
    Ok(components)
}
