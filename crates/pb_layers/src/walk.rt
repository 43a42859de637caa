ghost use Rattle.std.specs.Prelude.{◌≡◌, ◌<◌, ◌≤◌, ℕ, IfOk, OnOk, length};
ghost use Rattle.std.specs.List.{All};
ghost use Rattle.pb_layers.specs.Graphs.{Out};
ghost use Rattle.pb_layers.specs.Walks.{IsWalk};

use crate::graph::Targets;
use std::alloc::{AllocError, Global};

/// A node on the way from the start, and how many of its links were followed.
#[derive(Clone, Copy)]
pub(crate) struct Stop {
    pub(crate) node: u32,
    pub(crate) followed: usize,
}

/// A depth-first walk: the nodes that were met, the way to the last, and the nodes all of whose links were followed.
#[derive(Drop)]
pub(crate) struct Walk {
    pub(crate) met: Vec<bool>,
    pub(crate) way: Vec<Stop>,
    pub(crate) finished: Vec<u32>,
}

fn meet(walk: &mut Walk, node: u32) -> Result<(), AllocError>
    requires walk { IsWalk (length walk.old.met.items) walk.old.met.items walk.old.way.items walk.old.finished.items }
    requires node { node < length walk.old.met.items }
    ensures { OnOk result (IsWalk (length walk.old.met.items) walk.new.met.items walk.new.way.items walk.new.finished.items) }
{
    if !walk.met[node as usize] {
        walk.met[node as usize] = true;
        walk.way.push(Stop { node, followed: 0 })?;
    }
    Ok(())
}

/// Follows the next link of a node, or finishes it.
fn step(targets: &[Targets], walk: &mut Walk, stop: Stop) -> Result<(), AllocError>
    requires room { length targets.now ≡ length walk.old.met.items }
    requires inside { (u v : ℕ) → Out targets.now u v → v < length walk.old.met.items }
    requires walk { IsWalk (length walk.old.met.items) walk.old.met.items walk.old.way.items walk.old.finished.items }
    requires stop { stop.node < length walk.old.met.items }
    ensures { OnOk result (IsWalk (length walk.old.met.items) walk.new.met.items walk.new.way.items walk.new.finished.items) }
{
    let nodes = targets[stop.node as usize].nodes();
    if stop.followed < nodes.len() {
        let next = nodes[stop.followed];
        walk.way.push(Stop {
            node: stop.node,
            followed: stop.followed + 1,
        })?;
        meet(walk, next)
    } else {
        walk.finished.push(stop.node)?;
        Ok(())
    }
}

/// Walks on until the way is at its end.
fn walk_on(targets: &[Targets], walk: &mut Walk) -> Result<(), AllocError>
    requires room { length targets.now ≡ length walk.old.met.items }
    requires inside { (u v : ℕ) → Out targets.now u v → v < length walk.old.met.items }
    requires walk { IsWalk (length walk.old.met.items) walk.old.met.items walk.old.way.items walk.old.finished.items }
    ensures { OnOk result (IsWalk (length walk.old.met.items) walk.new.met.items walk.new.way.items walk.new.finished.items) }
{
    for _steps in 0..u64::MAX {
        let Some(stop) = walk.way.pop() else {
            return Ok(());
        };
        step(targets, walk, stop)?;
    }
    Ok(())
}

/// The nodes in the order in which a depth-first walk finishes them. Strong components are found in linear time along it,
/// as Kosaraju and Sharir do (Sharir 1981).
pub(crate) fn finishing_order(
    alloc: Global,
    targets: &[Targets],
    nodes: u32,
) -> Result<Vec<u32>, AllocError>
    requires room { length targets.now ≡ nodes }
    requires inside { (u v : ℕ) → Out targets.now u v → v < nodes }
    ensures { IfOk result (λ order. All (λ v. v < nodes) order.items) }
{
    let mut walk = Walk {
        met: vec![in alloc; false; nodes as usize]?,
        way: Vec::new(alloc),
        finished: Vec::new(alloc),
    };
    for node in 0..nodes {
        meet(&mut walk, node)?;
        walk_on(targets, &mut walk)?;
    }
    Ok(walk.finished)
}
