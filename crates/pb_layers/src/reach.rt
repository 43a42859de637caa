ghost use Rattle.std.specs.Prelude.{◌≡◌, ◌<◌, ◌≤◌, ℕ, false, IfOk, MatchOption, OnOk, [], ◌∷◌, length};
ghost use Rattle.std.specs.List.{All, Contains};
ghost use Rattle.pb_layers.specs.Graphs.{IsFilled, IsMarked, IsReached, IsVisited, Out, marked};

use crate::graph::Targets;
use std::alloc::{AllocError, Global};

/// Takes a node out of the marked ones and lists it, if it is marked.
fn visit(within: &mut Vec<bool>, found: &mut Vec<u32>, node: u32) -> Result<(), AllocError>
    requires { node < length within.old.items }
    ensures { OnOk result (IsVisited (node ∷ []) within.old.items found.old.items within.new.items found.new.items) }
{
    if within[node as usize] {
        within[node as usize] = false;
        found.push(node)?;
    }
    Ok(())
}

fn visit_all(within: &mut Vec<bool>, found: &mut Vec<u32>, nodes: &[u32]) -> Result<(), AllocError>
    requires { All (λ v. v < length within.old.items) nodes.now }
    ensures { OnOk result (IsVisited nodes.now within.old.items found.old.items within.new.items found.new.items) }
{
    for node in nodes {
        visit(within, found, *node)?;
    }
    Ok(())
}

/// Takes out of the marked nodes those to which the links between them lead from a marked node, and lists them.
pub(crate) fn reached(
    alloc: Global,
    targets: &[Targets],
    within: &mut Vec<bool>,
    start: u32,
) -> Result<Vec<u32>, AllocError>
    requires room { length targets.now ≡ length within.old.items }
    requires inside { (u v : ℕ) → Out targets.now u v → v < length within.old.items }
    requires start { IsMarked within.old.items start }
    ensures { IfOk result (λ found. IsReached (Out targets.now) within.old.items start (length found.items) within.new.items found.items) }
{
    let mut found = Vec::new(alloc);
    visit(within, &mut found, start)?;
    let mut followed = 0;
    'followed: while followed < found.len() {
        let node = found[followed];
        visit_all(within, &mut found, targets[node as usize].nodes())?;
        followed += 1;
    }
    Ok(found)
}

/// Writes a value at each of these nodes.
pub(crate) fn fill<T: Copy>(values: &mut Vec<T>, nodes: &[u32], value: T)
    requires { All (λ v. v < length values.old.items) nodes.now }
    ensures { IsFilled T values.old.items values.new.items nodes.now value }
{
    for node in nodes {
        values[*node as usize] = value;
    }
}

/// The first of these nodes that is marked.
pub(crate) fn first_marked(marks: &[bool], nodes: &[u32]) -> Option<u32>
    requires { All (λ v. v < length marks.now) nodes.now }
    ensures { MatchOption result (All (λ v. marked marks.now v ≡ false) nodes.now) (λ v. IsMarked marks.now v × Contains nodes.now v) }
{
    for node in nodes {
        if marks[*node as usize] {
            return Some(*node);
        }
    }
    None
}
