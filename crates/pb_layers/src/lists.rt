ghost use Rattle.std.specs.Prelude.{◌≡◌, ◌<◌, ◌^◌, ◌↔◌, ℕ, IsTrue, IfOk, MatchOption, None, length, slice_index_or};
ghost use Rattle.std.specs.List.{All};
ghost use Rattle.pb_layers.specs.Layers.{EdgeInside};
ghost use Rattle.pb_layers.specs.Graphs.{marked};
ghost use Rattle.pb_layers.specs.Lists.{AllHaveLists, AreFirstLists, AreMembers, AreServed, IsFirstWithout, Spoils, chosen};

use crate::link::{Edge, LISTS};
use std::alloc::{AllocError, Global};

/// Whether an edge is inside a component and this list doesn't serve it.
fn spoils(edge: &Edge, least: &[u32], list: usize) -> bool
    requires edge { EdgeInside (length least.now) edge.now }
    requires list { list < LISTS }
    ensures { IsTrue result ↔ Spoils least.now list edge.now }
{
    least[edge.reader as usize] == least[edge.source as usize] && !edge.serves[list]
}

/// Marks the components that a list serves, by their least members.
fn served(
    alloc: Global,
    edges: &[Edge],
    least: &[u32],
    list: usize,
) -> Result<Vec<bool>, AllocError>
    requires edges { All (EdgeInside (length least.now)) edges.now }
    requires least { All (λ v. v < length least.now) least.now }
    requires list { list < LISTS }
    ensures { IfOk result (λ served. AreServed edges.now least.now list served.items) }
{
    let mut served = vec![in alloc; true; least.len()]?;
    for edge in edges {
        if spoils(edge, least, list) {
            served[least[edge.reader as usize] as usize] = false;
        }
    }
    Ok(served)
}

/// Names a list at the components that it serves and that have none yet.
fn choose(lists: &mut Vec<Option<u8>>, served: &[bool], list: u8)
    requires { length served.now ≡ length lists.old.items }
    ensures room { length lists.new.items ≡ length lists.old.items }
    ensures chosen { (root : ℕ) → root < length lists.old.items → slice_index_or lists.new.items root None ≡ chosen list (slice_index_or lists.old.items root None) (marked served.now root) }
{
    for root in 0..lists.len() {
        if served[root] && lists[root].is_none() {
            lists[root] = Some(list);
        }
    }
}

/// The first list that serves all edges inside each component, by its least member.
pub(crate) fn first_lists(
    alloc: Global,
    edges: &[Edge],
    least: &[u32],
) -> Result<Vec<Option<u8>>, AllocError>
    requires edges { All (EdgeInside (length least.now)) edges.now }
    requires least { All (λ v. v < length least.now) least.now }
    ensures { IfOk result (λ lists. AreFirstLists edges.now least.now 12 lists.items) }
{
    let mut lists = vec![in alloc; None; least.len()]?;
    for list in 0..LISTS {
        choose(&mut lists, &served(alloc, edges, least, list)?, list as u8);
    }
    Ok(lists)
}

/// The first least member of a component that no list serves.
pub(crate) fn first_unserved(least: &[u32], lists: &[Option<u8>]) -> Option<u32>
    requires lists { length lists.now ≡ length least.now }
    requires room { length least.now < 2 ^ 32 }
    ensures { MatchOption result (AllHaveLists least.now lists.now (length least.now)) (IsFirstWithout least.now lists.now) }
{
    for node in 0..least.len() as u32 {
        if least[node as usize] == node && lists[node as usize].is_none() {
            return Some(node);
        }
    }
    None
}

/// The nodes with this least member.
pub(crate) fn members(alloc: Global, least: &[u32], root: u32) -> Result<Vec<u32>, AllocError>
    requires { length least.now < 2 ^ 32 }
    ensures { IfOk result (λ ms. AreMembers least.now root (length least.now) ms.items) }
{
    let mut members = Vec::new(alloc);
    for node in 0..least.len() as u32 {
        if least[node as usize] == root {
            members.push(node)?;
        }
    }
    Ok(members)
}
