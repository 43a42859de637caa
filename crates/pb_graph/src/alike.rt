ghost use Rattle.std.specs.Prelude.{◌≡◌, ◌⊎◌, ◌<◌, ◌^◌, IsTrue, IfErr, IfOk, IfSome, pos, length, slice_index_or};
ghost use Rattle.std.specs.List.{All, Contains};
ghost use Rattle.pb_graph.specs.Cached.{AreAlike, AreFirsts, AreSame};
ghost use Rattle.pb_graph.specs.declared.refusal.GraphRefusal.TheVariants.{Memory};

use crate::node::Node;
use crate::refusal::GraphRefusal;
use crate::standing::{high, low};
use pb_linear::{Form, ReadBox, SymBox};
use std::alloc::Global;

fn is_same_list(a: &[i64; 8], b: &[i64; 8]) -> bool
    ensures { IsTrue result → a.now ≡ b.now }
{
    a == b
}

#[tactic(auto, using(crate::proofs::CachedLemmas::same_form))]
fn is_same(a: &Form, b: &Form) -> bool
    ensures { IsTrue result → a.now ≡ b.now }
{
    if a.constant != b.constant || !is_same_list(&a.whole, &b.whole) {
        return false;
    }
    is_same_list(&a.half, &b.half)
        && is_same_list(&a.third, &b.third)
        && is_same_list(&a.quarter, &b.quarter)
}

/// Whether two segments are of one matrix and have the same ends on an axis.
fn are_same(axis: u8, u: &Node, v: &Node) -> bool
    ensures { IsTrue result → AreSame axis u.now v.now }
{
    let same = if axis == 0 {
        is_same(&u.area.x0, &v.area.x0) && is_same(&u.area.x1, &v.area.x1)
    } else {
        is_same(&u.area.y0, &v.area.y0) && is_same(&u.area.y1, &v.area.y1)
    };
    u.matrix == v.matrix && same
}

/// Whether bounds of a read are free of a variable, or two intervals are the same.
fn are_alike_on(low: &i64, high: &i64, a0: &Form, a1: &Form, b0: &Form, b1: &Form) -> bool
    ensures { IsTrue result → ((low.now ≡ pos 0) × (high.now ≡ pos 0)) ⊎ ((a0.now ≡ b0.now) × (a1.now ≡ b1.now)) }
{
    (*low == 0 && *high == 0) || (is_same(a0, b0) && is_same(a1, b1))
}

/// Whether a read shows the cells of two areas the same on an axis.
pub(crate) fn are_alike(read: &ReadBox, axis: u8, a: &SymBox, b: &SymBox) -> bool
    ensures { IsTrue result → AreAlike read.now axis a.now b.now }
{
    let low = low(axis, read);
    let high = high(axis, read);
    are_alike_on(&low.x, &high.x, &a.x0, &a.x1, &b.x0, &b.x1)
        && are_alike_on(&low.y, &high.y, &a.y0, &a.y1, &b.y0, &b.y1)
}

/// The first of these segments with the same ends on an axis.
fn find_same(nodes: &[Node], axis: u8, among: &[u32], node: &Node) -> Option<u32>
    requires { All (λ k. k < length nodes.now) among.now }
    ensures { IfSome result (λ k. Contains among.now k × AreSame axis (slice_index_or nodes.now k node.now) node.now) }
{
    for number in among {
        if are_same(axis, &nodes[*number as usize], node) {
            return Some(*number);
        }
    }
    None
}

/// For each segment the first with the same ends on an axis.
pub(crate) fn firsts(alloc: Global, nodes: &[Node], axis: u8) -> Result<Vec<u32>, GraphRefusal>
    requires { length nodes.now < 2 ^ 32 }
    ensures room { IfOk result (λ fs. length fs.items ≡ length nodes.now) }
    ensures found { IfOk result (λ fs. AreFirsts axis nodes.now fs.items) }
    ensures refused { IfErr result (λ e. e ≡ Memory) }
{
    let mut distinct = Vec::new(alloc);
    let mut firsts = Vec::new(alloc);
    for (number, node) in nodes.iter().enumerate() {
        if let Some(first) = find_same(nodes, axis, &distinct, node) {
            firsts.push(first)?;
            continue;
        }
        distinct.push(number as u32)?;
        firsts.push(number as u32)?;
    }
    Ok(firsts)
}
