ghost use Rattle.std.specs.Prelude.{◌≡◌, ◌≤◌, ◌++◌, [], ◌∷◌, if◌then◌else◌, IfOk, IsTrue, OnOk, Some, slice_get};
ghost use Rattle.std.specs.List.{All};
ghost use Rattle.pb_linear.specs.Form.{value};
ghost use Rattle.pb_linear.specs.Sizes.{sizes_of};
ghost use Rattle.pb_program.specs.Trees.{bare_transform};
ghost use Rattle.pb_model.specs.Cells.{natural};
ghost use Rattle.pb_model.specs.Chosen.{chosen_rule, instance_size};
ghost use Rattle.pb_frame.specs.Choices.{IsInstance, met_of};
ghost use Rattle.pb_frame.specs.Frames.{corner_of, greatest, has_cell, has_place, part_of, parts_of, rect_of};

use crate::choice::{lawful_of, met_of};
use crate::lists::greater;
use crate::part::FramePart;
use pb_check::Analysis;
use pb_config::choose;
use pb_graph::Node;
use pb_linear::{Form, SIZE_TOP, Sizes};
use pb_program::{Config, Transform};
use pb_values::Rect;
use std::alloc::{AllocError, Global};

/// The greatest of some numbers, 0 where there is none.
#[tactic(auto, using(crate::proofs::SizeLemmas::greatest_step))]
fn greatest_of(numbers: &[u64]) -> u64
    ensures { result ≡ greatest numbers.now }
{
    let mut top = 0u64;
    for number in numbers {
        top = greater(top, *number);
    }
    top
}

/// The greatest of the sizes, or 1 where there is none.
#[tactic(auto, using(crate::proofs::SizeLemmas::size_is))]
fn instance_size(s: &Sizes) -> u64
    ensures { result ≡ instance_size (sizes_of s.now) }
{
    if s.count == 0 {
        return 1;
    }
    greatest_of(&s.of[..s.count as usize])
}

/// The value of an end, 0 in the place of a negative one.
fn natural(end: &Form, s: &Sizes) -> u64
    requires { All (λ size. size ≤ SIZE_TOP) s.now.of }
    ensures { result ≡ natural (value end.now (sizes_of s.now)) }
{
    let value = end.at(s);
    if value < 0 { 0 } else { value as u64 }
}

fn rect_of(node: &Node, s: &Sizes) -> Rect
    requires { All (λ size. size ≤ SIZE_TOP) s.now.of }
    ensures { result ≡ rect_of node.now (sizes_of s.now) }
{
    Rect {
        x0: natural(&node.area.x0, s),
        y0: natural(&node.area.y0, s),
        x1: natural(&node.area.x1, s),
        y1: natural(&node.area.y1, s),
    }
}

/// Whether a rectangle has a place.
pub fn has_place(r: &Rect) -> bool
    ensures { result ≡ has_place r.now }
{
    r.x0 < r.x1 && r.y0 < r.y1
}

/// The rule that is chosen for the cells of a segment.
#[tactic(auto, using(crate::proofs::PartLemmas::chosen_by, crate::proofs::PartLemmas::some_lawful))]
fn rule_of(
    alloc: Global,
    c: &Config,
    t: u32,
    transform: &Transform,
    found: &Analysis,
    s: &Sizes,
    met: &[u32],
    k: u32,
    node: &Node,
) -> Result<u32, AllocError>
    requires instance { IsInstance t (bare_transform transform.now) found.now (sizes_of s.now) }
    requires met { met.now ≡ met_of (bare_transform transform.now) (sizes_of s.now) }
    requires node { slice_get found.now.nodes k ≡ Some node.now }
    requires cell { IsTrue (has_place (rect_of node.now (sizes_of s.now))) }
    ensures { IfOk result (λ k. k ≡ chosen_rule c.now t (bare_transform transform.now) (sizes_of s.now) (corner_of node.now (sizes_of s.now))) }
{
    let set = lawful_of(alloc, transform, met, &node.rules)?;
    Ok(choose(c, t, node.matrix, &set, instance_size(s)))
}

/// Adds a segment, if it has a cell.
#[tactic(auto, using(crate::proofs::PartLemmas::few))]
fn add_part(
    alloc: Global,
    parts: &mut Vec<FramePart>,
    c: &Config,
    t: u32,
    transform: &Transform,
    found: &Analysis,
    s: &Sizes,
    met: &[u32],
    k: u32,
    node: &Node,
) -> Result<(), AllocError>
    requires instance { IsInstance t (bare_transform transform.now) found.now (sizes_of s.now) }
    requires sizes { All (λ size. size ≤ SIZE_TOP) s.now.of }
    requires met { met.now ≡ met_of (bare_transform transform.now) (sizes_of s.now) }
    requires node { slice_get found.now.nodes k ≡ Some node.now }
    ensures { OnOk result (parts.new.items ≡ parts.old.items ++ (if has_cell (sizes_of s.now) (k, node.now) then part_of c.now t (bare_transform transform.now) (sizes_of s.now) (k, node.now) ∷ [] else [])) }
{
    let rect = rect_of(node, s);
    if has_place(&rect) {
        let rule = rule_of(alloc, c, t, transform, found, s, met, k, node)?;
        parts.push(FramePart {
            node: k,
            rect,
            rule,
        })?;
    }
    Ok(())
}

/// Each segment that has a cell, by number, with its chosen rule.
pub(crate) fn parts_of(
    alloc: Global,
    c: &Config,
    t: u32,
    transform: &Transform,
    found: &Analysis,
    s: &Sizes,
) -> Result<Vec<FramePart>, AllocError>
    requires instance { IsInstance t (bare_transform transform.now) found.now (sizes_of s.now) }
    ensures { IfOk result (λ parts. parts.items ≡ parts_of c.now t (bare_transform transform.now) (sizes_of s.now) found.now.nodes) }
{
    let met = met_of(alloc, transform, s)?;
    let mut parts = Vec::new(alloc);
    for (k, node) in found.nodes().iter().enumerate() {
        add_part(
            alloc, &mut parts, c, t, transform, found, s, &met, k as u32, node,
        )?;
    }
    Ok(parts)
}
