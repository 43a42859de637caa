ghost use Rattle.std.specs.Prelude.{◌≡◌, ◌<◌, ◌≤◌, ◌^◌, ◌↔◌, ℕ, pos, ◌≤ℤ◌, ◌<ℤ◌, IfNone, IfSome, IsTrue, length, slice_index};
ghost use Rattle.std.specs.List.{All};
ghost use Rattle.pb_linear.specs.Form.{value};
ghost use Rattle.pb_linear.specs.Sizes.{sizes_of};
ghost use Rattle.pb_linear.specs.VForm.{InArea};
ghost use Rattle.pb_graph.specs.Layerings.{steps_at};
ghost use Rattle.pb_graph.specs.Ranks.{along, rank_by, rank_in};
ghost use Rattle.pb_check.specs.Ranked.{IsIn, cell};

use pb_graph::{Layer, Layering, Node};
use pb_linear::{Form, SIZE_TOP, Sign, Sizes, Step, SymBox};

/// Whether a coordinate lies between two ends.
fn is_between(low: &Form, high: &Form, s: &Sizes, coordinate: u64) -> bool
    requires { All (λ size. size ≤ SIZE_TOP) s.now.of }
    ensures { IsTrue result ↔ ((value low.now (sizes_of s.now) ≤ℤ pos coordinate) × (pos coordinate <ℤ value high.now (sizes_of s.now))) }
{
    i128::from(low.at(s)) <= i128::from(coordinate)
        && i128::from(coordinate) < i128::from(high.at(s))
}

/// Whether an area holds a place.
#[tactic(auto, using(crate::proofs::PlacedLemmas::in_area))]
fn is_in_area(area: &SymBox, s: &Sizes, x: u64, y: u64) -> bool
    requires { All (λ size. size ≤ SIZE_TOP) s.now.of }
    ensures { IsTrue result ↔ InArea area.now (sizes_of s.now) (pos x) (pos y) }
{
    is_between(&area.x0, &area.x1, s, x) && is_between(&area.y0, &area.y1, s, y)
}

/// Whether a segment holds a cell.
fn is_in(node: &Node, s: &Sizes, matrix: u32, x: u64, y: u64) -> bool
    requires { All (λ size. size ≤ SIZE_TOP) s.now.of }
    ensures { IsTrue result ↔ ((node.now.matrix ≡ matrix) × InArea node.now.area (sizes_of s.now) (pos x) (pos y)) }
{
    node.matrix == matrix && is_in_area(&node.area, s, x, y)
}

/// The first segment that holds a cell.
#[tactic(auto, using(crate::proofs::PlacedLemmas::held_first))]
pub(crate) fn segment_of(nodes: &[Node], s: &Sizes, matrix: u32, x: u64, y: u64) -> Option<u32>
    requires few { length nodes.now < 2 ^ 32 }
    requires sizes { All (λ size. size ≤ SIZE_TOP) s.now.of }
    ensures found { IfSome result (λ u. IsIn nodes.now (sizes_of s.now) (cell matrix x y) u) }
    ensures none { IfNone result ((u : ℕ) → IsIn nodes.now (sizes_of s.now) (cell matrix x y) u → ⊥) }
{
    for (u, node) in nodes.iter().enumerate() {
        if is_in(node, s, matrix, x, y) {
            return Some(u as u32);
        }
    }
    None
}

/// A coordinate along a step: the coordinate itself, or its negative where the step goes backwards.
fn signed(step: &Step, x: u64, y: u64) -> i64
    requires x { x < 2 ^ 62 }
    requires y { y < 2 ^ 62 }
    ensures { result ≡ along step.now (pos x) (pos y) }
{
    let coordinate = if step.axis == 0 { x } else { y } as i64;
    match step.sign {
        Sign::Plus => coordinate,
        Sign::Minus => -coordinate,
    }
}

/// The place of a cell along the steps of a list, 0 where there is no such step.
fn along(steps: &[Step], x: u64, y: u64) -> (i64, i64)
    requires x { x < 2 ^ 62 }
    requires y { y < 2 ^ 62 }
    ensures { (layer : ℕ) → record { layer = layer; first = result.0; second = result.1 } ≡ rank_by layer steps.now (pos x) (pos y) }
{
    match steps {
        [] => (0, 0),
        [first] => (signed(first, x, y), 0),
        [first, second, ..] => (signed(first, x, y), signed(second, x, y)),
    }
}

/// The steps of a layer.
fn steps(layers: &[Layer], layer: u32) -> &[Step]
    requires { layer < length layers.now }
    ensures { result.now ≡ steps_at layers.now layer }
{
    let layer = &layers[layer as usize];
    &layer.steps
}

/// The rank of a cell of a segment.
pub(crate) fn rank_in(order: &Layering, segment: u32, x: u64, y: u64) -> (u32, i64, i64)
    requires segment { segment < length order.now.layer }
    requires layer { slice_index order.now.layer segment < length order.now.layers }
    requires x { x < 2 ^ 62 }
    requires y { y < 2 ^ 62 }
    ensures { record { layer = result.0; first = result.1; second = result.2 } ≡ rank_in order.now segment (pos x) (pos y) }
{
    let layer = order.layer[segment as usize];
    let (first, second) = along(steps(&order.layers, layer), x, y);
    (layer, first, second)
}
