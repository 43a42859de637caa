ghost use Rattle.std.specs.Prelude.{◌≡◌, ◌<◌, ℕ, [], IfErr, IfOk, length, map, slice_index_or};
ghost use Rattle.std.specs.List.{All, enumerate_from};
ghost use Rattle.pb_layers.specs.declared.layers.Layer.{Layer as LayerOf};
ghost use Rattle.pb_graph.specs.Cuts.{all_sides, allowed_at, allows, both_sides, cut_by, layer_by};
ghost use Rattle.pb_graph.specs.Edges.{lists};
ghost use Rattle.pb_graph.specs.Layerings.{sign_in};
ghost use Rattle.pb_graph.specs.Seen.{steps_of};
ghost use Rattle.pb_graph.specs.declared.seen.EdgeSides.{EdgeSides};
ghost use Rattle.pb_graph.specs.declared.refusal.GraphRefusal.TheVariants.{Memory};

use crate::layering::Layer;
use crate::refusal::GraphRefusal;
use crate::seen::{EdgeSides, LISTS, Sides, StepList};
use pb_linear::{Sign, Step};
use std::alloc::Global;

fn both(a: &Sides, b: &Sides) -> Sides
    ensures { result ≡ both_sides a.now b.now }
{
    Sides {
        x_plus: a.x_plus && b.x_plus,
        x_minus: a.x_minus && b.x_minus,
        y_plus: a.y_plus && b.y_plus,
        y_minus: a.y_minus && b.y_minus,
    }
}

/// What all edges inside each of so many layers allow.
fn allowed(
    alloc: Global,
    edges: &[EdgeSides],
    layer: &[u32],
    count: usize,
) -> Result<Vec<Sides>, GraphRefusal>
    requires edges { All (λ (e : EdgeSides). (e.reader < length layer.now) × (e.source < length layer.now)) edges.now }
    requires layer { All (λ p. p < count) layer.now }
    ensures room { IfOk result (λ ss. length ss.items ≡ count) }
    ensures found { IfOk result (λ ss. (place : ℕ) → place < count → slice_index_or ss.items place all_sides ≡ allowed_at layer.now place edges.now) }
    ensures refused { IfErr result (λ e. e ≡ Memory) }
{
    let all = Sides {
        x_plus: true,
        x_minus: true,
        y_plus: true,
        y_minus: true,
    };
    let mut allowed = vec![in alloc; all; count]?;
    for edge in edges {
        let place = layer[edge.reader as usize] as usize;
        if place == layer[edge.source as usize] as usize {
            allowed[place] = both(&allowed[place], &edge.sides);
        }
    }
    Ok(allowed)
}

fn allows(sides: &Sides, axis: u8, sign: Sign) -> bool
    ensures { result ≡ allows sides.now axis sign }
{
    match sign {
        Sign::Plus if axis == 0 => sides.x_plus,
        Sign::Plus => sides.y_plus,
        Sign::Minus if axis == 0 => sides.x_minus,
        Sign::Minus => sides.y_minus,
    }
}

/// The sign of an axis in a list.
fn sign_in(list: &StepList, axis: u8) -> Option<Sign>
    ensures { result ≡ sign_in (steps_of list.now) axis }
{
    if list.first.axis == axis {
        return Some(list.first.sign);
    }
    match list.second {
        Some(step) if step.axis == axis => Some(step.sign),
        _ => None,
    }
}

/// The sign by which a layer can be cut on an axis: that of its list, or any for another axis.
fn cut(sides: &Sides, axis: u8, of_list: Option<Sign>) -> Option<Sign>
    ensures { result ≡ cut_by sides.now axis of_list }
{
    match of_list {
        Some(sign) if allows(sides, axis, sign) => Some(sign),
        Some(_) => None,
        None if allows(sides, axis, Sign::Plus) => Some(Sign::Plus),
        None if allows(sides, axis, Sign::Minus) => Some(Sign::Minus),
        None => None,
    }
}

fn steps(alloc: Global, list: &StepList) -> Result<Vec<Step>, GraphRefusal>
    ensures found { IfOk result (λ ss. ss.items ≡ steps_of list.now) }
    ensures refused { IfErr result (λ e. e ≡ Memory) }
{
    let mut steps = Vec::new(alloc);
    steps.push(list.first)?;
    if let Some(step) = list.second {
        steps.push(step)?;
    }
    Ok(steps)
}

fn list_at(place: u8) -> StepList
    requires { place < 12 }
    ensures { steps_of result ≡ slice_index_or lists place [] }
{
    LISTS[place as usize]
}

/// A layer with its list and the signs by which it can be cut.
fn layer_by(alloc: Global, layer: &pb_layers::Layer, sides: &Sides) -> Result<Layer, GraphRefusal>
    requires { layer.now.list < 12 }
    ensures found { IfOk result (λ l. l ≡ layer_by sides.now layer.now) }
    ensures refused { IfErr result (λ e. e ≡ Memory) }
{
    let list = list_at(layer.list);
    Ok(Layer {
        steps: steps(alloc, &list)?,
        inner: layer.inner,
        cut_x: cut(sides, 0, sign_in(&list, 0)),
        cut_y: cut(sides, 1, sign_in(&list, 1)),
    })
}

/// The layers with their lists, by what the edges inside of each allow.
pub(crate) fn cut_layers(
    alloc: Global,
    layer: &[u32],
    layers: &[pb_layers::Layer],
    edges: &[EdgeSides],
) -> Result<Vec<Layer>, GraphRefusal>
    requires edges { All (λ (e : EdgeSides). (e.reader < length layer.now) × (e.source < length layer.now)) edges.now }
    requires layer { All (λ p. p < length layers.now) layer.now }
    requires lists { All (λ (l : LayerOf). l.list < 12) layers.now }
    ensures found { IfOk result (λ ls. ls.items ≡ map (λ (l : ℕ × LayerOf). layer_by (allowed_at layer.now l.0 edges.now) l.1) (enumerate_from 0 layers.now)) }
    ensures refused { IfErr result (λ e. e ≡ Memory) }
{
    let allowed = allowed(alloc, edges, layer, layers.len())?;
    let mut cut = Vec::new(alloc);
    for (place, one) in layers.iter().enumerate() {
        cut.push(layer_by(alloc, one, &allowed[place])?)?;
    }
    Ok(cut)
}
