ghost use Rattle.std.specs.Prelude.{◌≡◌, ◌⊎◌, ◌<◌, ◌≤◌, ◌^◌, ℕ, IfErr, IfOk, length, map, slice_index};
ghost use Rattle.std.specs.List.{All};
ghost use Rattle.pb_layers.specs.Components.{AreFound};
ghost use Rattle.pb_layers.specs.Layers.{EdgeInside, IsUsedOrder, LinksInside, Refuses, graph_of};
ghost use Rattle.pb_layers.specs.Lists.{AllHaveLists, HasList};
ghost use Rattle.pb_layers.specs.Numbers.{AreMarked, AreNumbered, HaveLists, key_at};
ghost use Rattle.pb_layers.specs.Orders.{Leads};
ghost use Rattle.pb_layers.specs.declared.refusal.LayersRefusal.TheVariants.{Memory};

use crate::components::{Components, find_components};
use crate::graph::linked;
use crate::keys::{Key, keys, places};
use crate::layers::{Layer, Layers};
use crate::link::{Edge, Link};
use crate::lists::{first_lists, first_unserved, members};
use crate::refusal::LayersRefusal;
use std::alloc::{AllocError, Global};

/// The layers of nodes, of which those of each pair in `joined` must share a layer. The time is near linear in the nodes, the
/// pairs and the edges.
pub fn layers_of(
    alloc: Global,
    nodes: u32,
    joined: &[Link],
    edges: &[Edge],
) -> Result<Layers, LayersRefusal>
    requires joined { All (LinksInside nodes) joined.now }
    requires edges { All (EdgeInside nodes) edges.now }
    ensures found { IfOk result (IsUsedOrder (graph_of joined.now edges.now) nodes) }
    ensures refused { IfErr result (λ e. (e ≡ Memory) ⊎ Refuses (graph_of joined.now edges.now) nodes e) }
{
    let components = components_of(alloc, nodes, joined, edges)?;
    let lists = first_lists(alloc, edges, &components.least)?;
    if let Some(root) = first_unserved(&components.least, &lists) {
        let nodes = members(alloc, &components.least, root)?;
        return Err(LayersRefusal::NoOrder { nodes });
    }
    Ok(numbered(alloc, nodes, edges, &components, &lists)?)
}

/// The strong components of the links of the nodes.
fn components_of(
    alloc: Global,
    nodes: u32,
    joined: &[Link],
    edges: &[Edge],
) -> Result<Components, AllocError>
    requires joined { All (LinksInside nodes) joined.now }
    requires edges { All (EdgeInside nodes) edges.now }
    ensures { IfOk result (λ c. AreFound (Leads (graph_of joined.now edges.now)) nodes c.least.items c.depth.items) }
{
    let graph = linked(alloc, nodes, joined, edges)?;
    find_components(alloc, &graph, nodes)
}

/// The layers of components, all of which have a list.
fn numbered(
    alloc: Global,
    nodes: u32,
    edges: &[Edge],
    components: &Components,
    lists: &[Option<u8>],
) -> Result<Layers, AllocError>
    requires least { length components.now.least.items ≡ nodes }
    requires depth { length components.now.depth.items ≡ nodes }
    requires inside { All (λ v. v < nodes) components.now.least.items }
    requires roots { (u : ℕ) → u < nodes → slice_index components.now.least.items (slice_index components.now.least.items u) ≡ slice_index components.now.least.items u }
    requires edges { All (EdgeInside nodes) edges.now }
    requires room { length lists.now ≡ nodes }
    requires lists { AllHaveLists components.now.least.items lists.now nodes }
    ensures { IfOk result (AreNumbered edges.now nodes components.now.least.items components.now.depth.items lists.now) }
{
    let keys = keys(alloc, &components.least, &components.depth)?;
    let places = places(alloc, &keys, nodes)?;
    let layer = layer_of_nodes(alloc, &components.least, &places)?;
    let mut layers = listed(alloc, &keys, lists)?;
    mark_inner(edges, &layer, &mut layers);
    Ok(Layers { layer, layers })
}

/// The layer of each node: the place of its component.
fn layer_of_nodes(alloc: Global, least: &[u32], places: &[u32]) -> Result<Vec<u32>, AllocError>
    requires { All (λ v. v < length places.now) least.now }
    ensures { IfOk result (λ layer. layer.items ≡ map (slice_index places.now) least.now) }
{
    let mut layer = Vec::new(alloc);
    for root in least {
        layer.push(places[*root as usize])?;
    }
    Ok(layer)
}

/// The layers with their lists.
fn listed(alloc: Global, keys: &[Key], lists: &[Option<u8>]) -> Result<Vec<Layer>, AllocError>
    requires inside { (place : ℕ) → place < length keys.now → (key_at keys.now place).root < length lists.now }
    requires lists { (place : ℕ) → place < length keys.now → HasList lists.now (key_at keys.now place).root }
    ensures { IfOk result (λ layers. HaveLists keys.now lists.now layers.items) }
{
    let mut layers = Vec::new(alloc);
    for key in keys {
        layers.push(Layer {
            list: lists[key.root as usize].unwrap(),
            inner: false,
        })?;
    }
    Ok(layers)
}

/// Marks the layers inside which an edge is.
fn mark_inner(edges: &[Edge], layer: &[u32], layers: &mut Vec<Layer>)
    requires edges { All (EdgeInside (length layer.now)) edges.now }
    requires layer { All (λ p. p < length layers.old.items) layer.now }
    ensures { AreMarked edges.now layer.now layers.old.items layers.new.items }
{
    for edge in edges {
        let place = layer[edge.reader as usize];
        if place == layer[edge.source as usize] {
            layers[place as usize].inner = true;
        }
    }
}
