//! Layers: small graphs, whose layers or refused components are known.
ghost use Rattle.std.specs.Prelude.{◌≡◌, ◌<◌};
ghost use Rattle.std.specs.List.{All};
ghost use Rattle.pb_layers.specs.Layers.{EdgeInside, LinksInside};

use pb_layers::{Edge, LISTS, LayersRefusal, Link, layers_of};
use std::alloc::{AllocError, Global};
use std::test::Fail;

const NONE: [usize; 0] = [];

fn pair(from: u32, to: u32) -> Link
    ensures from { result.from ≡ from }
    ensures to { result.to ≡ to }
{
    Link { from, to }
}

/// An edge that these lists serve.
fn edge(reader: u32, source: u32, lists: &[usize]) -> Edge
    ensures reader { result.reader ≡ reader }
    ensures source { result.source ≡ source }
{
    let mut serves = [false; LISTS];
    for list in lists {
        if *list < LISTS {
            serves[*list] = true;
        }
    }
    Edge {
        reader,
        source,
        serves,
    }
}

// The layer of each node, and the list of each layer with a star where an edge is inside; or the nodes that are refused.
fn said(alloc: Global, nodes: u32, joined: &[Link], edges: &[Edge]) -> Result<String, AllocError>
    requires joined { All (LinksInside nodes) joined.now }
    requires edges { All (EdgeInside nodes) edges.now }
{
    let mut text = String::new(alloc);
    match layers_of(alloc, nodes, joined, edges) {
        Ok(found) => {
            for layer in &found.layer {
                text.push_str(format!(in alloc; "{layer} ")?.as_str())?;
            }
            text.push_str("with")?;
            for layer in &found.layers {
                let (list, star) = (layer.list, if layer.inner { "*" } else { "" });
                text.push_str(format!(in alloc; " {list}{star}")?.as_str())?;
            }
        }
        Err(LayersRefusal::NoOrder { nodes }) => {
            text.push_str("no order of")?;
            for node in &nodes {
                text.push_str(format!(in alloc; " {node}")?.as_str())?;
            }
        }
        Err(LayersRefusal::Memory) => text.push_str("no memory")?,
    }
    Ok(text)
}

#[test]
fn an_edge_that_no_list_serves_goes_to_a_lower_layer(rt: HostRuntime) -> Result<(), Fail> {
    let edges = [edge(2, 1, &NONE), edge(1, 0, &NONE)];
    assert_eq!(rt;
        said(rt.alloc(), 3, &[], &edges)?.as_str(),
        "0 1 2 with 0 0 0"
    );
    Ok(())
}

#[test]
fn a_ring_stays_in_a_layer_with_the_first_list_that_serves_both(
    rt: HostRuntime,
) -> Result<(), Fail> {
    let edges = [edge(0, 1, &[1, 3, 5]), edge(1, 0, &[2, 3, 5])];
    assert_eq!(rt;
        said(rt.alloc(), 3, &[], &edges)?.as_str(),
        "0 0 1 with 3* 0"
    );
    Ok(())
}

#[test]
fn joined_nodes_share_a_layer_above_what_either_reads(rt: HostRuntime) -> Result<(), Fail> {
    let joined = [pair(0, 2)];
    let edges = [edge(0, 1, &NONE), edge(3, 2, &[0])];
    assert_eq!(rt;
        said(rt.alloc(), 4, &joined, &edges)?.as_str(),
        "1 0 1 2 with 0 0 0"
    );
    Ok(())
}

#[test]
fn an_edge_between_joined_nodes_needs_a_list(rt: HostRuntime) -> Result<(), Fail> {
    let joined = [pair(1, 0)];
    assert_eq!(rt;
        said(rt.alloc(), 2, &joined, &[edge(0, 1, &[11])])?.as_str(),
        "0 0 with 11*"
    );
    assert_eq!(rt;
        said(rt.alloc(), 2, &joined, &[edge(0, 1, &NONE)])?.as_str(),
        "no order of 0 1"
    );
    Ok(())
}

#[test]
fn the_first_component_without_a_list_is_told(rt: HostRuntime) -> Result<(), Fail> {
    let edges = [
        edge(2, 3, &[0]),
        edge(3, 2, &[1]),
        edge(1, 4, &NONE),
        edge(4, 1, &[0]),
        edge(0, 0, &[7]),
    ];
    assert_eq!(rt;
        said(rt.alloc(), 5, &[], &edges)?.as_str(),
        "no order of 1 4"
    );
    Ok(())
}

#[test]
fn no_nodes_have_no_layers(rt: HostRuntime) -> Result<(), Fail> {
    assert_eq!(rt; said(rt.alloc(), 0, &[], &[])?.as_str(), "with");
    Ok(())
}
