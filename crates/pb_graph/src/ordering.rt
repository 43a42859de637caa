ghost use Rattle.std.specs.Prelude.{◌≡◌, ◌⊎◌, ◌<◌, ◌^◌, IfErr, IfOk, length};
ghost use Rattle.std.specs.List.{All};
ghost use Rattle.pb_linear.specs.Sizes.{IsRanges};
ghost use Rattle.pb_graph.specs.Cuts.{refusal_of};
ghost use Rattle.pb_graph.specs.Edges.{choices};
ghost use Rattle.pb_graph.specs.Layerings.{IsLayering, Refuses};
ghost use Rattle.pb_graph.specs.Small.{IsSmallArea, IsSmallRead};
ghost use Rattle.pb_graph.specs.declared.refusal.GraphRefusal.TheVariants.{Memory};

use crate::cuts::cut_layers;
use crate::edges::find_edges;
use crate::joining::joined;
use crate::layering::Layering;
use crate::node::Node;
use crate::refusal::GraphRefusal;
use pb_layers::{LayersRefusal, layers_of};
use pb_linear::{Ranges, ReadBox};
use std::alloc::Global;

/// The refusal of segments by that of their numbers.
fn refused(refusal: LayersRefusal) -> GraphRefusal
    ensures { result ≡ refusal_of refusal }
{
    match refusal {
        LayersRefusal::NoOrder { nodes } => GraphRefusal::NoOrder { segments: nodes },
        LayersRefusal::Memory => GraphRefusal::Memory,
    }
}

/// The order in which segments can be made whatever rules are chosen among theirs: strong components of the segments that
/// read each other, one layer each. `reads` are what the rules read of matrices that rules make; `wide_rules` are the rules
/// that aren't for single cells. The time grows with the segments and the edges, and for each segment and
/// read with the segments of the matrix that is read.
pub fn order(
    alloc: Global,
    nodes: &[Node],
    reads: &[ReadBox],
    wide_rules: &[u32],
    ranges: &Ranges,
) -> Result<Layering, GraphRefusal>
    requires ranges { IsRanges ranges.now }
    requires few { length nodes.now < 2 ^ 32 }
    requires areas { All (λ n. IsSmallArea n.area) nodes.now }
    requires reads { All IsSmallRead reads.now }
    ensures found { IfOk result (IsLayering (choices ranges.now nodes.now reads.now wide_rules.now)) }
    ensures refused { IfErr result (λ e. (e ≡ Memory) ⊎ Refuses (choices ranges.now nodes.now reads.now wide_rules.now) e) }
{
    let found = find_edges(alloc, nodes, reads, ranges)?;
    let joined = joined(alloc, nodes, wide_rules)?;
    match layers_of(alloc, nodes.len() as u32, &joined, &found.links) {
        Ok(layers) => {
            let cut = cut_layers(alloc, &layers.layer, &layers.layers, &found.sides)?;
            Ok(Layering {
                layer: layers.layer,
                layers: cut,
                edges: found.edges,
            })
        }
        Err(refusal) => Err(refused(refusal)),
    }
}
