ghost use Rattle.std.specs.Prelude.{◌≡◌, ◌<◌, ◌++◌, [], ◌∷◌, IfOk, OnOk, length, map, slice_index, slice_index_or, slice_set};
ghost use Rattle.std.specs.List.{All, range_with_len};
ghost use Rattle.pb_frame.specs.Frames.{in_layer};
ghost use Rattle.pb_frame.specs.declared.part.FramePart.{FramePart};

use crate::part::FramePart;
use pb_graph::Layering;
use std::alloc::{AllocError, Global};
use std::marker::Model;

/// The parts of a layer.
#[derive(Drop)]
pub(crate) struct LayerParts {
    pub parts: Vec<FramePart>,
}

impl Model for LayerParts {
    ghost use Rattle.std.specs.Prelude.{List};
    ghost use Rattle.pb_frame.specs.declared.part.FramePart.{FramePart};

    ghost Value = { List FramePart };

    ghost view = { λ l. l.parts.items };
}

impl LayerParts {
    ghost use Rattle.std.specs.Prelude.{◌≡◌};

    pub(crate) fn parts(&self) -> &[FramePart]
        ensures { result.now ≡ self.now }
    {
        &self.parts
    }
}

fn put_part(layers: &mut Vec<LayerParts>, layer: usize, part: &FramePart) -> Result<(), AllocError>
    requires { layer < length layers.old.items }
    ensures { OnOk result (layers.new.items ≡ slice_set layers.old.items layer (slice_index_or layers.old.items layer [] ++ part.now ∷ [])) }
{
    layers[layer].parts.push(*part)?;
    Ok(())
}

#[tactic(auto, using(crate::proofs::ListLemmas::map_next))]
fn no_parts(alloc: Global, count: usize) -> Result<Vec<LayerParts>, AllocError>
    ensures { IfOk result (λ layers. layers.items ≡ map (λ layer. []) (range_with_len 0 count)) }
{
    let mut layers = Vec::new(alloc);
    for _layer in 0..count {
        layers.push(LayerParts {
            parts: Vec::new(alloc),
        })?;
    }
    Ok(layers)
}

/// The parts of each layer.
#[tactic(auto, using(crate::proofs::LayerLemmas::put_more))]
pub(crate) fn by_layer(
    alloc: Global,
    order: &Layering,
    parts: &[FramePart],
) -> Result<Vec<LayerParts>, AllocError>
    requires inside { All (λ (part : FramePart). part.node < length order.now.layer) parts.now }
    requires below { All (λ (part : FramePart). slice_index order.now.layer part.node < length order.now.layers) parts.now }
    ensures { IfOk result (λ layers. layers.items ≡ map (in_layer order.now parts.now) (range_with_len 0 (length order.now.layers))) }
{
    let mut layers = no_parts(alloc, order.layers.len())?;
    for part in parts {
        put_part(&mut layers, order.layer[part.node as usize] as usize, part)?;
    }
    Ok(layers)
}
