use std::marker::Model;

/// A layer: the list that serves all edges inside it, and whether there is one.
#[derive(Clone, Copy, PartialEq, Eq, Debug)]
pub struct Layer {
    pub list: u8,
    pub inner: bool,
}

/// The layer of each node, and the layers. Each edge goes to a layer with a lesser number, or stays in its layer.
#[derive(Debug, Drop)]
pub struct Layers {
    pub layer: Vec<u32>,
    pub layers: Vec<Layer>,
}

impl Model for Layers {
    ghost use Rattle.pb_layers.specs.Layers.{LayersValue};

    ghost Value = { LayersValue };

    ghost view = { λ l. record {
      layer = l.layer.items;
      layers = l.layers.items;
    } };
}
