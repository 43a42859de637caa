use pb_linear::{Sign, Step};
use std::marker::Model;

/// A layer: the list of steps in whose order its cells are made, whether its segments read each other, and for each axis the
/// sign by which the layer can be cut into blocks, if it can: all that is read inside the layer stands at or before the cell.
#[derive(Debug, Drop)]
pub struct Layer {
    pub steps: Vec<Step>,
    pub inner: bool,
    pub cut_x: Option<Sign>,
    pub cut_y: Option<Sign>,
}

impl Model for Layer {
    ghost use Rattle.pb_graph.specs.Layerings.{LayerValue};

    ghost Value = { LayerValue };

    ghost view = { λ l. record { steps = l.steps.items; inner = l.inner; cut_x = l.cut_x; cut_y = l.cut_y } };
}

/// The rules by which a segment reads another, by the numbers of both, and for each axis the mark of what they read: 0 to 5
/// for `=`, `<`, `>`, `<=`, `>=` and `*`. Both are 5 where a rule that isn't for single cells is among the rules.
#[derive(Debug, Drop)]
pub struct Edge {
    pub reader: u32,
    pub source: u32,
    pub rules: Vec<u32>,
    pub mark_x: u8,
    pub mark_y: u8,
    pub wide: bool,
}

impl Model for Edge {
    ghost use Rattle.pb_graph.specs.Edges.{EdgeValue};

    ghost Value = { EdgeValue };

    ghost view = { λ e. record {
      reader = e.reader;
      source = e.source;
      rules = e.rules.items;
      mark_x = e.mark_x;
      mark_y = e.mark_y;
      wide = e.wide;
    } };
}

/// The order in which segments are made: the layer of each, the layers from the first that is made, and the edges by reader
/// and then by source.
#[derive(Debug, Drop)]
pub struct Layering {
    pub layer: Vec<u32>,
    pub layers: Vec<Layer>,
    pub edges: Vec<Edge>,
}

impl Model for Layering {
    ghost use Rattle.pb_graph.specs.Layerings.{LayeringValue};

    ghost Value = { LayeringValue };

    ghost view = { λ l. record { layer = l.layer.items; layers = l.layers.items; edges = l.edges.items } };
}
