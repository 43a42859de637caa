use pb_linear::SymBox;
use std::marker::Model;

/// A segment: the number of its matrix, its area, and the numbers of the rules that may make its cells, rising.
#[derive(Drop)]
pub struct Node {
    pub matrix: u32,
    pub area: SymBox,
    pub rules: Vec<u32>,
}

impl Model for Node {
    ghost use Rattle.pb_graph.specs.Nodes.{NodeValue};

    ghost Value = { NodeValue };

    ghost view = { λ n. record { matrix = n.matrix; area = n.area; rules = n.rules.items } };
}
