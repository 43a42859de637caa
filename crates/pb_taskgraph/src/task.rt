use pb_values::{Name, Rect, View};
use std::marker::Model;

/// What a task does: it makes a block of cells, each by a rule for single cells; or all cells of a rule for many; or it
/// copies cells; or it gives the cells of a failed call their trap.
#[derive(Clone, Copy, Debug, PartialEq, Eq)]
pub enum TaskKind {
    Block,
    Wide,
    Copy,
    Trap,
}

/// Cells that a task makes: the name of their matrix, their rectangle in it, and the cells themselves.
#[derive(Drop)]
pub struct Part {
    pub name: Name,
    pub rect: Rect,
    pub view: View,
}

/// A task of a call, by the call's number: the parts that it makes, and the numbers of its predecessors (`before`) and of its
/// successors (`after`).
#[derive(Drop)]
pub struct Task {
    pub call: u32,
    pub kind: TaskKind,
    pub parts: Vec<Part>,
    pub before: Vec<u32>,
    pub after: Vec<u32>,
}

impl Model for Task {
    ghost use Rattle.pb_taskgraph.specs.Graphs.{TaskValue};

    ghost Value = { TaskValue };

    ghost view = { λ t. record {
      call = t.call;
      kind = t.kind;
      parts = t.parts.items;
      before = t.before.items;
      after = t.after.items;
    } };
}
