use crate::part::FramePart;
use std::marker::Model;

/// What is made at once: all cells of a layer that a rule makes which isn't for single cells, where `rule` names it; or the
/// parts of a block, whose cells are made one by one.
#[derive(Drop)]
pub struct Job {
    pub layer: u32,
    pub rule: Option<u32>,
    pub parts: Vec<FramePart>,
}

impl Model for Job {
    ghost use Rattle.pb_frame.specs.Frames.{JobValue};

    ghost Value = { JobValue };

    ghost view = { λ j. record { layer = j.layer; rule = j.rule; parts = j.parts.items } };
}
