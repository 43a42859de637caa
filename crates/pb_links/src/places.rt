use pb_values::Rect;
use std::marker::Model;

/// A rectangle of places of the matrix with this number.
#[derive(Clone, Copy, Debug, PartialEq, Eq)]
pub struct Spot {
    pub base: u32,
    pub rect: Rect,
}

/// What a task makes (`parts`), and what it reads (`boxes`).
#[derive(Debug, Drop)]
pub struct Places {
    pub parts: Vec<Spot>,
    pub boxes: Vec<Spot>,
}

impl Model for Places {
    ghost use Rattle.pb_links.specs.Spots.{PlacesValue};

    ghost Value = { PlacesValue };

    ghost view = { λ p. record { parts = p.parts.items; boxes = p.boxes.items } };
}
