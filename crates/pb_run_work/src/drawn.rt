use pb_jobs::Windows;
use pb_links::Spot;
use pb_values::View;
use std::marker::Model;

/// An instance as its jobs see it: its matrices as views of the cells where they stand, and the views of its rules at its sizes.
#[derive(Drop)]
pub struct Sight {
    pub views: Vec<View>,
    pub windows: Vec<Windows>,
}

impl Model for Sight {
    ghost use Rattle.pb_run_work.specs.Seen.{SightValue};

    ghost Value = { SightValue };

    ghost view = { λ s. record { views = s.views.items; windows = s.windows.items } };
}

/// The rectangles that a job makes, in matrices of its instance, with their rules.
#[derive(Drop)]
pub struct Pieces {
    pub parts: Vec<Spot>,
    pub rules: Vec<u32>,
}

impl Model for Pieces {
    ghost use Rattle.pb_run_work.specs.Seen.{PiecesValue};

    ghost Value = { PiecesValue };

    ghost view = { λ q. record { parts = q.parts.items; rules = q.rules.items } };
}
