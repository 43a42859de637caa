use pb_frame::FramePart;
use pb_values::{Name, Trap};
use pb_views::Seat;
use std::marker::Model;

/// What a copy copies: parts of the matrix of an output, whose lowest corner is `corner`, from where the matrix that the plan made for it
/// stands. It stands for a part of the job with this number of the instance with this number.
#[derive(Drop)]
pub struct Copied {
    pub instance: u32,
    pub job: u32,
    pub parts: Vec<FramePart>,
    pub corner: (u64, u64),
    pub source: Seat,
}

impl Model for Copied {
    ghost use Rattle.pb_steps.specs.Values.{CopiedValue};

    ghost Value = { CopiedValue };

    ghost view = { λ c. record {
      instance = c.instance;
      job = c.job;
      parts = c.parts.items;
      corner = c.corner;
      source = c.source;
    } };
}

/// A target of a call: its name as it is written, and how many dimensions it has.
#[derive(Drop)]
pub struct Target {
    pub name: Name,
    pub dims: u8,
}

impl Model for Target {
    ghost use Rattle.pb_counts.specs.Handed.{Target};

    ghost Value = { Target };

    ghost view = { λ t. record { name = t.name; dims = t.dims } };
}

/// What a call that can't be made puts into the matrices of its targets: `first` is the number of the first of them among the matrices
/// of the run, and `seats` are those that have a cell.
#[derive(Drop)]
pub struct Failed {
    pub call: u32,
    pub trap: Trap,
    pub targets: Vec<Target>,
    pub first: u32,
    pub seats: Vec<Seat>,
}

impl Model for Failed {
    ghost use Rattle.pb_steps.specs.Values.{FailedValue};

    ghost Value = { FailedValue };

    ghost view = { λ f. record {
      call = f.call;
      trap = f.trap;
      targets = f.targets.items;
      first = f.first;
      seats = f.seats.items;
    } };
}

/// What makes some cells of a run: a job of an instance, by their numbers; a copy; or the traps of a call that can't be made.
#[derive(Drop)]
pub enum Step {
    Job { instance: u32, job: u32 },
    Copy(Copied),
    Trap(Failed),
}
