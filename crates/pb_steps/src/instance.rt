use pb_frame::Job;
use pb_linear::Sizes;
use pb_views::Seat;
use std::marker::Model;

/// An instance of a transform in the call with this number: its sizes, where its matrices stand, and its jobs.
#[derive(Drop)]
pub struct Instance {
    pub call: u32,
    pub transform: u32,
    pub sizes: Sizes,
    pub seats: Vec<Seat>,
    pub jobs: Vec<Job>,
}

impl Model for Instance {
    ghost use Rattle.pb_steps.specs.Values.{InstanceValue};

    ghost Value = { InstanceValue };

    ghost view = { λ i. record {
      call = i.call;
      transform = i.transform;
      sizes = i.sizes;
      seats = i.seats.items;
      jobs = i.jobs.items;
    } };
}
