ghost use Rattle.pb_taskgraph.specs.Plans.{Plan, no_plan};

use std::marker::Brand;

/// A name for a work, so that a type can speak of one.
pub trait NamesWork {
    /// What the work stands for.
    ghost plan: { Plan };
}

impl NamesWork for Brand {
    ghost plan = { no_plan };
}
