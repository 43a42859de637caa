//! The judge of `tune`: the cost model.
ghost use Rattle.std.specs.Prelude.{◌≡◌, ◌<◌, length};
ghost use Rattle.pb_program.specs.Trees.{bare_prog};

use pb_check::Accepted;
use pb_program::Config;
use pb_tuner::{Cost, Judge};
use pb_unroll::cost;
use std::alloc::{AllocError, Global};

/// Tells what the configurations of an accepted program cost for one of its transforms. It never fails.
#[derive(Drop)]
pub struct CostModel<'a> {
    alloc: Global,
    accepted: &'a Accepted,
    transform: u32,
    ghost there: { transform < length (bare_prog accepted.now.program) },
}

impl<'a> CostModel<'a> {
    /// For transform `t`. There is such a transform.
    pub fn new(alloc: Global, accepted: &'a Accepted, t: u32) -> CostModel<'a>
        requires { t < length (bare_prog accepted.now.program) }
        ensures accepted { result.accepted.now ≡ accepted.now }
        ensures transform { result.transform ≡ t }
    {
        CostModel {
            alloc,
            accepted,
            transform: t,
        }
    }
}

impl<'a> Judge for CostModel<'a> {
    ghost use Rattle.std.specs.Prelude.{Some};
    ghost use Rattle.pb_program.specs.Trees.{bare_prog};
    ghost use Rattle.pb_top.specs.Tunes.{costs_for};

    ghost program = { λ j. bare_prog j.accepted.now.program };

    ghost told = { λ j. Some (costs_for (bare_prog j.accepted.now.program) j.accepted.now.found j.transform) };

    ghost faults = { λ _. 0 };

    fn cost(&mut self, c: &Config, size: u64) -> Result<Cost, AllocError> {
        match cost(self.alloc, self.accepted, c, self.transform, size)? {
            Some(cells) => Ok(Cost::Fit(cells)),
            None => Ok(Cost::Unfit),
        }
    }
}
