ghost use Rattle.std.specs.Prelude.{IfOk};
ghost use Rattle.std.specs.List.{All, AllZip};
ghost use Rattle.pb_run_work.specs.Holding.{CanBeSeen};
ghost use Rattle.pb_run_work.specs.Running.{IsSight};

use crate::drawn::Sight;
use pb_check::Accepted;
use pb_jobs::rule_windows;
use pb_steps::{Instance, views_of};
use std::alloc::{AllocError, Global};

/// What is held of an instance: its matrices as views of cells, and the views of its rules at its sizes.
fn sight_of(alloc: Global, a: &Accepted, here: &Instance) -> Result<Sight, AllocError>
    requires { CanBeSeen a.now here.now }
    ensures { IfOk result (IsSight a.now here.now) }
{
    let transform = &a.prog().transforms[here.transform as usize];
    Ok(Sight {
        views: views_of(alloc, &transform.matrices, &here.seats)?,
        windows: rule_windows(alloc, &transform.rules, &here.sizes)?,
    })
}

/// What is held of each instance.
pub(crate) fn sights_of(
    alloc: Global,
    a: &Accepted,
    instances: &[Instance],
) -> Result<Vec<Sight>, AllocError>
    requires { All (CanBeSeen a.now) instances.now }
    ensures { IfOk result (λ sights. AllZip (IsSight a.now) instances.now sights.items) }
{
    let mut sights = Vec::new(alloc);
    for here in instances {
        sights.push(sight_of(alloc, a, here)?)?;
    }
    Ok(sights)
}
