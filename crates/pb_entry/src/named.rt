ghost use Rattle.std.specs.Prelude.{◌≡◌, ◌<◌, IfErr, IfOk, Some, length, slice_get};
ghost use Rattle.pb_program.specs.Trees.{bare_prog, bare_transform};
ghost use Rattle.pb_entry.specs.Entering.{CannotEnter, Enters};

use crate::refusal::RunRefusal;
use pb_check::Accepted;
use pb_program::{Prog, Transform};

/// The transform with this number.
pub(crate) fn transform_at(p: &Prog, t: u32) -> &Transform
    requires { t < length (bare_prog p.now) }
    ensures { slice_get (bare_prog p.now) t ≡ Some (bare_transform result.now) }
{
    &p.transforms[t as usize]
}

/// The number of the transform with this name, which takes so many matrices.
pub fn enter(a: &Accepted, name: &[u8], given: u32) -> Result<u32, RunRefusal>
    ensures found { IfOk result (Enters (bare_prog a.now.program) name.now given) }
    ensures refused { IfErr result (CannotEnter (bare_prog a.now.program) name.now given) }
{
    let Some(t) = a.find(name) else {
        return Err(RunRefusal::UnknownTransform);
    };
    let wanted = transform_at(a.prog(), t).inputs;
    if wanted == given {
        Ok(t)
    } else {
        Err(RunRefusal::WrongCount { wanted, given })
    }
}
