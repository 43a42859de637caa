ghost use Rattle.std.specs.Prelude.{◌≡◌, ◌<◌, Some, length, slice_get};
ghost use Rattle.pb_program.specs.Trees.{bare_prog, bare_transform};
ghost use Rattle.pb_check.specs.Orders.{AnalysisValue};

use pb_check::Accepted;
use pb_graph::Node;
use pb_program::Transform;

/// The transform with this number.
pub(crate) fn transform_at(a: &Accepted, t: u32) -> &Transform
    requires { t < length (bare_prog a.now.program) }
    ensures { slice_get (bare_prog a.now.program) t ≡ Some (bare_transform result.now) }
{
    &a.prog().transforms[t as usize]
}

/// The segments of the transform with this number.
pub(crate) fn nodes_at(a: &Accepted, t: u32) -> &[Node]
    requires { t < length a.now.found }
    ensures { (x : AnalysisValue) → slice_get a.now.found t ≡ Some x → result.now ≡ x.nodes }
{
    a.analyses()[t as usize].nodes()
}
