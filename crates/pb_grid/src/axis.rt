ghost use Rattle.std.specs.Prelude.{◌≡◌};
ghost use Rattle.pb_grid.specs.Cuts.{lower, upper};

use pb_linear::{Form, RuleBox};

/// The axes of a matrix.
#[derive(Clone, Copy)]
pub(crate) enum Axis {
    X,
    Y,
}

/// The lower bounds of a box.
pub(crate) fn lower(axis: Axis, rule_box: &RuleBox) -> &[Form]
    ensures { result.now ≡ lower axis rule_box.now }
{
    match axis {
        Axis::X => &rule_box.lower_x,
        Axis::Y => &rule_box.lower_y,
    }
}

/// The upper bounds of a box. They are exclusive.
pub(crate) fn upper(axis: Axis, rule_box: &RuleBox) -> &[Form]
    ensures { result.now ≡ upper axis rule_box.now }
{
    match axis {
        Axis::X => &rule_box.upper_x,
        Axis::Y => &rule_box.upper_y,
    }
}
