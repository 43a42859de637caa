use pb_linear::Sizes;
use std::marker::Model;

/// A call that is made: its transform, and the sizes at which it is entered.
#[derive(Drop)]
pub(crate) struct Entered {
    pub(crate) transform: u32,
    pub(crate) sizes: Sizes,
}

impl Model for Entered {
    ghost use Rattle.std.specs.Prelude.{ℕ, List};
    ghost use Rattle.pb_linear.specs.Sizes.{sizes_of};

    ghost Value = { ℕ × List ℕ };

    ghost view = { λ n. (n.transform, sizes_of n.sizes) };
}
