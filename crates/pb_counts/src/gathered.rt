use crate::tally::Tally;
use pb_linear::Sizes;
use std::marker::Model;

/// A call to come: its transform, and the sizes at which it is entered.
#[derive(Drop)]
pub(crate) struct Entered {
    pub(crate) transform: u32,
    pub(crate) sizes: Sizes,
}

impl Model for Entered {
    ghost use Rattle.std.specs.Prelude.{ℕ, List};
    ghost use Rattle.pb_linear.specs.Sizes.{sizes_of};

    ghost Value = { ℕ × List ℕ };

    ghost view = { λ n. (n.transform, sizes_of n.sizes) };
}

/// What an instance counts without the calls that its plans make, and these calls.
#[derive(Drop)]
pub(crate) struct Gathered {
    pub(crate) tally: Tally,
    pub(crate) next: Vec<Entered>,
}

impl Model for Gathered {
    ghost use Rattle.pb_counts.specs.Tallies.{counted};
    ghost use Rattle.pb_counts.specs.Gathered.{GatheredValue};

    ghost Value = { GatheredValue };

    ghost view = { λ g. record { tally = counted g.tally; next = g.next.items } };
}
