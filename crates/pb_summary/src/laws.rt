ghost use Rattle.std.specs.Prelude.{◌≡◌, ◌<◌, List, length, ℤ, ◌≤ℤ◌, All, Contains};
ghost use Rattle.pb_summary.specs.Summary.{least_of, greatest_of};

/// A law: the least of some cells is one of them, and none is less; the greatest is one of them, and none is greater.
pub fn the_ends_are_cells()
    ensures least { (cells : List ℤ) → 0 < length cells → Contains cells (least_of cells) × All (λ c. least_of cells ≤ℤ c) cells }
    ensures greatest { (cells : List ℤ) → 0 < length cells → Contains cells (greatest_of cells) × All (λ c. c ≤ℤ greatest_of cells) cells }
{}
