ghost use Rattle.std.specs.Prelude.{◌≡◌, ℕ, ◌+◌, ◌*◌, ◌++◌, flat_map, All};
ghost use Rattle.pb_gen.specs.Stream.{cells_of};
ghost use Rattle.pb_gen.specs.Examples.{example_of, IsSmall};

/// A law: each cell of an example is from -9 to 9.
pub fn the_cells_of_an_example_are_small()
    ensures { (which seed size : ℕ) → All IsSmall (example_of which seed size) }
{}

/// A law: the cells of all three matrices, one after the other, are the first cells of the seed. No word of its
/// generator is passed over, and none is used twice.
pub fn examples_share_one_stream()
    ensures { (seed size : ℕ) → flat_map (λ m. m.cells) (example_of 0 seed size ++ example_of 1 seed size)
        ≡ cells_of seed (2 * (size * size) + size) }
{}
