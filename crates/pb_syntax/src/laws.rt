ghost use Rattle.std.specs.Prelude.{◌≡◌, ℕ, [], ◌∷◌, map, Some, slice_index_or};
ghost use Rattle.pb_syntax.specs.declared.refusal.Item.TheVariants.{Transforms, Rules, Matrices, Sizes, Outputs, Reads, Conditions, Minimums, Targets, Arguments, Terms, Number, Statements, Nesting};
ghost use Rattle.pb_syntax.specs.Limits.{most};
ghost use Rattle.pb_syntax.specs.Signs.{signs, sign_place, places, long_sign, short_sign};

use crate::limits::{MOST_BYTES, MOST_VALUE};
use crate::sign::SIGNS;

/// A law: the signs are just those of the table, each by its place in it.
pub fn signs_are_those_listed()
    ensures listed { map sign_place signs ≡ map Some places }
    ensures short { (a place : ℕ) → short_sign a ≡ Some place → slice_index_or signs place [] ≡ a ∷ [] }
    ensures long { (a b place : ℕ) → long_sign a b ≡ Some place → slice_index_or signs place [] ≡ a ∷ b ∷ [] }
{}

/// A law: the limits are these numbers, in the order of the items.
pub fn the_limits_are_these()
    ensures items { map most (Transforms ∷ Rules ∷ Matrices ∷ Sizes ∷ Outputs ∷ Reads ∷ Conditions ∷ Minimums ∷ Targets ∷ Arguments ∷ Terms
        ∷ Number ∷ Statements ∷ Nesting ∷ []) ≡ 64 ∷ 32 ∷ 16 ∷ 8 ∷ 16 ∷ 16 ∷ 16 ∷ 8 ∷ 16 ∷ 16 ∷ 8 ∷ 1048576 ∷ 256 ∷ 32 ∷ [] }
    ensures bytes { MOST_BYTES ≡ 1048576 }
    ensures value { MOST_VALUE ≡ 9223372036854775807 }
    ensures signs { SIGNS ≡ 25 }
{}
