ghost use Rattle.std.specs.Prelude.{◌≡◌, ◌≤◌, drop, map};
ghost use Rattle.std.specs.List.{All};
ghost use Rattle.pb_linear.specs.Sizes.{sizes_of};
ghost use Rattle.pb_program.specs.Trees.{bare_transform};
ghost use Rattle.pb_recursion.specs.Counts.{all_of, both, matrix_of, one_more};
ghost use Rattle.pb_recursion.specs.Shapes.{sides_of_decl};
ghost use Rattle.pb_counts.specs.Callable.{IsCallable};
ghost use Rattle.pb_counts.specs.Tallies.{capped, counted};

use crate::sides::sides_of_decl;
use crate::tally::Tally;
use pb_linear::{SIZE_TOP, Sizes};
use pb_program::{Decl, Transform};

/// What matrices of these widths and heights count.
pub fn of_matrices(given: &[(i64, i64)]) -> Tally
    ensures { counted result ≡ capped (all_of (map matrix_of given.now)) }
{
    let mut tally = Tally::nothing();
    for sides in given {
        tally = tally.both(Tally::of_matrix(*sides));
    }
    tally
}

/// What the matrices of these declarations count, at sizes of at most `SIZE_TOP`.
pub fn of_decls(decls: &[Decl], s: &Sizes) -> Tally
    requires { All (λ size. size ≤ SIZE_TOP) s.now.of }
    ensures { counted result ≡ capped (all_of (map (λ d. matrix_of (sides_of_decl (sizes_of s.now) d)) decls.now)) }
{
    let mut tally = Tally::nothing();
    for decl in decls {
        tally = tally.both(Tally::of_matrix(sides_of_decl(decl, s)));
    }
    tally
}

/// What a call of a transform counts without the calls of its plans, at sizes of at most `SIZE_TOP`: one call, and the matrices
/// that it makes.
pub fn own_count(t: &Transform, s: &Sizes) -> Tally
    requires sizes { All (λ size. size ≤ SIZE_TOP) s.now.of }
    requires transform { IsCallable (bare_transform t.now) }
    ensures { counted result ≡ capped (both one_more (all_of (map (λ d. matrix_of (sides_of_decl (sizes_of s.now) d)) (drop t.now.inputs t.now.matrices)))) }
{
    Tally::one_call().both(of_decls(&t.matrices[t.inputs as usize..], s))
}
