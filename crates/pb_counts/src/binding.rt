ghost use Rattle.std.specs.Prelude.{◌≡◌, ◌≤◌, ◌<◌, unwrap_or, map, length, take};
ghost use Rattle.std.specs.List.{range_with_len, zip};
ghost use Rattle.pb_linear.specs.Sizes.{sizes_of};
ghost use Rattle.pb_program.specs.Trees.{bare_transform};
ghost use Rattle.pb_recursion.specs.Shapes.{first_side_for, side_for, sizes_from};
ghost use Rattle.pb_counts.specs.Callable.{IsCallable};

use crate::standing::stands_alone;
use crate::tally::natural;
use pb_linear::Sizes;
use pb_program::{Decl, Transform};

/// The side of a matrix of which a size variable is the form, its width before its height.
fn side_for(k: usize, decl: &Decl, sides: (i64, i64)) -> Option<u64>
    requires { k < 8 }
    ensures { result ≡ side_for k (decl.now, sides) }
{
    if stands_alone(&decl.w, k) {
        return Some(natural(sides.0));
    }
    if stands_alone(&decl.h, k) {
        return Some(natural(sides.1));
    }
    None
}

/// The first such side among some matrices, 0 where there is none.
fn first_side_for(k: usize, decls: &[Decl], given: &[(i64, i64)]) -> u64
    requires { k < 8 }
    ensures { result ≡ unwrap_or (first_side_for k (zip decls.now given.now)) 0 }
{
    for number in 0..decls.len().min(given.len()) {
        if let Some(side) = side_for(k, &decls[number], given[number]) {
            return side;
        }
    }
    0
}

/// A size for each of so many variables.
fn sizes_from(count: u8, decls: &[Decl], given: &[(i64, i64)]) -> Sizes
    requires { count ≤ 8 }
    ensures { sizes_of result ≡ map (λ k. unwrap_or (first_side_for k (zip decls.now given.now)) 0) (range_with_len 0 count) }
{
    let mut of = [0u64; 8];
    for k in 0..count as usize {
        of[k] = first_side_for(k, decls, given);
    }
    Sizes { count, of }
}

/// The sizes that matrices of these sides bind when they are given to a transform: for each size variable the first side of which
/// it is the form, of the matrices in order, the width before the height; a negative side counts as 0, and so does a variable
/// that no matrix binds.
#[tactic(auto, unfolding(pb_recursion::specs::Shapes::sizes_from))]
pub fn bind(t: &Transform, given: &[(i64, i64)]) -> Sizes
    requires { IsCallable (bare_transform t.now) }
    ensures { sizes_of result ≡ sizes_from (bare_transform t.now) given.now }
{
    let inputs = &t.matrices[..t.inputs as usize];
    sizes_from(t.sizes.len() as u8, inputs, given)
}
