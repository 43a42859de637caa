ghost use Rattle.std.specs.Prelude.{◌≡◌, ◌≤◌, IsTrue, length, map};
ghost use Rattle.std.specs.List.{All};
ghost use Rattle.std.specs.Ordering.{int_eq};
ghost use Rattle.pb_linear.specs.Sizes.{leasts_of, sizes_of};
ghost use Rattle.pb_program.specs.Trees.{bare_transform};
ghost use Rattle.pb_recursion.specs.Shapes.{all_same_sides, are_in_range, can_enter, fits, same_sides, sides_of_decl, sizes_from};
ghost use Rattle.pb_counts.specs.Callable.{IsCallable};

use crate::binding::bind;
use crate::sides::sides_of_decl;
use pb_linear::{Ranges, SIZE_TOP, Sizes};
use pb_program::{Decl, Transform};

fn is_same(a: i64, b: i64) -> bool
    ensures { result ≡ int_eq a b }
{
    a == b
}

fn same_sides(a: (i64, i64), b: (i64, i64)) -> bool
    ensures { result ≡ same_sides a b }
{
    is_same(a.0, b.0) && is_same(a.1, b.1)
}

/// Whether there is a matrix for each declaration, with its sides.
fn have_sides(decls: &[Decl], given: &[(i64, i64)], s: &Sizes) -> bool
    requires { All (λ size. size ≤ SIZE_TOP) s.now.of }
    ensures { result ≡ all_same_sides (map (sides_of_decl (sizes_of s.now)) decls.now) given.now }
{
    if decls.len() != given.len() {
        return false;
    }
    for number in 0..decls.len() {
        if !same_sides(sides_of_decl(&decls[number], s), given[number]) {
            return false;
        }
    }
    true
}

/// Whether the sizes are in range.
fn are_in_range(ranges: Ranges, s: Sizes) -> bool
    requires few { ranges.count ≤ 8 }
    ensures exact { result ≡ are_in_range (leasts_of ranges) (sizes_of s) }
    ensures top { IsTrue result → All (λ size. size ≤ SIZE_TOP) s.of }
{
    ranges.hold(&s)
}

/// Whether matrices of these sides can be given to a transform, where they bind these sizes.
#[tactic(auto, unfolding(pb_recursion::specs::Shapes::can_enter))]
fn enters(t: &Transform, given: &[(i64, i64)], s: &Sizes) -> bool
    requires transform { IsCallable (bare_transform t.now) }
    requires bound { sizes_of s.now ≡ sizes_from (bare_transform t.now) given.now }
    ensures exact { result ≡ can_enter (bare_transform t.now) given.now }
    ensures top { IsTrue result → All (λ size. size ≤ SIZE_TOP) s.now.of }
{
    if !are_in_range(t.ranges, *s) {
        return false;
    }
    have_sides(&t.matrices[..t.inputs as usize], given, s)
}

/// Whether matrices of these sides can be given to a transform: the sizes that they bind are in range, and each matrix has the
/// sides of its declaration. Refuses too few matrices and too many.
pub fn can_enter(t: &Transform, given: &[(i64, i64)]) -> bool
    requires { IsCallable (bare_transform t.now) }
    ensures { result ≡ can_enter (bare_transform t.now) given.now }
{
    enters(t, given, &bind(t, given))
}

/// Whether matrices of these sides can be given to a transform, and what it then makes has the sides that are wanted.
#[tactic(auto, unfolding(pb_recursion::specs::Shapes::fits))]
pub fn fits(t: &Transform, given: &[(i64, i64)], wanted: &[(i64, i64)]) -> bool
    requires { IsCallable (bare_transform t.now) }
    ensures { result ≡ fits (bare_transform t.now) given.now wanted.now }
{
    let sizes = bind(t, given);
    if !enters(t, given, &sizes) {
        return false;
    }
    let made = t.inputs as usize + t.middles as usize;
    have_sides(&t.matrices[made..], wanted, &sizes)
}
