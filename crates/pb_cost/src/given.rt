ghost use Rattle.std.specs.Prelude.{◌≡◌, ◌≤◌, IfOk, length, map, replicate};
ghost use Rattle.std.specs.List.{All, list_any};
ghost use Rattle.pb_linear.specs.Sizes.{sizes_of};
ghost use Rattle.pb_program.specs.Trees.{bare_transform};
ghost use Rattle.pb_counts.specs.Callable.{IsCallable};
ghost use Rattle.pb_recursion.specs.Shapes.{sides_of_decl};
ghost use Rattle.pb_cost.specs.Costs.{equal_sizes, given_sides, is_empty};

use pb_counts::sides_of_decl;
use pb_linear::{SIZE_TOP, Sizes};
use pb_program::{Decl, Transform};
use std::alloc::{AllocError, Global};

/// This size, so many times.
fn repeated(count: u8, size: u64) -> Sizes
    requires { count ≤ 8 }
    ensures sizes { sizes_of result ≡ replicate count size }
    ensures count { result.count ≡ count }
{
    let mut of = [0u64; 8];
    for k in 0..count as usize {
        of[k] = size;
    }
    Sizes { count, of }
}

/// This size for each variable of a transform.
pub(crate) fn equal_sizes(t: &Transform, size: u64) -> Sizes
    requires { IsCallable (bare_transform t.now) }
    ensures sizes { sizes_of result ≡ equal_sizes (bare_transform t.now) size }
    ensures count { result.count ≡ length t.now.sizes }
{
    repeated(t.sizes.len() as u8, size)
}

/// The width and the height of each matrix that is declared so.
fn sides_of(alloc: Global, decls: &[Decl], s: &Sizes) -> Result<Vec<(i64, i64)>, AllocError>
    requires { All (λ size. size ≤ SIZE_TOP) s.now.of }
    ensures { IfOk result (λ sides. sides.items ≡ map (sides_of_decl (sizes_of s.now)) decls.now) }
{
    let mut sides = Vec::new(alloc);
    for decl in decls {
        sides.push(sides_of_decl(decl, s))?;
    }
    Ok(sides)
}

/// The width and the height of each matrix after `from`, at sizes of at most `SIZE_TOP`.
pub(crate) fn given_sides(
    alloc: Global,
    t: &Transform,
    s: &Sizes,
) -> Result<Vec<(i64, i64)>, AllocError>
    requires transform { IsCallable (bare_transform t.now) }
    requires sizes { All (λ size. size ≤ SIZE_TOP) s.now.of }
    ensures { IfOk result (λ sides. sides.items ≡ given_sides (bare_transform t.now) (sizes_of s.now)) }
{
    sides_of(alloc, &t.matrices[..t.inputs as usize], s)
}

fn is_empty(sides: (i64, i64)) -> bool
    ensures { result ≡ is_empty sides }
{
    sides.0 == 0 || sides.1 == 0
}

/// Whether a matrix has a side that is 0.
pub(crate) fn some_is_empty(given: &[(i64, i64)]) -> bool
    ensures { result ≡ list_any is_empty given.now }
{
    given.iter().any(|sides| is_empty(*sides))
}
