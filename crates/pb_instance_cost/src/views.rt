ghost use Rattle.std.specs.Prelude.{◌≡◌, ◌+◌, ◌≤◌, IfOk, IsTrue, Some, pos, slice_get, sum_by};
ghost use Rattle.std.specs.List.{All};
ghost use Rattle.pb_linear.specs.Sizes.{sizes_of};
ghost use Rattle.pb_values.specs.declared.shape.TheConstants.{MOST_SIDE};
ghost use Rattle.pb_program.specs.Trees.{bare_rule};
ghost use Rattle.pb_views.specs.Layouts.{HasShortSides};
ghost use Rattle.pb_instance_cost.specs.Shown.{CanShow, CanShowRule, rule_shown, view_shown};

use crate::extents::{along, height, width};
use pb_linear::{SIZE_TOP, Sizes};
use pb_program::{Decl, Read, Rule};
use pb_sums::sum_of_products;
use pb_values::{MOST_SIDE, Rect};
use pb_views::shape_of;
use std::alloc::AllocError;

pub(crate) fn plus(a: u64, b: u64) -> Result<u64, AllocError>
    ensures { IfOk result (λ n. n ≡ a + b) }
{
    a.checked_add(b).ok_or(AllocError)
}

fn unsigned(number: i128) -> Result<u64, AllocError>
    ensures { IfOk result (λ n. pos n ≡ number) }
{
    match u64::try_from(number) {
        Ok(n) => Ok(n),
        Err(_) => Err(AllocError),
    }
}

/// Whether the sides of a matrix, and the ends of a rectangle, are within the limits of a run.
fn is_short(decl: &Decl, s: &Sizes, rect: &Rect) -> bool
    requires { All (λ size. size ≤ SIZE_TOP) s.now.of }
    ensures sides { IsTrue result → HasShortSides (sizes_of s.now) decl.now }
    ensures right { IsTrue result → rect.now.x1 ≤ MOST_SIDE }
    ensures high { IsTrue result → rect.now.y1 ≤ MOST_SIDE }
{
    let shape = shape_of(decl, s);
    shape.w <= MOST_SIDE && shape.h <= MOST_SIDE && rect.x1 <= MOST_SIDE && rect.y1 <= MOST_SIDE
}

/// How many cells a view shows of a matrix, summed over the places of a rectangle.
fn view_cost(read: &Read, matrices: &[Decl], s: &Sizes, rect: &Rect) -> Result<u64, AllocError>
    requires sizes { All (λ size. size ≤ SIZE_TOP) s.now.of }
    requires can { CanShow matrices.now (sizes_of s.now) rect.now read.now }
    ensures { IfOk result (λ n. n ≡ view_shown matrices.now (sizes_of s.now) rect.now read.now) }
{
    let decl = &matrices[read.matrix as usize];
    if !is_short(decl, s, rect) {
        return Err(AllocError);
    }
    let across = width(read, decl, s);
    let down = height(read, decl, s);
    let mut cost = 0u64;
    for y in rect.y0..rect.y1 {
        let row = sum_of_products(
            &along(&across, rect.x0, y),
            &along(&down, rect.x0, y),
            rect.x1 - rect.x0,
        );
        cost = plus(cost, unsigned(row)?)?;
    }
    Ok(cost)
}

fn views_cost(views: &[Read], matrices: &[Decl], s: &Sizes, rect: &Rect) -> Result<u64, AllocError>
    requires sizes { All (λ size. size ≤ SIZE_TOP) s.now.of }
    requires can { All (CanShow matrices.now (sizes_of s.now) rect.now) views.now }
    ensures { IfOk result (λ n. n ≡ sum_by (view_shown matrices.now (sizes_of s.now) rect.now) views.now) }
{
    let mut cost = 0u64;
    for view in views {
        cost = plus(cost, view_cost(view, matrices, s, rect)?)?;
    }
    Ok(cost)
}

/// How many cells the views of a rule show, summed over the places of a rectangle.
pub(crate) fn rule_cost(
    rule: &Rule,
    matrices: &[Decl],
    s: &Sizes,
    rect: &Rect,
) -> Result<u64, AllocError>
    requires sizes { All (λ size. size ≤ SIZE_TOP) s.now.of }
    requires can { CanShowRule matrices.now (sizes_of s.now) rect.now (bare_rule rule.now) }
    ensures { IfOk result (λ n. n ≡ rule_shown matrices.now (sizes_of s.now) rect.now (bare_rule rule.now)) }
{
    plus(
        views_cost(&rule.reads, matrices, s, rect)?,
        views_cost(&rule.outs, matrices, s, rect)?,
    )
}
