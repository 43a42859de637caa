ghost use Rattle.std.specs.Prelude.{◌≡◌, ◌^◌, ◌≤◌, ◌+ℤ◌, ◌*ℤ◌, ◌-ℤ◌, ◌≤ℤ◌, ℕ, ℤ, pos, unsigned_abs};
ghost use Rattle.std.specs.List.{All};
ghost use Rattle.pb_linear.specs.Numbers.{exact_value};
ghost use Rattle.pb_linear.specs.Sizes.{sizes_of};
ghost use Rattle.pb_program.specs.Forms.{coordinate_at};
ghost use Rattle.pb_sums.specs.declared.progression.Progression.{Progression};
ghost use Rattle.pb_views.specs.Layouts.{HasShortSides};
ghost use Rattle.pb_views.specs.Windows.{AreSteady};
ghost use Rattle.pb_instance_cost.specs.Extents.{extent_at, height_at, width_at};

use crate::extent::Extent;
use pb_linear::{SIZE_TOP, Sizes};
use pb_program::{Coordinate, Decl, Read, ReadView};
use pb_sums::Progression;
use pb_views::{Line, shape_of};

fn constant(places: u64) -> Extent
    requires { places ≤ 2 ^ 53 }
    ensures { (x y : ℤ) → extent_at result x y ≡ pos places }
{
    Extent {
        x: 0,
        y: 0,
        rest: places as i64,
    }
}

/// From one coordinate to another.
fn between(low: &Coordinate, high: &Coordinate, s: &Sizes) -> Extent
    requires sizes { All (λ size. size ≤ SIZE_TOP) s.now.of }
    requires low_x { unsigned_abs low.now.x ≤ 2 ^ 26 }
    requires low_y { unsigned_abs low.now.y ≤ 2 ^ 26 }
    requires high_x { unsigned_abs high.now.x ≤ 2 ^ 26 }
    requires high_y { unsigned_abs high.now.y ≤ 2 ^ 26 }
    ensures { (x y : ℤ) → extent_at result x y ≡ coordinate_at high.now (sizes_of s.now) x y -ℤ coordinate_at low.now (sizes_of s.now) x y }
{
    let (from, to) = (Line::new(low, s), Line::new(high, s));
    Extent {
        x: to.x - from.x,
        y: to.y - from.y,
        rest: to.rest - from.rest,
    }
}

/// How many places a view shows across, of a matrix whose sides aren't negative.
#[tactic(auto, using(crate::proofs::ExtentLemmas::one_long))]
pub(crate) fn width(read: &Read, decl: &Decl, s: &Sizes) -> Extent
    requires sizes { All (λ size. size ≤ SIZE_TOP) s.now.of }
    requires steady { AreSteady read.now }
    requires side { pos 0 ≤ℤ exact_value decl.now.w (sizes_of s.now) }
    requires short { HasShortSides (sizes_of s.now) decl.now }
    ensures { (x y : ℤ) → extent_at result x y ≡ width_at read.now decl.now (sizes_of s.now) x y }
{
    match read.view {
        ReadView::Cell => constant(1),
        ReadView::Column => constant(1),
        ReadView::Row => constant(shape_of(decl, s).w),
        ReadView::Whole => constant(shape_of(decl, s).w),
        ReadView::Region => between(&read.x0, &read.x1, s),
    }
}

/// How many it shows down.
#[tactic(auto, using(crate::proofs::ExtentLemmas::one_long, crate::proofs::ExtentLemmas::flat_long))]
pub(crate) fn height(read: &Read, decl: &Decl, s: &Sizes) -> Extent
    requires sizes { All (λ size. size ≤ SIZE_TOP) s.now.of }
    requires steady { AreSteady read.now }
    requires side { pos 0 ≤ℤ exact_value decl.now.h (sizes_of s.now) }
    requires short { HasShortSides (sizes_of s.now) decl.now }
    ensures { (x y : ℤ) → extent_at result x y ≡ height_at read.now decl.now (sizes_of s.now) x y }
{
    match read.view {
        ReadView::Cell => constant(1),
        ReadView::Row => constant(1),
        ReadView::Column => constant(shape_of(decl, s).h),
        ReadView::Whole => constant(shape_of(decl, s).h),
        ReadView::Region => {
            if read.dims == 1 {
                constant(1)
            } else {
                between(&read.y0, &read.y1, s)
            }
        }
    }
}

fn term(coefficient: i64, place: u64) -> i64
    requires coefficient { unsigned_abs coefficient ≤ 2 ^ 27 }
    requires place { place ≤ 2 ^ 23 }
    ensures value { result ≡ coefficient *ℤ pos place }
    ensures near { unsigned_abs result ≤ 2 ^ 50 }
{
    coefficient * place as i64
}

/// The places that a view shows along an axis, from these rule variables on along a row.
pub(crate) fn along(e: &Extent, x: u64, y: u64) -> Progression
    requires x { x ≤ 2 ^ 23 }
    requires y { y ≤ 2 ^ 23 }
    requires near { unsigned_abs (extent_at e.now (pos x) (pos y)) ≤ 2 ^ 27 }
    ensures first { result.first ≡ extent_at e.now (pos x) (pos y) }
    ensures step { result.step ≡ e.now.x }
{
    Progression {
        first: e.rest + (term(e.x, x) + term(e.y, y)),
        step: e.x,
    }
}
