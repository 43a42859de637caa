ghost use Rattle.std.specs.Prelude.{◌≡◌, ◌≤◌, ◌^◌, ◌-ℤ◌, pos, slice_get, unsigned_abs};
ghost use Rattle.std.specs.List.{All};
ghost use Rattle.std.specs.Option.{option_map_or};
ghost use Rattle.pb_linear.specs.Sizes.{sizes_of};
ghost use Rattle.pb_program.specs.declared.view.ReadView.TheVariants as view;
ghost use Rattle.pb_program.specs.Areas.{area_by, area_of, at, from_start};
ghost use Rattle.pb_program.specs.Trees.{bare_rule, bare_transform};
ghost use Rattle.pb_recursion.specs.Plans.{locals_of_rule, no_sides, sides_of_slot, sides_of_view};
ghost use Rattle.pb_recursion.specs.Shapes.{sides_of_area, sides_of_decl};

use pb_linear::{SIZE_TOP, Sizes};
use pb_program::{Coordinate, Decl, Read, ReadView, Rule, Slot, Transform};

/// The width and the height that a declaration has at sizes of at most `SIZE_TOP`.
pub fn sides_of_decl(decl: &Decl, s: &Sizes) -> (i64, i64)
    requires { All (λ size. size ≤ SIZE_TOP) s.now.of }
    ensures { result ≡ sides_of_decl (sizes_of s.now) decl.now }
{
    (decl.w.at(s), decl.h.at(s))
}

/// The value of a coordinate where no rule variable plays a part.
#[tactic(auto, using(crate::proofs::SideLemmas::at_start))]
fn place(coordinate: &Coordinate, s: &Sizes) -> i64
    requires { All (λ size. size ≤ SIZE_TOP) s.now.of }
    ensures value { result ≡ at (sizes_of s.now) (pos 0) (pos 0) coordinate.now }
    ensures near { unsigned_abs result ≤ 2 ^ 52 }
{
    coordinate.form.rest.at(s)
}

fn minus(a: i64, b: i64) -> i64
    requires left { unsigned_abs a ≤ 2 ^ 52 }
    requires right { unsigned_abs b ≤ 2 ^ 52 }
    ensures { result ≡ a -ℤ b }
{
    a - b
}

/// From one coordinate to another.
fn distance(low: &Coordinate, high: &Coordinate, s: &Sizes) -> i64
    requires { All (λ size. size ≤ SIZE_TOP) s.now.of }
    ensures { result ≡ at (sizes_of s.now) (pos 0) (pos 0) high.now -ℤ at (sizes_of s.now) (pos 0) (pos 0) low.now }
{
    minus(place(high, s), place(low, s))
}

/// Of a region; one that is written for one dimension has the height 1.
fn sides_of_region(decl: &Decl, read: &Read, s: &Sizes) -> (i64, i64)
    requires { All (λ size. size ≤ SIZE_TOP) s.now.of }
    ensures { result ≡ sides_of_area view.Region (area_by (sizes_of s.now) (pos 0) (pos 0) view.Region read.now decl.now) }
{
    let width = distance(&read.x0, &read.x1, s);
    if read.dims == 1 {
        return (width, 1);
    }
    (width, distance(&read.y0, &read.y1, s))
}

/// Of what a view shows of its matrix.
#[tactic(auto, using(crate::proofs::SideLemmas::cell_sides, crate::proofs::SideLemmas::row_sides))]
fn sides_shown(decl: &Decl, read: &Read, s: &Sizes) -> (i64, i64)
    requires { All (λ size. size ≤ SIZE_TOP) s.now.of }
    ensures { result ≡ sides_of_area read.now.view (area_of (sizes_of s.now) (pos 0) (pos 0) read.now decl.now) }
{
    match read.view {
        ReadView::Cell => (1, 1),
        ReadView::Row => (decl.w.at(s), 1),
        ReadView::Column => (decl.h.at(s), 1),
        ReadView::Region => sides_of_region(decl, read, s),
        ReadView::Whole => (decl.w.at(s), decl.h.at(s)),
    }
}

/// Where there is no matrix.
fn sides_of_none(view: ReadView) -> (i64, i64)
    ensures { result ≡ sides_of_area view (record { x = from_start (pos 0); y = from_start (pos 0) }) }
{
    match view {
        ReadView::Column => (0, 1),
        ReadView::Cell | ReadView::Row | ReadView::Region | ReadView::Whole => (0, 0),
    }
}

/// The width and the height of what a view of a plan shows, at sizes of at most `SIZE_TOP`; a column is a view of one dimension,
/// whose width is the matrix's height. Either is negative where the view ends before it starts.
pub fn sides_of_view(matrices: &[Decl], read: &Read, s: &Sizes) -> (i64, i64)
    requires { All (λ size. size ≤ SIZE_TOP) s.now.of }
    ensures { result ≡ sides_of_view matrices.now (sizes_of s.now) read.now }
{
    match matrices.get(read.matrix as usize) {
        Some(decl) => sides_shown(decl, read, s),
        None => sides_of_none(read.view),
    }
}

/// Of the view with this number.
fn sides_of_numbered(matrices: &[Decl], views: &[Read], k: u32, s: &Sizes) -> (i64, i64)
    requires { All (λ size. size ≤ SIZE_TOP) s.now.of }
    ensures { result ≡ option_map_or (sides_of_view matrices.now (sizes_of s.now)) (slice_get views.now k) no_sides }
{
    match views.get(k as usize) {
        Some(read) => sides_of_view(matrices, read, s),
        None => (0, 0),
    }
}

/// Of the local matrix with this number.
fn sides_of_local(rule: &Rule, k: u32, s: &Sizes) -> (i64, i64)
    requires { All (λ size. size ≤ SIZE_TOP) s.now.of }
    ensures { result ≡ option_map_or (sides_of_decl (sizes_of s.now)) (slice_get (locals_of_rule (bare_rule rule.now)) k) no_sides }
{
    let Some(plan) = &rule.body.plan else {
        return (0, 0);
    };
    match plan.locals.get(k as usize) {
        Some(decl) => sides_of_decl(decl, s),
        None => (0, 0),
    }
}

/// The width and the height of the matrix that a name in a plan of this transform names, at sizes of at most `SIZE_TOP`; 0 and 0
/// where it names none.
pub fn sides_of_slot(t: &Transform, rule: &Rule, slot: Slot, s: &Sizes) -> (i64, i64)
    requires { All (λ size. size ≤ SIZE_TOP) s.now.of }
    ensures { result ≡ sides_of_slot t.now.matrices (sizes_of s.now) (bare_rule rule.now) slot }
{
    match slot {
        Slot::Out(k) => sides_of_numbered(&t.matrices, &rule.outs, k, s),
        Slot::Read(k) => sides_of_numbered(&t.matrices, &rule.reads, k, s),
        Slot::Local(k) => sides_of_local(rule, k, s),
    }
}
