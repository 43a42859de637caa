ghost use Rattle.std.specs.Prelude.{◌≡◌, ◌≤◌, ◌^◌, ◌==◌, ◌&&◌, ◌+ℤ◌, ◌≤ℤ◌, [], if◌then◌else◌, pos, unsigned_abs};
ghost use Rattle.std.specs.List.{All, list_all};
ghost use Rattle.pb_linear.specs.Form.{numbers, value};
ghost use Rattle.pb_linear.specs.Sizes.{sizes_of};
ghost use Rattle.pb_program.specs.Conditions.{by_view, cell_conditions, region_conditions, view_conditions, written};
ghost use Rattle.pb_program.specs.declared.view.ReadView.TheVariants as view;
ghost use Rattle.pb_program.specs.Forms.{nothing, over_sizes};
ghost use Rattle.pb_program.specs.Trees.{bare_rule};
ghost use Rattle.pb_region.specs.Small.{IsSmall, IsSmallCond, IsSmallRead, IsSmallRule};
ghost use Rattle.pb_views.specs.Lines.{IsLine};
ghost use Rattle.pb_frame.specs.Choices.{is_met, is_met_by, meets};

use pb_linear::{Form, SIZE_TOP, Sizes};
use pb_program::{Cond, Coordinate, Decl, Read, ReadView, Rule};
use pb_syntax::Relation;
use pb_views::Line;

/// Whether `left` plus `more` is at most `right`, if no rule variable plays a part.
fn is_met(left: &Line, more: i64, right: &Line) -> bool
    requires low { pos 0 ≤ℤ more }
    requires high { more ≤ℤ pos 1 }
    ensures { result ≡ is_met_by left.now more right.now }
{
    if left.x != right.x {
        return true;
    }
    if left.y != right.y {
        return true;
    }
    raised(left.rest, more) <= right.rest
}

fn raised(rest: i64, more: i64) -> i64
    requires near { unsigned_abs rest ≤ 2 ^ 52 }
    requires low { pos 0 ≤ℤ more }
    requires high { more ≤ℤ pos 1 }
    ensures { result ≡ rest +ℤ more }
{
    rest + more
}

fn line(c: &Coordinate, s: &Sizes) -> Line
    requires sizes { All (λ size. size ≤ SIZE_TOP) s.now.of }
    requires small { IsSmall c.now }
    ensures { IsLine c.now (sizes_of s.now) result }
{
    Line::new(c, s)
}

/// The side of a matrix.
fn side_line(side: &Form, s: &Sizes) -> Line
    requires { All (λ size. size ≤ SIZE_TOP) s.now.of }
    ensures { IsLine (over_sizes (numbers side.now)) (sizes_of s.now) result }
{
    Line {
        x: 0,
        y: 0,
        rest: side.at(s),
    }
}

#[tactic(auto, using(crate::proofs::GuardLemmas::nothing_rest))]
fn zero_line(_s: &Sizes) -> Line
    ensures { IsLine nothing (sizes_of _s.now) result }
{
    Line {
        x: 0,
        y: 0,
        rest: 0,
    }
}

/// Whether a coordinate lies on an axis with this side, if no rule variable plays a part.
#[tactic(auto, using(crate::proofs::GuardLemmas::met))]
fn meets_cell(c: &Coordinate, side: &Form, s: &Sizes) -> bool
    requires sizes { All (λ size. size ≤ SIZE_TOP) s.now.of }
    requires small { IsSmall c.now }
    ensures { result ≡ list_all (is_met (sizes_of s.now)) (cell_conditions c.now (numbers side.now)) }
{
    let place = line(c, s);
    is_met(&zero_line(s), 0, &place) && is_met(&place, 1, &side_line(side, s))
}

/// Whether a region lies on an axis with this side, as far as no rule variable plays a part.
#[tactic(auto, using(crate::proofs::GuardLemmas::met))]
fn meets_region(low: &Coordinate, high: &Coordinate, side: &Form, s: &Sizes) -> bool
    requires sizes { All (λ size. size ≤ SIZE_TOP) s.now.of }
    requires low { IsSmall low.now }
    requires high { IsSmall high.now }
    ensures { result ≡ list_all (is_met (sizes_of s.now)) (region_conditions low.now high.now (numbers side.now)) }
{
    let from = line(low, s);
    let to = line(high, s);
    is_met(&zero_line(s), 0, &from) && is_met(&from, 0, &to) && is_met(&to, 0, &side_line(side, s))
}

/// The same on the y axis of a view, which has one place where the matrix has one dimension.
fn meets_cell_y(read: &Read, decl: &Decl, s: &Sizes) -> bool
    requires sizes { All (λ size. size ≤ SIZE_TOP) s.now.of }
    requires small { IsSmallRead read.now }
    ensures { result ≡ list_all (is_met (sizes_of s.now)) (if read.now.dims == 1 then [] else cell_conditions read.now.y0 decl.now.h) }
{
    if read.dims == 1 {
        return true;
    }
    meets_cell(&read.y0, &decl.h, s)
}

fn meets_region_y(read: &Read, decl: &Decl, s: &Sizes) -> bool
    requires sizes { All (λ size. size ≤ SIZE_TOP) s.now.of }
    requires small { IsSmallRead read.now }
    ensures { result ≡ list_all (is_met (sizes_of s.now)) (if read.now.dims == 1 then [] else region_conditions read.now.y0 read.now.y1 decl.now.h) }
{
    if read.dims == 1 {
        return true;
    }
    meets_region(&read.y0, &read.y1, &decl.h, s)
}

#[tactic(auto, using(crate::proofs::GuardLemmas::all_append))]
fn meets_rect(read: &Read, decl: &Decl, s: &Sizes) -> bool
    requires sizes { All (λ size. size ≤ SIZE_TOP) s.now.of }
    requires small { IsSmallRead read.now }
    ensures { result ≡ list_all (is_met (sizes_of s.now)) (by_view view.Region read.now decl.now) }
{
    both(
        meets_region(&read.x0, &read.x1, &decl.w, s),
        meets_region_y(read, decl, s),
    )
}

/// Whether a view lies inside its matrix, as far as no rule variable plays a part.
fn meets_view(read: &Read, decl: &Decl, s: &Sizes) -> bool
    requires sizes { All (λ size. size ≤ SIZE_TOP) s.now.of }
    requires small { IsSmallRead read.now }
    ensures { result ≡ list_all (is_met (sizes_of s.now)) (by_view read.now.view read.now decl.now) }
{
    match read.view {
        ReadView::Cell => both(
            meets_cell(&read.x0, &decl.w, s),
            meets_cell_y(read, decl, s),
        ),
        ReadView::Row => meets_cell(&read.y0, &decl.h, s),
        ReadView::Column => meets_cell(&read.x0, &decl.w, s),
        ReadView::Region => meets_rect(read, decl, s),
        ReadView::Whole => true,
    }
}

fn both(first: bool, second: bool) -> bool
    ensures { result ≡ (first && second) }
{
    first && second
}

fn meets_in(matrices: &[Decl], read: &Read, s: &Sizes) -> bool
    requires sizes { All (λ size. size ≤ SIZE_TOP) s.now.of }
    requires small { IsSmallRead read.now }
    ensures { result ≡ list_all (is_met (sizes_of s.now)) (view_conditions matrices.now read.now) }
{
    match matrices.get(read.matrix as usize) {
        Some(decl) => meets_view(read, decl, s),
        None => true,
    }
}

/// Whether a written condition holds, if no rule variable plays a part.
#[tactic(auto, using(crate::proofs::GuardLemmas::met))]
fn meets_cond(cond: &Cond, s: &Sizes) -> bool
    requires sizes { All (λ size. size ≤ SIZE_TOP) s.now.of }
    requires small { IsSmallCond cond.now }
    ensures { result ≡ list_all (is_met (sizes_of s.now)) (written cond.now) }
{
    let left = line(&cond.left, s);
    let right = line(&cond.right, s);
    match cond.relation {
        Relation::Less => is_met(&left, 1, &right),
        Relation::LessOrEqual => is_met(&left, 0, &right),
        Relation::Greater => is_met(&right, 1, &left),
        Relation::GreaterOrEqual => is_met(&right, 0, &left),
        Relation::Equal => is_met(&left, 0, &right) && is_met(&right, 0, &left),
        Relation::Unequal => true,
    }
}

fn meet_all(matrices: &[Decl], views: &[Read], s: &Sizes) -> bool
    requires sizes { All (λ size. size ≤ SIZE_TOP) s.now.of }
    requires small { All IsSmallRead views.now }
    ensures { result ≡ list_all (λ r. list_all (is_met (sizes_of s.now)) (view_conditions matrices.now r)) views.now }
{
    views.iter().all(|view| meets_in(matrices, view, s))
}

fn meet_conds(conds: &[Cond], s: &Sizes) -> bool
    requires sizes { All (λ size. size ≤ SIZE_TOP) s.now.of }
    requires small { All IsSmallCond conds.now }
    ensures { result ≡ list_all (λ c. list_all (is_met (sizes_of s.now)) (written c)) conds.now }
{
    conds.iter().all(|cond| meets_cond(cond, s))
}

/// Whether the conditions of a rule hold in which no rule variable plays a part.
pub(crate) fn meets(matrices: &[Decl], rule: &Rule, s: &Sizes) -> bool
    requires sizes { All (λ size. size ≤ SIZE_TOP) s.now.of }
    requires small { IsSmallRule (bare_rule rule.now) }
    ensures { result ≡ meets matrices.now (sizes_of s.now) (bare_rule rule.now) }
{
    let views = both(
        meet_all(matrices, &rule.outs, s),
        meet_all(matrices, &rule.reads, s),
    );
    both(views, meet_conds(&rule.conds, s))
}
