ghost use Rattle.std.specs.Prelude.{◌≡◌, ◌∷◌, [], ◌++◌, ◌≤◌, IfErr, IfOk, OnOk, map, negsuc};
ghost use Rattle.std.specs.List.{All, flat_map};
ghost use Rattle.pb_linear.specs.Form.{numbers};
ghost use Rattle.pb_syntax.specs.declared.refusal.Refusal.TheVariants.{Memory};
ghost use Rattle.pb_program.specs.Conditions.{at_most, cell_conditions, by_relation, by_view, region_conditions, view_conditions, written};
ghost use Rattle.pb_program.specs.Forms.{nothing, over_sizes};
ghost use Rattle.pb_region.specs.Gaps.{gap};
ghost use Rattle.pb_region.specs.Small.{AreSmall, IsSmall, IsSmallCond, IsSmallDecl, IsSmallRead};

use crate::forms::{constant, difference, raised};
use pb_linear::{Form, VForm};
use pb_program::{Cond, Coordinate, Decl, Read, ReadView};
use pb_syntax::{Refusal, Relation};
use std::marker::Model;

/// A condition with its terms collected, which says that this is at most 0.
#[derive(Drop)]
pub(crate) struct Gap {
    pub(crate) form: VForm,
    pub(crate) quotient: bool,
}

impl Model for Gap {
    ghost use Rattle.std.specs.Prelude.{◌<◌, ◌^◌, unsigned_abs};
    ghost use Rattle.pb_linear.specs.Form.{numbers};
    ghost use Rattle.pb_program.specs.Forms.{CoordinateValue};

    ghost Value = { CoordinateValue };

    ghost view = { λ g. record { x = g.form.x; y = g.form.y; rest = numbers g.form.rest; quotient = g.quotient } };

    ghost invariant = { λ g. unsigned_abs g.form.rest.constant < 2 ^ 26 };
}

fn over_sizes(form: &Form) -> Coordinate
    ensures { result ≡ over_sizes (numbers form.now) }
{
    Coordinate {
        form: VForm {
            x: 0,
            y: 0,
            rest: *form,
        },
        quotient: false,
    }
}

/// The gap of a condition: `left` plus `more` minus `right`.
#[tactic(auto, unfolding(crate::specs::Gaps::gap))]
fn gap_of(left: &Coordinate, more: u8, right: &Coordinate) -> Gap
    requires left { IsSmall left.now }
    requires more { more ≤ 1 }
    requires right { IsSmall right.now }
    ensures { result ≡ gap (at_most left.now more right.now) }
{
    let rest = difference(&left.form.rest, &right.form.rest);
    Gap {
        form: VForm {
            x: left.form.x - right.form.x,
            y: left.form.y - right.form.y,
            rest: raised(&rest, i64::from(more)),
        },
        quotient: left.quotient || right.quotient,
    }
}

fn push_gap(
    gaps: &mut Vec<Gap>,
    left: &Coordinate,
    more: u8,
    right: &Coordinate,
) -> Result<(), Refusal>
    requires left { IsSmall left.now }
    requires more { more ≤ 1 }
    requires right { IsSmall right.now }
    ensures found { OnOk result (gaps.new.items ≡ gaps.old.items ++ map gap (at_most left.now more right.now ∷ [])) }
    ensures refused { IfErr result (λ e. e ≡ Memory) }
{
    gaps.push(gap_of(left, more, right))?;
    Ok(())
}

fn cell_gaps(gaps: &mut Vec<Gap>, at: &Coordinate, side: &Form) -> Result<(), Refusal>
    requires at { IsSmall at.now }
    requires side { AreSmall (numbers side.now) }
    ensures found { OnOk result (gaps.new.items ≡ gaps.old.items ++ map gap (cell_conditions at.now (numbers side.now))) }
    ensures refused { IfErr result (λ e. e ≡ Memory) }
{
    push_gap(gaps, &over_sizes(&constant(0)), 0, at)?;
    push_gap(gaps, at, 1, &over_sizes(side))
}

fn region_gaps(
    gaps: &mut Vec<Gap>,
    low: &Coordinate,
    high: &Coordinate,
    side: &Form,
) -> Result<(), Refusal>
    requires low { IsSmall low.now }
    requires high { IsSmall high.now }
    requires side { AreSmall (numbers side.now) }
    ensures found { OnOk result (gaps.new.items ≡ gaps.old.items ++ map gap (region_conditions low.now high.now (numbers side.now))) }
    ensures refused { IfErr result (λ e. e ≡ Memory) }
{
    push_gap(gaps, &over_sizes(&constant(0)), 0, low)?;
    push_gap(gaps, low, 0, high)?;
    push_gap(gaps, high, 0, &over_sizes(side))
}

/// The conditions of a view of a matrix.
fn matrix_gaps(gaps: &mut Vec<Gap>, read: &Read, matrix: &Decl) -> Result<(), Refusal>
    requires read { IsSmallRead read.now }
    requires matrix { IsSmallDecl matrix.now }
    ensures found { OnOk result (gaps.new.items ≡ gaps.old.items ++ map gap (by_view read.now.view read.now matrix.now)) }
    ensures refused { IfErr result (λ e. e ≡ Memory) }
{
    match read.view {
        ReadView::Cell => {
            cell_gaps(gaps, &read.x0, &matrix.w)?;
            if read.dims == 1 {
                return Ok(());
            }
            cell_gaps(gaps, &read.y0, &matrix.h)
        }
        ReadView::Row => cell_gaps(gaps, &read.y0, &matrix.h),
        ReadView::Column => cell_gaps(gaps, &read.x0, &matrix.w),
        ReadView::Region => {
            region_gaps(gaps, &read.x0, &read.x1, &matrix.w)?;
            if read.dims == 1 {
                return Ok(());
            }
            region_gaps(gaps, &read.y0, &read.y1, &matrix.h)
        }
        ReadView::Whole => Ok(()),
    }
}

fn view_gaps(gaps: &mut Vec<Gap>, matrices: &[Decl], read: &Read) -> Result<(), Refusal>
    requires read { IsSmallRead read.now }
    requires matrices { All IsSmallDecl matrices.now }
    ensures found { OnOk result (gaps.new.items ≡ gaps.old.items ++ map gap (view_conditions matrices.now read.now)) }
    ensures refused { IfErr result (λ e. e ≡ Memory) }
{
    match matrices.get(read.matrix as usize) {
        Some(matrix) => matrix_gaps(gaps, read, matrix),
        None => Ok(()),
    }
}

/// The conditions of some views, one view after the other.
#[tactic(auto, using(crate::proofs::GapLemmas::more_pieces))]
pub(crate) fn views_gaps(
    gaps: &mut Vec<Gap>,
    matrices: &[Decl],
    views: &[Read],
) -> Result<(), Refusal>
    requires views { All IsSmallRead views.now }
    requires matrices { All IsSmallDecl matrices.now }
    ensures found { OnOk result (gaps.new.items ≡ gaps.old.items ++ map gap (flat_map (view_conditions matrices.now) views.now)) }
    ensures refused { IfErr result (λ e. e ≡ Memory) }
{
    for view in views {
        view_gaps(gaps, matrices, view)?;
    }
    Ok(())
}

/// What a written condition says.
fn written_gaps(gaps: &mut Vec<Gap>, cond: &Cond) -> Result<(), Refusal>
    requires { IsSmallCond cond.now }
    ensures found { OnOk result (gaps.new.items ≡ gaps.old.items ++ map gap (written cond.now)) }
    ensures refused { IfErr result (λ e. e ≡ Memory) }
{
    match cond.relation {
        Relation::Less => push_gap(gaps, &cond.left, 1, &cond.right),
        Relation::LessOrEqual => push_gap(gaps, &cond.left, 0, &cond.right),
        Relation::Greater => push_gap(gaps, &cond.right, 1, &cond.left),
        Relation::GreaterOrEqual => push_gap(gaps, &cond.right, 0, &cond.left),
        Relation::Equal => {
            push_gap(gaps, &cond.left, 0, &cond.right)?;
            push_gap(gaps, &cond.right, 0, &cond.left)
        }
        Relation::Unequal => Ok(()),
    }
}

#[tactic(auto, using(crate::proofs::GapLemmas::more_pieces))]
pub(crate) fn conds_gaps(gaps: &mut Vec<Gap>, conds: &[Cond]) -> Result<(), Refusal>
    requires { All IsSmallCond conds.now }
    ensures found { OnOk result (gaps.new.items ≡ gaps.old.items ++ map gap (flat_map written conds.now)) }
    ensures refused { IfErr result (λ e. e ≡ Memory) }
{
    for cond in conds {
        written_gaps(gaps, cond)?;
    }
    Ok(())
}
