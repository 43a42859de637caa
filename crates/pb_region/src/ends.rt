ghost use Rattle.std.specs.Prelude.{◌≡◌, ◌≤◌, ◌^◌, unsigned_abs};
ghost use Rattle.std.specs.List.{All};
ghost use Rattle.pb_linear.specs.Form.{numbers};
ghost use Rattle.pb_program.specs.Forms.{over_sizes};
ghost use Rattle.pb_region.specs.Ends.{between, by_dims, coordinate_of, ends_by, ends_of, from_start, next, nowhere, one_place, unmarked};
ghost use Rattle.pb_region.specs.Small.{AreSmall, AreSmallEnds, IsSmall, IsSmallDecl, IsSmallInterval, IsSmallRead};

use crate::forms::{constant, raised};
use pb_linear::{Form, VForm};
use pb_program::{Coordinate, Decl, Read, ReadView};
use std::marker::Model;

/// Places on an axis, from `low` to before `high`.
#[derive(Drop)]
pub(crate) struct Interval {
    pub(crate) low: VForm,
    pub(crate) high: VForm,
}

impl Model for Interval {
    ghost use Rattle.pb_region.specs.Ends.{Interval, coordinate_of};

    ghost Value = { Interval };

    ghost view = { λ i. record { low = coordinate_of i.low; high = coordinate_of i.high } };
}

/// The ends of what a view shows.
#[derive(Drop)]
pub(crate) struct Ends {
    pub(crate) x: Interval,
    pub(crate) y: Interval,
}

impl Model for Ends {
    ghost use Rattle.pb_region.specs.Ends.{Ends};

    ghost Value = { Ends };

    ghost view = { λ e. record { x = e.x; y = e.y } };
}

fn over_sizes(rest: Form) -> VForm
    ensures { coordinate_of result ≡ over_sizes (numbers rest) }
{
    VForm { x: 0, y: 0, rest }
}

fn next(c: &Coordinate) -> VForm
    requires { unsigned_abs c.now.rest.constant ≤ 2 ^ 23 }
    ensures { coordinate_of result ≡ next c.now }
{
    VForm {
        x: c.form.x,
        y: c.form.y,
        rest: raised(&c.form.rest, 1),
    }
}

fn one_place(c: &Coordinate) -> Interval
    requires small { IsSmall c.now }
    requires next { unsigned_abs c.now.rest.constant ≤ 2 ^ 23 }
    ensures found { result ≡ one_place c.now }
    ensures small { IsSmallInterval result }
{
    Interval {
        low: c.form,
        high: next(c),
    }
}

fn between(low: &Coordinate, high: &Coordinate) -> Interval
    requires low { IsSmall low.now }
    requires high { IsSmall high.now }
    ensures found { result ≡ between low.now high.now }
    ensures small { IsSmallInterval result }
{
    Interval {
        low: low.form,
        high: high.form,
    }
}

fn from_start(side: &Form) -> Interval
    requires { AreSmall (numbers side.now) }
    ensures found { result ≡ from_start (numbers side.now) }
    ensures small { IsSmallInterval result }
{
    Interval {
        low: over_sizes(constant(0)),
        high: over_sizes(*side),
    }
}

/// An interval of the y axis; in one dimension it is one place, 0.
fn by_dims(read: &Read, interval: Interval) -> Interval
    requires { IsSmallInterval interval }
    ensures found { result ≡ by_dims read.now interval }
    ensures small { IsSmallInterval result }
{
    if read.dims == 1 {
        one_place(&Coordinate {
            form: over_sizes(constant(0)),
            quotient: false,
        })
    } else {
        interval
    }
}

fn ends_by(read: &Read, matrix: &Decl) -> Ends
    requires read { IsSmallRead read.now }
    requires matrix { IsSmallDecl matrix.now }
    ensures found { result ≡ ends_by read.now.view read.now matrix.now }
    ensures small { AreSmallEnds result }
{
    match read.view {
        ReadView::Cell => Ends {
            x: one_place(&read.x0),
            y: by_dims(read, one_place(&read.y0)),
        },
        ReadView::Row => Ends {
            x: from_start(&matrix.w),
            y: one_place(&read.y0),
        },
        ReadView::Column => Ends {
            x: one_place(&read.x0),
            y: from_start(&matrix.h),
        },
        ReadView::Region => Ends {
            x: between(&read.x0, &read.x1),
            y: by_dims(read, between(&read.y0, &read.y1)),
        },
        ReadView::Whole => Ends {
            x: from_start(&matrix.w),
            y: from_start(&matrix.h),
        },
    }
}

fn nowhere() -> Interval
    ensures found { result ≡ nowhere.x }
    ensures small { IsSmallInterval result }
{
    Interval {
        low: over_sizes(constant(0)),
        high: over_sizes(constant(0)),
    }
}

/// The ends of a view of one of these matrices.
#[tactic(auto, unfolding(crate::specs::Ends::ends_of))]
pub(crate) fn ends_of(matrices: &[Decl], read: &Read) -> Ends
    requires read { IsSmallRead read.now }
    requires matrices { All IsSmallDecl matrices.now }
    ensures found { result ≡ ends_of matrices.now read.now }
    ensures small { AreSmallEnds result }
{
    match matrices.get(read.matrix as usize) {
        Some(matrix) => ends_by(read, matrix),
        None => Ends {
            x: nowhere(),
            y: nowhere(),
        },
    }
}
