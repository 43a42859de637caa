ghost use Rattle.std.specs.Prelude.{◌≡◌, ℕ, List};
ghost use Rattle.pb_links.specs.declared.places.Spot.{Spot};
ghost use Rattle.pb_values.specs.Views.{HasPlace};
ghost use Rattle.pb_walk.specs.Cursors.{head, steps_of};
ghost use Rattle.pb_walk.specs.Orders.{by_cell, by_place, by_step, compare, number_on};
ghost use Rattle.pb_walk.specs.Sweeps.{by_sweep, sign_across};
ghost use Rattle.pb_walk.specs.Walks.{stop, walk_of};

use crate::cursor::Cursor;
use pb_linear::{Sign, Step};
use pb_values::Rect;
use std::cmp::Ordering;

/// The first two steps of a list, as far as they are there.
#[derive(Clone, Copy)]
pub(crate) enum Course {
    Any,
    One(Step),
    Two(Step, Step),
}

/// How the places of one rectangle are gone through: column by column or row by row, and in which directions.
#[derive(Clone, Copy)]
pub(crate) struct Sweep {
    pub(crate) columns: bool,
    pub(crate) outer: Sign,
    pub(crate) inner: Sign,
}

fn number_on(axis: u8, cursor: &Cursor) -> u64
    ensures { result ≡ number_on axis (head 0 cursor.now) }
{
    if axis == 0 { cursor.x } else { cursor.y }
}

fn by_step(step: Step, a: &Cursor, b: &Cursor) -> Ordering
    ensures { result ≡ by_step step (head 0 a.now) (head 0 b.now) }
{
    let (first, second) = (number_on(step.axis, a), number_on(step.axis, b));
    match step.sign {
        Sign::Plus => first.cmp(&second),
        Sign::Minus => second.cmp(&first),
    }
}

/// By the number of the matrix, and in a matrix row by row.
fn by_cell(a: &Cursor, b: &Cursor) -> Ordering
    ensures { result ≡ by_cell (head 0 a.now) (head 0 b.now) }
{
    let matrices = a.spot.base.cmp(&b.spot.base);
    matrices.then(a.y.cmp(&b.y).then(a.x.cmp(&b.x)))
}

/// The direction on the other axis than that of the first step.
fn sign_across(first: Step, second: Step) -> Sign
    ensures { result ≡ sign_across first second }
{
    match (first.axis == 0, second.axis == 0) {
        (true, false) | (false, true) => second.sign,
        _ => Sign::Plus,
    }
}

impl Course {
    /// The course of a list of steps.
    pub(crate) fn of(steps: &[Step]) -> Course
        ensures { (pieces : List Spot) → walk_of (steps_of result) pieces ≡ walk_of steps.now pieces }
    {
        match steps {
            [] => Course::Any,
            [first] => Course::One(*first),
            [first, second, ..] => Course::Two(*first, *second),
        }
    }

    /// How the next places of two rectangles stand in the order of the steps, and where they are equal in it, by their cells.
    pub(crate) fn compare(self, a: &Cursor, b: &Cursor) -> Ordering
        ensures { result ≡ by_place (steps_of self) (head 0 a.now) (head 0 b.now) }
    {
        let listed = match self {
            Course::Any => Ordering::Equal,
            Course::One(step) => by_step(step, a, b),
            Course::Two(first, second) => by_step(first, a, b).then(by_step(second, a, b)),
        };
        listed.then(by_cell(a, b))
    }

    /// The order in which the places of any rectangle are gone through.
    pub(crate) fn sweep(self) -> Sweep
        ensures { (piece base x y a b : ℕ) → compare (steps_of self) (stop piece base x y) (stop piece base a b) ≡ by_sweep result x y a b }
    {
        match self {
            Course::Any => Sweep {
                columns: false,
                outer: Sign::Plus,
                inner: Sign::Plus,
            },
            Course::One(step) => Sweep {
                columns: step.axis == 0,
                outer: step.sign,
                inner: Sign::Plus,
            },
            Course::Two(first, second) => Sweep {
                columns: first.axis == 0,
                outer: first.sign,
                inner: sign_across(first, second),
            },
        }
    }

    /// The order in which the places of one rectangle are gone through. One row is gone through along the row, and one column along the
    /// column, whichever axis the steps name first.
    pub(crate) fn sweep_of(self, rect: Rect) -> Sweep
        ensures { (piece base x y a b : ℕ) → HasPlace rect x y → HasPlace rect a b → compare (steps_of self) (stop piece base x y) (stop piece base a b) ≡ by_sweep result x y a b }
    {
        let sweep = self.sweep();
        if sweep.columns {
            if rect.y1.saturating_sub(rect.y0) == 1 {
                return Sweep {
                    columns: false,
                    outer: Sign::Plus,
                    inner: sweep.outer,
                };
            }
        } else {
            if rect.x1.saturating_sub(rect.x0) == 1 {
                return Sweep {
                    columns: true,
                    outer: Sign::Plus,
                    inner: sweep.outer,
                };
            }
        }
        sweep
    }
}
