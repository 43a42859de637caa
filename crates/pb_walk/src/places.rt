ghost use Rattle.std.specs.Prelude.{◌≡◌, ◌<◌, false, IfNone, IfSome};
ghost use Rattle.pb_values.specs.Views.{HasPlace};
ghost use Rattle.pb_walk.specs.Cursors.{IsBegun, IsMoved, steps_of};
ghost use Rattle.pb_walk.specs.Stretches.{IsAtLast, IsLine};
ghost use Rattle.pb_walk.specs.Sweeps.{IsFirstPlace, IsLastPlace, IsNextPlace};

use crate::course::{Course, Sweep};
use crate::cursor::Cursor;
use crate::numbers::{Span, first_number, left_from, next_pair};
use crate::stretch::Stretch;
use pb_links::Spot;
use pb_values::Rect;

fn next_place(sweep: Sweep, rect: Rect, x: u64, y: u64) -> Option<(u64, u64)>
    requires { HasPlace rect x y }
    ensures found { IfSome result (λ next. IsNextPlace sweep rect x y next) }
    ensures none { IfNone result (IsLastPlace sweep rect x y) }
{
    let columns = Span {
        low: rect.x0,
        high: rect.x1,
    };
    let rows = Span {
        low: rect.y0,
        high: rect.y1,
    };
    if sweep.columns {
        return next_pair(sweep.outer, sweep.inner, columns, rows, x, y);
    }
    match next_pair(sweep.outer, sweep.inner, rows, columns, y, x) {
        Some((y, x)) => Some((x, y)),
        None => None,
    }
}

fn first_place(sweep: Sweep, rect: Rect) -> (u64, u64)
    requires across { rect.x0 < rect.x1 }
    requires down { rect.y0 < rect.y1 }
    ensures { IsFirstPlace sweep rect result }
{
    let columns = Span {
        low: rect.x0,
        high: rect.x1,
    };
    let rows = Span {
        low: rect.y0,
        high: rect.y1,
    };
    if sweep.columns {
        (
            first_number(sweep.outer, columns),
            first_number(sweep.inner, rows),
        )
    } else {
        (
            first_number(sweep.inner, columns),
            first_number(sweep.outer, rows),
        )
    }
}

impl Cursor {
    /// A rectangle before its first place.
    pub(crate) fn begin(course: Course, spot: Spot) -> Cursor
        ensures spot { result.spot ≡ spot }
        ensures begun { IsBegun (steps_of course) result }
    {
        let rect = spot.rect;
        if rect.x0 >= rect.x1 || rect.y0 >= rect.y1 {
            return Cursor {
                spot,
                x: 0,
                y: 0,
                done: true,
            };
        }
        let (x, y) = first_place(course.sweep(), rect);
        Cursor {
            spot,
            x,
            y,
            done: false,
        }
    }

    /// The same rectangle after its next place, which is there.
    pub(crate) fn after(self, course: Course) -> Cursor
        requires { self.done ≡ false }
        ensures { IsMoved (steps_of course) self result }
    {
        match next_place(course.sweep(), self.spot.rect, self.x, self.y) {
            Some((x, y)) => Cursor {
                spot: self.spot,
                x,
                y,
                done: false,
            },
            None => Cursor {
                spot: self.spot,
                x: self.x,
                y: self.y,
                done: true,
            },
        }
    }

    /// From its next place on along the line, inside the rectangle: to the end of the line.
    pub(crate) fn line(self, sweep: Sweep, piece: usize) -> Stretch
        requires { self.done ≡ false }
        ensures { IsLine sweep piece self result }
    {
        let rect = self.spot.rect;
        let columns = Span {
            low: rect.x0,
            high: rect.x1,
        };
        let rows = Span {
            low: rect.y0,
            high: rect.y1,
        };
        let (across, at, span) = if sweep.columns {
            (self.x, self.y, rows)
        } else {
            (self.y, self.x, columns)
        };
        Stretch {
            piece,
            base: self.spot.base,
            down: sweep.columns,
            across,
            at,
            sign: sweep.inner,
            count: left_from(sweep.inner, span, at),
        }
    }

    /// The same rectangle before the last place of a stretch along its line.
    pub(crate) fn at_last(self, sweep: Sweep, piece: usize, stretch: &Stretch) -> Cursor
        requires { IsLine sweep piece self stretch.now }
        ensures { IsAtLast self stretch.now result }
    {
        let (x, y) = stretch.place(stretch.count - 1);
        Cursor {
            spot: self.spot,
            x,
            y,
            done: false,
        }
    }
}
