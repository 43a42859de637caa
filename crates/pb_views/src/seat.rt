use pb_program::ReadView;
use pb_values::{Rect, Shape, View};

/// Where a matrix stands: in a rectangle of the matrix of a run with the number `base`, whose cells begin at `first` and whose rows
/// have `row` cells each. Turned, what lies down in the rectangle goes across. No argument of a call is copied: what a view shows of
/// a matrix is seated in the matrix where that one is.
#[derive(Clone, Copy, Debug, PartialEq, Eq)]
pub struct Seat {
    pub base: u32,
    pub first: u64,
    pub row: u64,
    pub rect: Rect,
    pub turned: bool,
}

impl Seat {
    ghost use Rattle.std.specs.Prelude.{◌≡◌, false, if◌then◌else◌};
    ghost use Rattle.pb_values.specs.Views.{Shows};
    ghost use Rattle.pb_views.specs.Seats.{IsSmall, LiesWithin, across, cell_at, down, part_seat};

    /// Of a matrix with cells of its own, row by row from `first` on.
    pub fn whole(base: u32, first: u64, w: u64, h: u64) -> Seat
        ensures { result ≡ record { base = base; first = first; row = w; rect = record { x0 = 0; y0 = 0; x1 = w; y1 = h }; turned = false } }
    {
        Seat {
            base,
            first,
            row: w,
            rect: Rect {
                x0: 0,
                y0: 0,
                x1: w,
                y1: h,
            },
            turned: false,
        }
    }

    /// How many cells go across.
    pub fn across(&self) -> u64
        ensures { result ≡ across self.now }
    {
        let rect = &self.rect;
        if self.turned {
            rect.y1.saturating_sub(rect.y0)
        } else {
            rect.x1.saturating_sub(rect.x0)
        }
    }

    /// How many cells go down.
    pub fn down(&self) -> u64
        ensures { result ≡ down self.now }
    {
        let rect = &self.rect;
        if self.turned {
            rect.x1.saturating_sub(rect.x0)
        } else {
            rect.y1.saturating_sub(rect.y0)
        }
    }

    /// Where what a view shows stands, in this rectangle of the matrix; a column is turned.
    pub fn part(&self, view: ReadView, r: &Rect) -> Seat
        requires small { IsSmall self.now }
        requires lies { LiesWithin self.now r.now }
        ensures { result ≡ part_seat view self.now r.now }
    {
        let rect = &self.rect;
        let placed = if self.turned {
            Rect {
                x0: rect.x0 + r.y0,
                y0: rect.y0 + r.x0,
                x1: rect.x0 + r.y1,
                y1: rect.y0 + r.x1,
            }
        } else {
            Rect {
                x0: rect.x0 + r.x0,
                y0: rect.y0 + r.y0,
                x1: rect.x0 + r.x1,
                y1: rect.y0 + r.y1,
            }
        };
        let is_turning = match view {
            ReadView::Column => true,
            _ => false,
        };
        Seat {
            base: self.base,
            first: self.first,
            row: self.row,
            rect: placed,
            turned: if is_turning {
                !self.turned
            } else {
                self.turned
            },
        }
    }

    /// From a cell to the next across.
    fn step_across(&self) -> u64
        ensures { result ≡ (if self.now.turned then self.now.row else 1) }
    {
        if self.turned { self.row } else { 1 }
    }

    /// From a cell to the next down.
    fn step_down(&self) -> u64
        ensures { result ≡ (if self.now.turned then 1 else self.now.row) }
    {
        if self.turned { 1 } else { self.row }
    }

    /// Its cells, as a view of so many dimensions.
    pub fn view(&self, dims: u8) -> View
        requires small { IsSmall self.now }
        ensures { Shows result (record { dims = dims; w = across self.now; h = down self.now }) (λ x y. cell_at self.now x y) }
    {
        let rect = &self.rect;
        View {
            first: self.first + (rect.y0 * self.row + rect.x0),
            step_x: self.step_across(),
            step_y: self.step_down(),
            shape: Shape {
                dims,
                w: self.across(),
                h: self.down(),
            },
        }
    }
}
