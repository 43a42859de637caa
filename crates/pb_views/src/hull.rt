ghost use Rattle.std.specs.Prelude.{◌≡◌, ◌<◌, ◌≤◌, ◌^◌, pos};
ghost use Rattle.pb_region.specs.Within.{IsWithin};
ghost use Rattle.pb_views.specs.Hulls.{AreWithin, hull_of, joined};
ghost use Rattle.pb_views.specs.Windows.{IsRect, shown_by};
ghost use Rattle.pb_program.specs.Areas.{Area};

use crate::window::Window;
use pb_values::{Rect, View};

/// The least rectangle around two.
#[tactic(auto, using(crate::proofs::HullLemmas::joined_rect))]
fn join(a: &Rect, b: &Rect) -> Rect
    ensures { (p q : Area) → IsRect p a.now → IsRect q b.now → IsRect (joined p q) result }
{
    Rect {
        x0: a.x0.min(b.x0),
        y0: a.y0.min(b.y0),
        x1: a.x1.max(b.x1),
        y1: a.y1.max(b.y1),
    }
}

impl Window {
    /// The least rectangle around all that the view shows of a matrix for the corner cells of a part, which has a cell and ends
    /// at 2^23 or before, and at whose corners the view lies within the matrix.
    pub fn hull(&self, matrix: &View, part: &Rect) -> Rect
        requires wide { part.now.x0 < part.now.x1 }
        requires tall { part.now.y0 < part.now.y1 }
        requires right { part.now.x1 ≤ 2 ^ 23 }
        requires high { part.now.y1 ≤ 2 ^ 23 }
        requires within { AreWithin self.now matrix.now part.now }
        ensures { IsRect (hull_of self.now matrix.now part.now) result }
    {
        let (right, high) = (part.x1 - 1, part.y1 - 1);
        let first = self.rect(matrix, part.x0, part.y0);
        let second = self.rect(matrix, right, part.y0);
        let third = self.rect(matrix, part.x0, high);
        let fourth = self.rect(matrix, right, high);
        join(&join(&first, &second), &join(&third, &fourth))
    }
}
