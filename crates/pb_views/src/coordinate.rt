ghost use Rattle.std.specs.Prelude.{◌≡◌, ◌+◌, ◌^◌, ◌≤◌, ◌+ℤ◌, ◌*ℤ◌, ◌≤ℤ◌, pos, unsigned_abs};
ghost use Rattle.std.specs.List.{All};
ghost use Rattle.pb_linear.specs.Sizes.{sizes_of};
ghost use Rattle.pb_views.specs.Lines.{IsLine, line_at};

use crate::line::Line;
use pb_linear::{SIZE_TOP, Sizes};
use pb_program::Coordinate;

fn term(coefficient: i64, place: u64) -> i64
    requires coefficient { unsigned_abs coefficient ≤ 2 ^ 26 }
    requires place { place ≤ 2 ^ 23 }
    ensures value { result ≡ coefficient *ℤ pos place }
    ensures near { unsigned_abs result ≤ 2 ^ 49 }
{
    coefficient * place as i64
}

fn plus(a: i64, b: i64) -> i64
    requires left { unsigned_abs a ≤ 2 ^ 52 }
    requires right { unsigned_abs b ≤ 2 ^ 52 }
    ensures value { result ≡ a +ℤ b }
    ensures near { unsigned_abs result ≤ unsigned_abs a + unsigned_abs b }
{
    a + b
}

impl Line {
    /// A coordinate at sizes of at most `SIZE_TOP`. The coefficients of the rule variables are at most 2^26 in absolute value.
    pub fn new(coordinate: &Coordinate, sizes: &Sizes) -> Line
        requires sizes { All (λ size. size ≤ SIZE_TOP) sizes.now.of }
        requires x { unsigned_abs coordinate.now.x ≤ 2 ^ 26 }
        requires y { unsigned_abs coordinate.now.y ≤ 2 ^ 26 }
        ensures { IsLine coordinate.now (sizes_of sizes.now) result }
    {
        Line {
            x: coordinate.form.x,
            y: coordinate.form.y,
            rest: coordinate.form.rest.at(sizes),
        }
    }

    /// The value at rule variables of at most 2^23.
    fn at(&self, x: u64, y: u64) -> i64
        requires x { x ≤ 2 ^ 23 }
        requires y { y ≤ 2 ^ 23 }
        ensures value { result ≡ line_at self.now (pos x) (pos y) }
        ensures near { unsigned_abs result ≤ 2 ^ 53 }
    {
        plus(self.rest, plus(term(self.x, x), term(self.y, y)))
    }

    /// The value at rule variables of at most 2^23, where it isn't negative.
    pub fn place(&self, x: u64, y: u64) -> u64
        requires x { x ≤ 2 ^ 23 }
        requires y { y ≤ 2 ^ 23 }
        requires natural { pos 0 ≤ℤ line_at self.now (pos x) (pos y) }
        ensures value { pos result ≡ line_at self.now (pos x) (pos y) }
        ensures near { result ≤ 2 ^ 53 }
    {
        self.at(x, y) as u64
    }
}
