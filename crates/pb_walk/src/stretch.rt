ghost use Rattle.pb_walk.specs.Axes.{AreThere};

use pb_linear::Sign;

/// Places of a rectangle in a line, one after another: the number of the rectangle, the number of its matrix, and `count` places from
/// the number `at` on, to greater numbers or to smaller ones. They lie in the column with the number `across` where the line goes
/// `down`, and else in the row with that number.
#[derive(Clone, Copy)]
pub struct Stretch {
    pub piece: usize,
    pub base: u32,
    pub down: bool,
    pub across: u64,
    pub at: u64,
    pub sign: Sign,
    pub count: u64,
    pub ghost there: { AreThere sign at count },
}

impl Stretch {
    ghost use Rattle.std.specs.Prelude.{◌≡◌, ◌<◌};
    ghost use Rattle.pb_walk.specs.Stretches.{IsFirstAlone, place_on};

    /// The place that is `i` further than the first.
    #[inline(always)]
    pub fn place(&self, i: u64) -> (u64, u64)
        requires { i < self.now.count }
        ensures x { result.0 ≡ (place_on self.now i).x }
        ensures y { result.1 ≡ (place_on self.now i).y }
    {
        let number = match self.sign {
            Sign::Plus => self.at + i,
            Sign::Minus => self.at - i,
        };
        if self.down {
            (self.across, number)
        } else {
            (number, self.across)
        }
    }

    /// Its first place alone.
    pub(crate) fn first(&self) -> Stretch
        requires { 0 < self.now.count }
        ensures { IsFirstAlone self.now result }
    {
        Stretch {
            piece: self.piece,
            base: self.base,
            down: self.down,
            across: self.across,
            at: self.at,
            sign: self.sign,
            count: 1,
        }
    }
}
