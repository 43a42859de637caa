ghost use Rattle.std.specs.Prelude.{◌≡◌, ◌+◌, ◌*◌, min};
ghost use Rattle.pb_recursion.specs.Counts.{both, matrix_of, nothing, one_more};
ghost use Rattle.pb_counts.specs.Tallies.{capped, counted};
ghost use Rattle.pb_model.specs.Cells.{natural};

/// The greatest number of a tally. It is above every limit of a run, so that a tally tells whether a limit is passed.
pub const TALLY_TOP: u64 = 1 << 40;

/// How many calls there are, the greatest side of a matrix, and how many cells there are; each at most `TALLY_TOP`, which
/// stands for every greater number.
#[derive(Clone, Copy, PartialEq, Eq, Debug)]
pub struct Tally {
    pub calls: u64,
    pub side: u64,
    pub cells: u64,
}

/// A side, 0 in the place of a negative one.
pub(crate) fn natural(side: i64) -> u64
    ensures { result ≡ natural side }
{
    if side < 0 { 0 } else { side as u64 }
}

/// How many cells there are, up to the top.
fn cells(w: u64, h: u64) -> u64
    ensures { result ≡ min (w * h) TALLY_TOP }
{
    let product = u128::from(w) * u128::from(h);
    product.min(u128::from(TALLY_TOP)) as u64
}

/// The sum, up to the top.
fn sum(a: u64, b: u64) -> u64
    ensures { result ≡ min (a + b) TALLY_TOP }
{
    a.saturating_add(b).min(TALLY_TOP)
}

impl Tally {
    /// Of nothing.
    pub fn nothing() -> Tally
        ensures { counted result ≡ capped nothing }
    {
        Tally {
            calls: 0,
            side: 0,
            cells: 0,
        }
    }

    /// Of one call, without its matrices.
    pub fn one_call() -> Tally
        ensures { counted result ≡ capped one_more }
    {
        Tally {
            calls: 1,
            side: 0,
            cells: 0,
        }
    }

    /// Of a matrix with this width and height; a negative side counts as 0.
    pub fn of_matrix(sides: (i64, i64)) -> Tally
        ensures { counted result ≡ capped (matrix_of sides) }
    {
        let (w, h) = (natural(sides.0), natural(sides.1));
        Tally {
            calls: 0,
            side: w.max(h).min(TALLY_TOP),
            cells: cells(w, h),
        }
    }

    /// Of both: the sums of the calls and of the cells, and the greater side.
    pub fn both(self, other: Tally) -> Tally
        ensures { counted result ≡ capped (both (counted self) (counted other)) }
    {
        Tally {
            calls: sum(self.calls, other.calls),
            side: self.side.max(other.side).min(TALLY_TOP),
            cells: sum(self.cells, other.cells),
        }
    }
}
