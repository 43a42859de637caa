ghost use Rattle.std.specs.Prelude.{◌≡◌, ◌+ℤ◌, ◌≤ℤ◌, ◌<◌, ◌≤◌, pos};

use pb_values::Kind;

/// The most turns of a loop.
const MOST_TURNS: u64 = 1_048_576;

/// The numbers of a loop: so many from the lowest on.
#[derive(Clone, Copy)]
pub(crate) struct Turns {
    pub(crate) low: i64,
    pub(crate) count: u64,
    pub(crate) ghost small: { (low +ℤ pos count) ≤ℤ pos 9223372036854775807 },
    pub(crate) ghost few: { count ≤ 1048576 },
}

impl Turns {
    ghost use Rattle.std.specs.Prelude.{IfOk};
    ghost use Rattle.pb_model.specs.Bodies.{turns};
    ghost use Rattle.pb_statements.specs.Turns.{count_of};

    /// From a number to before another; where there are too many turns, the trap.
    pub(crate) fn new(low: i64, high: i64) -> Result<Turns, Kind>
        ensures count { count_of result ≡ turns low high }
        ensures low { IfOk result (λ t. t.low ≡ low) }
    {
        if high <= low {
            return Ok(Turns { low, count: 0 });
        }
        let count = high.abs_diff(low);
        if count > MOST_TURNS {
            return Err(Kind::LoopLimit);
        }
        Ok(Turns { low, count })
    }

    /// The number of a turn, counted from 0.
    pub(crate) fn number(&self, k: u64) -> i64
        requires { k < self.now.count }
        ensures { result ≡ self.now.low +ℤ pos k }
    {
        self.low + k as i64
    }
}
