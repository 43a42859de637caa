ghost use Rattle.std.specs.Prelude.{◌≡◌, ◌+ℤ◌, ◌*ℤ◌, ◌≤◌, ◌^◌, ◌+◌, IsTrue, nat_lt, unsigned_abs};

// Products of numbers of this size, and sums of as many as a view may have cells, fit in 64 bits.
const SMALL: u64 = 1_048_576;

const TWICE_SMALL: u64 = 2_097_152;

/// A number as it counts from `-SMALL`.
fn above(number: i64) -> u64
    ensures { IsTrue (nat_lt result 2097152) → unsigned_abs number ≤ 2 ^ 20 }
{
    number.cast_unsigned().wrapping_add(SMALL)
}

/// Whether four numbers are small, told by one test: each is from -2^20 to 2^20 - 1.
pub fn are_small(a: i64, b: i64, c: i64, d: i64) -> bool
    ensures a { IsTrue result → unsigned_abs a ≤ 2 ^ 20 }
    ensures b { IsTrue result → unsigned_abs b ≤ 2 ^ 20 }
    ensures c { IsTrue result → unsigned_abs c ≤ 2 ^ 20 }
    ensures d { IsTrue result → unsigned_abs d ≤ 2 ^ 20 }
{
    (above(a) | above(b)) | (above(c) | above(d)) < TWICE_SMALL
}

/// A sum with two products of small numbers added to it.
pub fn plus_small_products(total: i64, a: i64, b: i64, c: i64, d: i64) -> i64
    requires total { unsigned_abs total ≤ 2 ^ 62 }
    requires a { unsigned_abs a ≤ 2 ^ 20 }
    requires b { unsigned_abs b ≤ 2 ^ 20 }
    requires c { unsigned_abs c ≤ 2 ^ 20 }
    requires d { unsigned_abs d ≤ 2 ^ 20 }
    ensures sum { result ≡ total +ℤ a *ℤ b +ℤ c *ℤ d }
    ensures small { unsigned_abs result ≤ unsigned_abs total + 2 ^ 41 }
{
    total + (a * b + c * d)
}
