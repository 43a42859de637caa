ghost use Rattle.std.specs.Prelude.{◌≡◌, ℕ, ◌+◌, ◌*◌, ◌^◌, ◌<◌, ◌≤◌, IsTrue, ℤ, pos, ◌+ℤ◌, ◌*ℤ◌, unsigned_abs};
ghost use Rattle.std.specs.List.{list_all};
ghost use Rattle.pb_linear.specs.Limits.{is_number};

use crate::sizes::{SIZE_TOP, Sizes};

/// The greatest absolute value of a form's constant and of its coefficients.
pub(crate) const NUMBER_TOP: i128 = 1 << 26;

/// A linear form over at most 8 size variables: a constant, and for each variable the coefficients
/// of the variable itself, of its half, of its third and of its quarter, each rounded down. The
/// constant and each coefficient are at most 2^26 in absolute value.
#[derive(Clone, Copy, PartialEq, Eq, Debug)]
pub struct Form {
    pub constant: i64,
    pub whole: [i64; 8],
    pub half: [i64; 8],
    pub third: [i64; 8],
    pub quarter: [i64; 8],
    pub ghost small_constant: { IsTrue (is_number constant) },
    pub ghost small_whole: { IsTrue (list_all is_number whole) },
    pub ghost small_half: { IsTrue (list_all is_number half) },
    pub ghost small_third: { IsTrue (list_all is_number third) },
    pub ghost small_quarter: { IsTrue (list_all is_number quarter) },
}

/// A form's numbers would pass 2^26 in absolute value; this is the first that does, in the order in
/// which the fields stand.
#[derive(Clone, Copy, PartialEq, Eq, Debug)]
pub struct OverLimit {
    pub coefficient: i128,
}

impl Form {
    ghost use Rattle.std.specs.Prelude.{All};
    ghost use Rattle.pb_linear.specs.Sizes.{sizes_of};
    ghost use Rattle.pb_linear.specs.Numbers.{part_of};
    ghost use Rattle.pb_linear.specs.Form.{numbers, value};

    /// What the variable `i` adds at this size.
    pub(crate) fn part(&self, i: usize, size: u64) -> i64
        requires there { i < 8 }
        requires size { size ≤ SIZE_TOP }
        ensures value { result ≡ part_of (numbers self.now) i size }
        ensures near { unsigned_abs result ≤ 2 ^ 48 }
    {
        let whole = plus_term(0, &self.whole[i], size);
        let half = plus_term(whole, &self.half[i], size / 2);
        let third = plus_term(half, &self.third[i], size / 3);
        plus_term(third, &self.quarter[i], size / 4)
    }

    /// The form's value. Each size is at most `SIZE_TOP`.
    #[tactic(auto, using(crate::proofs::Values::at_steps))]
    pub fn at(&self, s: &Sizes) -> i64
        requires { All (λ size. size ≤ SIZE_TOP) s.now.of }
        ensures value { result ≡ value self.now (sizes_of s.now) }
        ensures near { unsigned_abs result ≤ 2 ^ 52 }
    {
        let mut sum = self.constant;
        for i in 0..8usize {
            sum += self.part(i, s.of[i]);
        }
        sum
    }
}

/// The sum with one more term, a coefficient times a quotient.
fn plus_term(sum: i64, coefficient: &i64, quotient: u64) -> i64
    requires sum { unsigned_abs sum < 2 ^ 62 }
    requires coefficient { unsigned_abs coefficient.now ≤ 2 ^ 26 }
    requires quotient { quotient ≤ 2 ^ 20 }
    ensures value { result ≡ sum +ℤ coefficient.now *ℤ pos quotient }
    ensures near { unsigned_abs result ≤ unsigned_abs sum + 2 ^ 46 }
{
    sum + *coefficient * quotient as i64
}
