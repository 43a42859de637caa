ghost use Rattle.std.specs.Prelude.{◌≡◌, ◌^◌, ◌<◌, ◌≤◌, ◌+◌, ◌*◌, ℤ, pos, ◌+ℤ◌, unsigned_abs, IsTrue, true, if◌then◌else◌};
ghost use Rattle.std.specs.List.{list_all};
ghost use Rattle.pb_names.specs.Bounds.{is_within};
ghost use Rattle.pb_names.specs.Sums.{add_to};

use pb_linear::{Form, VForm};
use pb_program::{Coordinate, Meaning};

/// A sum of terms, as they are collected: so many terms, each of at most 2^20.
#[derive(Drop)]
pub(crate) struct Sum {
    terms: u64,
    x: i64,
    y: i64,
    constant: i64,
    whole: [i64; 8],
    half: [i64; 8],
    third: [i64; 8],
    quarter: [i64; 8],
    quotient: bool,
    ghost small_x: { IsTrue (is_within terms x) },
    ghost small_y: { IsTrue (is_within terms y) },
    ghost small_constant: { IsTrue (is_within terms constant) },
    ghost small_whole: { IsTrue (list_all (is_within terms) whole) },
    ghost small_half: { IsTrue (list_all (is_within terms) half) },
    ghost small_third: { IsTrue (list_all (is_within terms) third) },
    ghost small_quarter: { IsTrue (list_all (is_within terms) quarter) },
}

/// A number of a sum with one more term.
#[tactic(auto, using(pb_names::proofs::SumLemmas::within_added))]
fn plus(number: &i64, d: i64, terms: u64) -> i64
    requires terms { terms < 2 ^ 20 }
    requires small { IsTrue (is_within terms number.now) }
    requires d { unsigned_abs d ≤ 2 ^ 20 }
    ensures added { result ≡ number.now +ℤ d }
    ensures small { IsTrue (is_within (terms + 1) result) }
{
    *number + d
}

/// Adds to a coefficient of a row.
#[tactic(auto, using(pb_names::proofs::SumLemmas::row_more, pb_names::proofs::SumLemmas::row_set, pb_names::proofs::SumLemmas::row_at))]
fn add_to(mut row: [i64; 8], k: u32, d: i64, terms: u64) -> [i64; 8]
    requires terms { terms < 2 ^ 20 }
    requires small { IsTrue (list_all (is_within terms) row) }
    requires d { unsigned_abs d ≤ 2 ^ 20 }
    ensures added { result ≡ add_to row k d }
    ensures small { IsTrue (list_all (is_within (terms + 1)) result) }
{
    if k < 8 {
        row[k as usize] = plus(&row[k as usize], d, terms);
    }
    row
}

/// Adds to a coefficient of a row, if it is the right one.
#[tactic(auto, using(pb_names::proofs::SumLemmas::row_more))]
fn add_if(right: bool, row: [i64; 8], k: u32, d: i64, terms: u64) -> [i64; 8]
    requires terms { terms < 2 ^ 20 }
    requires small { IsTrue (list_all (is_within terms) row) }
    requires d { unsigned_abs d ≤ 2 ^ 20 }
    ensures added { result ≡ (if right then add_to row k d else row) }
    ensures small { IsTrue (list_all (is_within (terms + 1)) result) }
{
    if right {
        return add_to(row, k, d, terms);
    }
    row
}

impl Sum {
    ghost use Rattle.pb_program.specs.Forms.{nothing};
    ghost use Rattle.pb_names.specs.Sums.{add_named, add_number};
    ghost use Rattle.pb_resolve.specs.SumValue.{value_of};

    /// The sum of no terms.
    pub(crate) fn new() -> Sum
        ensures value { value_of result ≡ nothing }
        ensures terms { result.terms ≡ 0 }
    {
        Sum {
            terms: 0,
            x: 0,
            y: 0,
            constant: 0,
            whole: [0; 8],
            half: [0; 8],
            third: [0; 8],
            quarter: [0; 8],
            quotient: false,
        }
    }

    /// With one more number.
    #[tactic(auto, using(pb_names::proofs::SumLemmas::within_more, pb_names::proofs::SumLemmas::row_more))]
    pub(crate) fn with_number(self, d: i64) -> Sum
        requires terms { self.terms < 2 ^ 20 }
        requires d { unsigned_abs d ≤ 2 ^ 20 }
        ensures value { value_of result ≡ add_number (value_of self) d }
        ensures terms { result.terms ≡ self.terms + 1 }
    {
        let Sum {
            terms,
            x,
            y,
            constant,
            whole,
            half,
            third,
            quarter,
            quotient,
        } = self;
        Sum {
            terms: terms + 1,
            x,
            y,
            constant: plus(&constant, d, terms),
            whole,
            half,
            third,
            quarter,
            quotient,
        }
    }

    /// With so much more of what a name names, or of its half, third or quarter.
    pub(crate) fn with_named(self, what: Meaning, quotient: u8, d: i64) -> Sum
        requires terms { self.terms < 2 ^ 20 }
        requires d { unsigned_abs d ≤ 2 ^ 20 }
        ensures value { value_of result ≡ add_named (value_of self) what quotient d }
        ensures terms { result.terms ≤ self.terms + 1 }
    {
        match what {
            Meaning::Size(k) => self.with_size(k, quotient, d),
            Meaning::RuleX => {
                if quotient == 0 {
                    self.with_x(d)
                } else {
                    self.with_quotient()
                }
            }
            Meaning::RuleY => {
                if quotient == 0 {
                    self.with_y(d)
                } else {
                    self.with_quotient()
                }
            }
            _ => self,
        }
    }

    #[tactic(auto, using(pb_names::proofs::SumLemmas::within_more, pb_names::proofs::SumLemmas::row_more))]
    fn with_x(self, d: i64) -> Sum
        requires terms { self.terms < 2 ^ 20 }
        requires d { unsigned_abs d ≤ 2 ^ 20 }
        ensures value { value_of result ≡ record (value_of self) { x = self.x +ℤ d } }
        ensures terms { result.terms ≡ self.terms + 1 }
    {
        let Sum {
            terms,
            x,
            y,
            constant,
            whole,
            half,
            third,
            quarter,
            quotient,
        } = self;
        Sum {
            terms: terms + 1,
            x: plus(&x, d, terms),
            y,
            constant,
            whole,
            half,
            third,
            quarter,
            quotient,
        }
    }

    #[tactic(auto, using(pb_names::proofs::SumLemmas::within_more, pb_names::proofs::SumLemmas::row_more))]
    fn with_y(self, d: i64) -> Sum
        requires terms { self.terms < 2 ^ 20 }
        requires d { unsigned_abs d ≤ 2 ^ 20 }
        ensures value { value_of result ≡ record (value_of self) { y = self.y +ℤ d } }
        ensures terms { result.terms ≡ self.terms + 1 }
    {
        let Sum {
            terms,
            x,
            y,
            constant,
            whole,
            half,
            third,
            quarter,
            quotient,
        } = self;
        Sum {
            terms: terms + 1,
            x,
            y: plus(&y, d, terms),
            constant,
            whole,
            half,
            third,
            quarter,
            quotient,
        }
    }

    fn with_quotient(self) -> Sum
        ensures value { value_of result ≡ record (value_of self) { quotient = true } }
        ensures terms { result.terms ≡ self.terms }
    {
        let Sum {
            terms,
            x,
            y,
            constant,
            whole,
            half,
            third,
            quarter,
            quotient,
        } = self;
        Sum {
            terms,
            x,
            y,
            constant,
            whole,
            half,
            third,
            quarter,
            quotient: true,
        }
    }

    ghost use Rattle.pb_names.specs.Sums.{add_size};

    #[tactic(auto, using(pb_names::proofs::SumLemmas::within_more, pb_names::proofs::SumLemmas::row_more))]
    fn with_size(self, k: u32, part: u8, d: i64) -> Sum
        requires terms { self.terms < 2 ^ 20 }
        requires d { unsigned_abs d ≤ 2 ^ 20 }
        ensures value { value_of result ≡ record (value_of self) { rest = add_size ((value_of self).rest) k part d } }
        ensures terms { result.terms ≡ self.terms + 1 }
    {
        let Sum {
            terms,
            x,
            y,
            constant,
            whole,
            half,
            third,
            quarter,
            quotient,
        } = self;
        let whole = add_if(part == 0, whole, k, d, terms);
        let half = add_if(part == 2, half, k, d, terms);
        let third = add_if(part == 3, third, k, d, terms);
        let other = part != 0 && part != 2 && part != 3;
        let quarter = add_if(other, quarter, k, d, terms);
        Sum {
            terms: terms + 1,
            x,
            y,
            constant,
            whole,
            half,
            third,
            quarter,
            quotient,
        }
    }

    /// The coordinate that a sum of at most 8 terms is.
    #[tactic(auto, using(pb_names::proofs::SumLemmas::within_number, pb_names::proofs::SumLemmas::row_numbers))]
    pub(crate) fn into_coordinate(self) -> Coordinate
        requires { self.terms ≤ 8 }
        ensures { result ≡ value_of self }
    {
        let Sum {
            terms: _,
            x,
            y,
            constant,
            whole,
            half,
            third,
            quarter,
            quotient,
        } = self;
        let rest = Form {
            constant,
            whole,
            half,
            third,
            quarter,
        };
        Coordinate {
            form: VForm { x, y, rest },
            quotient,
        }
    }
}
