ghost use Rattle.std.specs.Prelude.{◌≡◌, ℕ, ◌^◌, ◌<◌, ◌≤◌, IsTrue, ℤ, pos, ◌+ℤ◌, ◌*ℤ◌, ◌≤ℤ◌, IfOk, List, [], ◌∷◌, unsigned_abs};
ghost use Rattle.std.specs.List.{list_all};
ghost use Rattle.std.specs.Result.{result_err};
ghost use Rattle.pb_linear.specs.Limits.{is_number};
ghost use Rattle.pb_linear.specs.Numbers.{first_over, refusal, row_combination};

use crate::form::{Form, NUMBER_TOP, OverLimit};
use crate::sizes::{SIZE_TOP, Sizes};

/// A form over sizes and over the rule variables x and y.
#[derive(Clone, Copy, PartialEq, Eq, Debug)]
pub struct VForm {
    pub x: i64,
    pub y: i64,
    pub rest: Form,
}

/// An area of places (x, y) at all sizes: x from `x0` to before `x1`, y from `y0` to before `y1`.
#[derive(Clone, Copy, PartialEq, Eq, Debug)]
pub struct SymBox {
    pub x0: Form,
    pub x1: Form,
    pub y0: Form,
    pub y1: Form,
}

/// What is put in the place of a rule variable: the coefficients of a form, and a constant of its
/// own.
#[derive(Clone, Copy)]
pub(crate) struct End {
    pub(crate) constant: i64,
    pub(crate) form: Form,
    pub ghost near: { unsigned_abs constant ≤ 2 ^ 27 },
}

impl VForm {
    ghost use Rattle.pb_linear.specs.Form.{HasNumbers, numbers, value};
    ghost use Rattle.std.specs.Prelude.{All};
    ghost use Rattle.pb_linear.specs.Sizes.{sizes_of};
    ghost use Rattle.pb_linear.specs.VForm.{InArea, Reaches, end_numbers, put_numbers, value_at, worst_numbers};

    /// The value at sizes, and at values of x and y of at most 2^23 in absolute value.
    pub fn at(&self, s: &Sizes, x: i64, y: i64) -> i64
        requires sizes { All (λ size. size ≤ SIZE_TOP) s.now.of }
        requires x_coefficient { unsigned_abs self.now.x ≤ 2 ^ 26 }
        requires y_coefficient { unsigned_abs self.now.y ≤ 2 ^ 26 }
        requires x { unsigned_abs x ≤ 2 ^ 23 }
        requires y { unsigned_abs y ≤ 2 ^ 23 }
        ensures { result ≡ value_at self.now (sizes_of s.now) x y }
    {
        self.rest.at(s) + (term(&self.x, &x) + term(&self.y, &y))
    }

    /// The form with each variable put at the end of the area that makes the value greatest.
    pub fn worst(&self, area: &SymBox) -> Result<Form, OverLimit>
        ensures numbers { IfOk result (HasNumbers (worst_numbers self.now area.now)) }
        ensures over_limit { result_err result ≡ refusal (worst_numbers self.now area.now) }
        ensures greatest { IfOk result (λ f. (sizes : List ℕ) (x y : ℤ) → InArea area.now sizes x y
            → value_at self.now sizes x y ≤ℤ value f sizes) }
        ensures reached { IfOk result (λ f. (sizes : List ℕ) (x y : ℤ) → InArea area.now sizes x y
            → Reaches self.now area.now sizes (value f sizes)) }
    {
        self.put(
            &End::end_for(&self.x, &area.x0, &area.x1),
            &End::end_for(&self.y, &area.y0, &area.y1),
        )
    }

    /// The form with ends put in the place of x and y; refused where a number passes the limit.
    pub(crate) fn put(&self, x: &End, y: &End) -> Result<Form, OverLimit>
        ensures numbers { IfOk result (HasNumbers (put_numbers self.now (end_numbers x.now) (end_numbers y.now))) }
        ensures over_limit { result_err result ≡ refusal (put_numbers self.now (end_numbers x.now) (end_numbers y.now)) }
    {
        Ok(Form {
            constant: self.put_constant(x, y)?,
            whole: self.put_row(&self.rest.whole, &x.form.whole, &y.form.whole)?,
            half: self.put_row(&self.rest.half, &x.form.half, &y.form.half)?,
            third: self.put_row(&self.rest.third, &x.form.third, &y.form.third)?,
            quarter: self.put_row(&self.rest.quarter, &x.form.quarter, &y.form.quarter)?,
        })
    }

    /// The constant of `put`.
    fn put_constant(&self, x: &End, y: &End) -> Result<i64, OverLimit>
        ensures value { IfOk result
            (λ n. n ≡ (put_numbers self.now (end_numbers x.now) (end_numbers y.now)).constant) }
        ensures small { IfOk result (λ n. IsTrue (is_number n)) }
        ensures over_limit { result_err result
            ≡ first_over ((put_numbers self.now (end_numbers x.now) (end_numbers y.now)).constant ∷ []) }
    {
        within_limit(self.put_number(&self.rest.constant, &x.constant, &y.constant))
    }

    /// A row of `put`.
    #[tactic(auto, using(crate::proofs::Rows::row_steps))]
    fn put_row(&self, rest: &[i64; 8], x: &[i64; 8], y: &[i64; 8]) -> Result<[i64; 8], OverLimit>
        requires rest { IsTrue (list_all is_number rest.now) }
        requires x { IsTrue (list_all is_number x.now) }
        requires y { IsTrue (list_all is_number y.now) }
        ensures value { IfOk result (λ row. row ≡ row_combination rest.now self.now.x x.now self.now.y y.now) }
        ensures small { IfOk result (λ row. IsTrue (list_all is_number row)) }
        ensures over_limit { result_err result
            ≡ first_over (row_combination rest.now self.now.x x.now self.now.y y.now) }
    {
        let mut row = [0; 8];
        for i in 0..8usize {
            row[i] = within_limit(self.put_number(&rest[i], &x[i], &y[i]))?;
        }
        Ok(row)
    }

    /// A number of `put`.
    fn put_number(&self, rest: &i64, x: &i64, y: &i64) -> i128
        requires rest { unsigned_abs rest.now ≤ 2 ^ 27 }
        requires x { unsigned_abs x.now ≤ 2 ^ 27 }
        requires y { unsigned_abs y.now ≤ 2 ^ 27 }
        ensures { result ≡ rest.now +ℤ (self.now.x *ℤ x.now +ℤ self.now.y *ℤ y.now) }
    {
        i128::from(*rest) + product(&self.x, x) + product(&self.y, y)
    }
}

impl End {
    ghost use Rattle.pb_linear.specs.VForm.{end_numbers, worst_end};

    /// The end of an area at which a variable with this coefficient makes a value greatest.
    fn end_for(coefficient: &i64, lower: &Form, upper: &Form) -> Self
        ensures { end_numbers result ≡ worst_end coefficient.now lower.now upper.now }
    {
        if 0 < *coefficient {
            Self {
                constant: upper.constant - 1,
                form: *upper,
            }
        } else {
            Self {
                constant: lower.constant,
                form: *lower,
            }
        }
    }
}

/// A coefficient times the value of its variable.
fn term(coefficient: &i64, variable: &i64) -> i64
    requires coefficient { unsigned_abs coefficient.now ≤ 2 ^ 26 }
    requires variable { unsigned_abs variable.now ≤ 2 ^ 23 }
    ensures value { result ≡ coefficient.now *ℤ variable.now }
    ensures near { unsigned_abs result ≤ 2 ^ 49 }
{
    *coefficient * *variable
}

/// A multiple of a form's number.
fn product(k: &i64, number: &i64) -> i128
    requires { unsigned_abs number.now ≤ 2 ^ 27 }
    ensures { result ≡ k.now *ℤ number.now }
{
    i128::from(*k) * i128::from(*number)
}

/// The number, if a form may hold it.
fn within_limit(number: i128) -> Result<i64, OverLimit>
    ensures value { IfOk result (λ n. n ≡ number) }
    ensures small { IfOk result (λ n. IsTrue (is_number n)) }
    ensures over_limit { result_err result ≡ first_over (number ∷ []) }
{
    if number < -NUMBER_TOP || NUMBER_TOP < number {
        return Err(OverLimit {
            coefficient: number,
        });
    }
    Ok(number as i64)
}
