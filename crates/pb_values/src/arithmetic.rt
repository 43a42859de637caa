ghost use Rattle.std.specs.Prelude.{◌≡◌, ◌+ℤ◌, ◌-ℤ◌, ◌*ℤ◌, pos, neg_ℤ, unsigned_abs};
ghost use Rattle.pb_values.specs.Checked.{checked_result, quotient, remainder};

use crate::outcome::Kind;

/// The sum of two numbers; `Kind::Overflow` exactly where it is outside `i64`.
pub fn add(a: i64, b: i64) -> Result<i64, Kind>
    ensures { result ≡ checked_result (a +ℤ b) }
{
    a.checked_add(b).ok_or(Kind::Overflow)
}

/// The difference of two numbers; `Kind::Overflow` exactly where it is outside `i64`.
pub fn sub(a: i64, b: i64) -> Result<i64, Kind>
    ensures { result ≡ checked_result (a -ℤ b) }
{
    a.checked_sub(b).ok_or(Kind::Overflow)
}

/// The product of two numbers; `Kind::Overflow` exactly where it is outside `i64`.
pub fn mul(a: i64, b: i64) -> Result<i64, Kind>
    ensures { result ≡ checked_result (a *ℤ b) }
{
    a.checked_mul(b).ok_or(Kind::Overflow)
}

/// The quotient of two numbers, truncated toward zero; `Kind::DivideByZero` where the divisor is 0, `Kind::Overflow` for
/// the least number by -1.
pub fn div(a: i64, b: i64) -> Result<i64, Kind>
    ensures { result ≡ quotient a b }
{
    if b == 0 {
        return Err(Kind::DivideByZero);
    }
    a.checked_div(b).ok_or(Kind::Overflow)
}

/// The remainder of a division truncated toward zero, with the sign of `a`; `Kind::DivideByZero` where the divisor is 0,
/// `Kind::Overflow` for the least number by -1.
pub fn rem(a: i64, b: i64) -> Result<i64, Kind>
    ensures { result ≡ remainder a b }
{
    if b == 0 {
        return Err(Kind::DivideByZero);
    }
    a.checked_rem(b).ok_or(Kind::Overflow)
}

/// The number with its sign turned; `Kind::Overflow` for the least number.
pub fn neg(a: i64) -> Result<i64, Kind>
    ensures { result ≡ checked_result (neg_ℤ a) }
{
    a.checked_neg().ok_or(Kind::Overflow)
}

/// The number without its sign; `Kind::Overflow` for the least number.
pub fn abs(a: i64) -> Result<i64, Kind>
    ensures { result ≡ checked_result (pos (unsigned_abs a)) }
{
    a.checked_abs().ok_or(Kind::Overflow)
}
