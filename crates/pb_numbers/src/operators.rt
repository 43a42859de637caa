ghost use Rattle.std.specs.Prelude.{◌≡◌, ◌+ℤ◌, ◌*ℤ◌, not, pos};
ghost use Rattle.pb_values.specs.Checked.{checked_result, quotient, remainder};
ghost use Rattle.pb_model.specs.Bodies.{greater, is_zero, lesser, operated, related, signed_by, truth};
ghost use Rattle.pb_numbers.specs.Deciding.{decided};

use crate::kind_word::{KindWord, in_words};
use pb_syntax::{Operator, Relation, UnarySign};
use pb_values::{Kind, add, div, neg, rem, sub};

/// A number that is written; `Kind::Overflow` where it is greater than the greatest of 64 bits with a sign.
pub fn number(value: u64) -> Result<i64, KindWord>
    ensures { result ≡ checked_result (pos value) }
{
    if value > i64::MAX as u64 {
        return Err(KindWord::of(Kind::Overflow));
    }
    Ok(value as i64)
}

/// The sum of two numbers; `Kind::Overflow` where it is outside `i64`.
pub fn plus(left: i64, right: i64) -> Result<i64, KindWord>
    ensures { result ≡ checked_result (left +ℤ right) }
{
    in_words(add(left, right))
}

/// The product of two numbers; `Kind::Overflow` where it is outside `i64`.
pub fn times(left: i64, right: i64) -> Result<i64, KindWord>
    ensures { result ≡ checked_result (left *ℤ right) }
{
    // One multiplication, which `checked_mul` makes two of.
    match i64::try_from(left as i128 * right as i128) {
        Ok(product) => Ok(product),
        Err(_) => Err(KindWord::of(Kind::Overflow)),
    }
}

/// The quotient of two numbers, truncated toward zero, or the kind of its trap. It is that of the numbers without their signs, with the
/// sign that it should have: small numbers without a sign are divided faster.
fn over(left: i64, right: i64) -> Result<i64, KindWord>
    ensures { result ≡ quotient left right }
{
    let size = left.unsigned_abs();
    let by = right.unsigned_abs();
    if by == 0 || size > i64::MAX as u64 {
        return in_words(div(left, right));
    }
    let number = (size / by) as i64;
    if (left < 0) == (right < 0) {
        return Ok(number);
    }
    Ok(-number)
}

/// The remainder of a division truncated toward zero, or the kind of its trap: that of the numbers without their signs, with the sign of
/// `left`.
fn modulo(left: i64, right: i64) -> Result<i64, KindWord>
    ensures { result ≡ remainder left right }
{
    let size = left.unsigned_abs();
    let by = right.unsigned_abs();
    if by == 0 || size > i64::MAX as u64 {
        return in_words(rem(left, right));
    }
    let number = (size % by) as i64;
    if left < 0 {
        return Ok(-number);
    }
    Ok(number)
}

/// What an operator of a product or a sum gives, or the kind of its trap; of `&&` and `||` the right side as it is, which is what
/// they give where the left side doesn't decide.
pub fn operate(operator: Operator, left: i64, right: i64) -> Result<i64, KindWord>
    ensures { result ≡ operated operator left right }
{
    match operator {
        Operator::Times => times(left, right),
        Operator::Over => over(left, right),
        Operator::Modulo => modulo(left, right),
        Operator::Plus => plus(left, right),
        Operator::Minus => in_words(sub(left, right)),
        Operator::And | Operator::Or => Ok(right),
    }
}

/// What `&&` and `||` are where the left side alone decides; none where the right side is to be looked at.
pub fn decided(operator: Operator, left: i64) -> Option<i64>
    ensures { result ≡ decided operator left }
{
    match operator {
        Operator::And if left == 0 => Some(0),
        Operator::Or if left != 0 => Some(1),
        _ => None,
    }
}

/// A truth as a number.
fn truth(is_so: bool) -> i64
    ensures { result ≡ truth is_so }
{
    if is_so { 1 } else { 0 }
}

/// Whether two numbers are so related, as a number.
pub fn compare(left: i64, relation: Relation, right: i64) -> i64
    ensures { result ≡ truth (related left relation right) }
{
    truth(match relation {
        Relation::Less => left < right,
        Relation::LessOrEqual => left <= right,
        Relation::Greater => left > right,
        Relation::GreaterOrEqual => left >= right,
        Relation::Equal => left == right,
        Relation::Unequal => left != right,
    })
}

/// A number after its sign; `Kind::Overflow` for the least number after `-`.
pub fn negated(sign: UnarySign, value: i64) -> Result<i64, KindWord>
    ensures { result ≡ signed_by sign value }
{
    match sign {
        UnarySign::Minus => in_words(neg(value)),
        UnarySign::Not => Ok(truth(value == 0)),
    }
}

/// The lesser of two numbers.
pub fn lesser(left: i64, right: i64) -> i64
    ensures { result ≡ lesser left right }
{
    if left <= right { left } else { right }
}

/// The greater of two numbers.
pub fn greater(left: i64, right: i64) -> i64
    ensures { result ≡ greater left right }
{
    if left <= right { right } else { left }
}

/// Whether a number stands for what is true.
pub fn is_true(value: i64) -> bool
    ensures { result ≡ not (is_zero value) }
{
    value != 0
}
