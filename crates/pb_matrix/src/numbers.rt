ghost use Rattle.std.specs.Prelude.{◌≡◌, ◌^◌, ◌≤◌, IfSome, neg_ℤ, pos};
ghost use Rattle.pb_matrix.specs.Words.{cell_number};
ghost use Rattle.pb_matrix.specs.Digits.{magnitude};

// Another digit after a larger number would pass 2^63.
const MOST_BEFORE_DIGIT: u64 = 922_337_203_685_477_580;

const MOST: u64 = 1 << 63;

/// The number that digits spell, up to 2^63; None for another byte, or for no byte.
#[inline]
#[tactic(auto, using(crate::proofs::DigitLemmas::digit_too_many_at))]
pub(crate) fn read_digits(word: &[u8]) -> Option<u64>
    ensures value { result ≡ magnitude word.now }
    ensures most { IfSome result (λ value. value ≤ 2 ^ 63) }
{
    if word.is_empty() {
        return None;
    }
    let mut value: u64 = 0;
    for byte in word {
        if !byte.is_ascii_digit() {
            return None;
        }
        if value > MOST_BEFORE_DIGIT {
            return None;
        }
        value = value * 10 + (*byte - b'0') as u64;
    }
    if value > MOST { None } else { Some(value) }
}

#[inline]
pub(crate) fn negated(value: u64) -> i64
    requires { value ≤ 2 ^ 63 }
    ensures { result ≡ neg_ℤ (pos value) }
{
    if value == MOST {
        i64::MIN
    } else {
        -(value as i64)
    }
}

/// The number of 64 bits that a word spells: digits, maybe after a `-`.
#[inline]
pub(crate) fn read_number(word: &[u8]) -> Option<i64>
    ensures { result ≡ cell_number word.now }
{
    match word {
        [b'-', digits @ ..] => {
            let value = read_digits(digits)?;
            Some(negated(value))
        }
        digits => i64::try_from(read_digits(digits)?).ok(),
    }
}
