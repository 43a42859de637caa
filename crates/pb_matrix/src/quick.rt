ghost use Rattle.std.specs.Prelude.{◌≡◌, ◌^◌, ◌<◌, length, Some, IfSome};
ghost use Rattle.std.specs.List.{before_first, after_first};
ghost use Rattle.pb_matrix.specs.Digits.{magnitude};
ghost use Rattle.pb_matrix.specs.Words.{is_gap, cell_number};

use crate::numbers::negated;
use crate::words::{Cut, cuts};

// Another digit after a smaller number keeps it below 2^63.
const ROOM_FOR_DIGIT: u64 = 1 << 59;

// The digits with which a text begins, up to a gap, and what stands after it, told in one pass. None where the text
// begins otherwise, where no gap follows, and for some of the largest numbers.
#[inline]
#[tactic(auto, using(crate::proofs::QuickLemmas::gap_after, crate::proofs::QuickLemmas::digit_before_gap))]
fn quick_digits(text: &[u8]) -> Option<(u64, &[u8])>
    ensures value { IfSome result (λ found. magnitude (before_first is_gap text.now) ≡ Some found.0) }
    ensures most { IfSome result (λ found. found.0 < 2 ^ 63) }
    ensures after { IfSome result (λ found. found.1.now ≡ after_first is_gap text.now) }
    ensures shorter { IfSome result (λ found. length found.1.now < length text.now) }
{
    let mut value: u64 = 0;
    for (i, byte) in text.iter().enumerate() {
        if !byte.is_ascii_digit() {
            if i == 0 {
                return None;
            }
            if !cuts(Cut::AtGaps, *byte) {
                return None;
            }
            return Some((value, &text[i + 1..]));
        }
        if value >= ROOM_FOR_DIGIT {
            return None;
        }
        value = value * 10 + (*byte - b'0') as u64;
    }
    None
}

/// The number with which a text begins, up to a gap, and what stands after it, told in one pass. None where the text
/// begins otherwise, where no gap follows, and for some of the largest numbers.
#[inline]
pub(crate) fn quick_number(text: &[u8]) -> Option<(i64, &[u8])>
    ensures number { IfSome result (λ found. cell_number (before_first is_gap text.now) ≡ Some found.0) }
    ensures after { IfSome result (λ found. found.1.now ≡ after_first is_gap text.now) }
    ensures shorter { IfSome result (λ found. length found.1.now < length text.now) }
{
    if text.is_empty() {
        return None;
    }
    let minus = text[0] == b'-';
    let (value, after) = quick_digits(&text[minus as usize..])?;
    if minus {
        return Some((negated(value), after));
    }
    Some((value as i64, after))
}
