ghost use Rattle.std.specs.Prelude.{◌≡◌, ◌+◌, ◌≤◌, ◌++◌, ◌∷◌, length, drop, flat_map, OnOk, IsTrue, All};
ghost use Rattle.std.specs.Fmt.{signed_decimal};
ghost use Rattle.pb_values.specs.Checked.{fits_i64};

use itoa::write_digits;
use std::alloc::AllocError;

// So many numbers are put into a buffer at once.
const CELLS_AT_ONCE: usize = 48;

/// How many bytes they take at most, with a blank before each.
pub(crate) const BYTES_AT_ONCE: usize = 1008;

// Puts a number so that it ends at a place of a buffer, and tells where it begins.
fn put_number(number: i64, buffer: &mut [u8; BYTES_AT_ONCE], end: usize) -> usize
    requires room { 20 ≤ end }
    requires end { end ≤ BYTES_AT_ONCE }
    ensures short { end ≤ result + 20 }
    ensures begins { result ≤ end }
    ensures written { drop result buffer.new ≡ signed_decimal number ++ drop end buffer.old }
{
    let start = write_digits(number.unsigned_abs(), buffer, end);
    // It is put in any case, since the sign can't be guessed; what stands before the place that is told doesn't matter.
    buffer[start - 1] = b'-';
    if number < 0 {
        return start - 1;
    }
    start
}

// Puts numbers at the end of a buffer, from the last to the first, each after a blank. Tells where the first blank stands.
fn put_numbers(numbers: &[i64], buffer: &mut [u8; BYTES_AT_ONCE]) -> usize
    requires { length numbers.now ≤ CELLS_AT_ONCE }
    ensures within { result ≤ BYTES_AT_ONCE }
    ensures written { drop result buffer.new ≡ flat_map (λ z. 32 ∷ signed_decimal z) numbers.now }
    ensures fits { All (λ z. IsTrue (fits_i64 z)) numbers.now }
{
    let mut at = BYTES_AT_ONCE;
    for k in 0..numbers.len() {
        at = put_number(numbers[numbers.len() - 1 - k], buffer, at) - 1;
        buffer[at] = b' ';
    }
    at
}

/// Writes numbers, each after a blank, by way of a buffer.
pub(crate) fn write_numbers(
    text: &mut Vec<u8>,
    numbers: &[i64],
    buffer: &mut [u8; BYTES_AT_ONCE],
) -> Result<(), AllocError>
    ensures text { OnOk result (text.new.items ≡ text.old.items ++ flat_map (λ z. 32 ∷ signed_decimal z) numbers.now) }
    ensures fits { OnOk result (All (λ z. IsTrue (fits_i64 z)) numbers.now) }
{
    let mut rest = numbers;
    while !rest.is_empty() {
        let (some, after) = rest.split_at(rest.len().min(CELLS_AT_ONCE));
        let start = put_numbers(some, buffer);
        text.extend_from_slice(&buffer[start..])?;
        rest = after;
    }
    Ok(())
}
