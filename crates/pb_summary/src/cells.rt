ghost use Rattle.std.specs.Prelude.{◌≡◌};
ghost use Rattle.pb_summary.specs.Summary.{least_of, greatest_of, sum_of};

/// The least of some cells, 0 where there are none.
pub(crate) fn least(cells: &[i64]) -> i64
    ensures { result ≡ least_of cells.now }
{
    let [first, others @ ..] = cells else {
        return 0;
    };
    let mut least = *first;
    for cell in others {
        least = least.min(*cell);
    }
    least
}

/// The greatest of some cells, 0 where there are none.
pub(crate) fn greatest(cells: &[i64]) -> i64
    ensures { result ≡ greatest_of cells.now }
{
    let [first, others @ ..] = cells else {
        return 0;
    };
    let mut greatest = *first;
    for cell in others {
        greatest = greatest.max(*cell);
    }
    greatest
}

/// The sum of some cells. A slice has fewer than 2^63 of them, so it fits.
pub(crate) fn sum(cells: &[i64]) -> i128
    ensures { result ≡ sum_of cells.now }
{
    let mut sum: i128 = 0;
    for cell in cells {
        sum += i128::from(*cell);
    }
    sum
}
