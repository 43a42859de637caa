//! Greatest values over all sizes, against known answers and against a plain search.
ghost use Rattle.std.specs.Prelude.{◌≡◌, ◌^◌, ◌≤◌, All, unsigned_abs};
ghost use Rattle.pb_linear.specs.Sizes.{IsRanges};

use pb_linear::{Form, OverLimit, Ranges, SIZE_TOP, Sizes, SymBox, VForm};

/// A form over one variable: the constant, and the coefficients of the variable, its half, its third and its quarter.
fn form(constant: i64, whole: i64, half: i64, third: i64, quarter: i64) -> Form
    requires constant { unsigned_abs constant ≤ 2 ^ 26 }
    requires whole { unsigned_abs whole ≤ 2 ^ 26 }
    requires half { unsigned_abs half ≤ 2 ^ 26 }
    requires third { unsigned_abs third ≤ 2 ^ 26 }
    requires quarter { unsigned_abs quarter ≤ 2 ^ 26 }
{
    Form {
        constant,
        whole: [whole, 0, 0, 0, 0, 0, 0, 0],
        half: [half, 0, 0, 0, 0, 0, 0, 0],
        third: [third, 0, 0, 0, 0, 0, 0, 0],
        quarter: [quarter, 0, 0, 0, 0, 0, 0, 0],
    }
}

fn one_size(size: u64) -> Sizes
    requires { size ≤ 2 ^ 20 }
    ensures { All (λ entry. entry ≤ 2 ^ 20) result.of }
{
    Sizes {
        count: 1,
        of: [size, 0, 0, 0, 0, 0, 0, 0],
    }
}

fn from(least: u64) -> Ranges
    requires { least ≤ 2 ^ 20 }
    ensures { IsRanges result }
{
    Ranges {
        count: 1,
        least: [least, 0, 0, 0, 0, 0, 0, 0],
    }
}

/// The greatest value and the least size that reaches it, by a look at every size.
fn searched(form: &Form, least: u64) -> (i64, u64)
    requires { least ≤ 2 ^ 20 }
{
    let mut best = (form.at(&one_size(least)), least);
    for size in least..SIZE_TOP + 1 {
        let value = form.at(&one_size(size));
        if best.0 < value {
            best = (value, size);
        }
    }
    best
}

/// The greatest value and the size at which it is reached.
fn answered(form: &Form, least: u64) -> (i64, u64)
    requires { least ≤ 2 ^ 20 }
{
    let (value, sizes) = form.most(&from(least));
    (value, sizes.of[0])
}

#[test]
fn known_greatest_values(rt: HostRuntime) {
    assert_eq!(rt; answered(&form(0, 0, 1, -1, 0), 1), (174_763, 1_048_574));
    assert_eq!(rt; answered(&form(-1_048_575, 1, 0, 0, 0), 1), (1, 1_048_576));
    assert_eq!(rt; answered(&form(2, -1, 0, 0, 0), 1), (1, 1));
    assert_eq!(rt; answered(&form(-2, 1, 0, 0, 0), 1), (1_048_574, 1_048_576));
}

#[test]
fn at_most_zero_everywhere(rt: HostRuntime) {
    assert!(rt; !form(-1_048_575, 1, 0, 0, 0).everywhere_le0(&from(1)));
    assert!(rt; form(-1_048_576, 1, 0, 0, 0).everywhere_le0(&from(1)));
}

#[test]
fn short_ranges_as_searched(rt: HostRuntime) {
    for count in [1u64, 12, 23, 24, 25] {
        for code in 0..81u8 {
            let whole = i64::from(code % 3) - 1;
            let half = i64::from(code / 3 % 3) - 1;
            let third = i64::from(code / 9 % 3) - 1;
            let quarter = i64::from(code / 27) - 1;
            let tried = form(0, whole, half, third, quarter);
            let least = SIZE_TOP + 1 - count;
            assert_eq!(rt; answered(&tried, least), searched(&tried, least));
        }
    }
}

#[test]
fn first_number_over_the_limit(rt: HostRuntime) {
    let top = 67_108_864;
    let full = form(top, top, 0, top, 0);
    assert_eq!(rt;
        full.add(&form(0, 1, 0, 2, 0)),
        Err(OverLimit {
            coefficient: 67_108_865
        })
    );
    assert_eq!(rt;
        full.sub(&form(0, 0, 0, -2, 0)),
        Err(OverLimit {
            coefficient: 67_108_866
        })
    );
    assert_eq!(rt;
        form(0, 0, -1, 0, 1).scale(i64::MIN),
        Err(OverLimit {
            coefficient: 1 << 63
        })
    );
    assert_eq!(rt; full.sub(&full), Ok(form(0, 0, 0, 0, 0)));
}

#[test]
fn worst_over_an_area(rt: HostRuntime) {
    let zero = form(0, 0, 0, 0, 0);
    let form_over_places = VForm {
        x: 2,
        y: -3,
        rest: form(0, 1, 0, 0, 0),
    };
    let area = SymBox {
        x0: form(1, 0, 0, 0, 0),
        x1: form(0, 1, 0, 0, 0),
        y0: zero,
        y1: form(0, 0, 1, 0, 0),
    };
    assert_eq!(rt; form_over_places.worst(&area), Ok(form(-2, 3, 0, 0, 0)));
    assert_eq!(rt; form_over_places.at(&one_size(10), 9, 0), 28);
}

#[test]
fn sizes_that_ranges_hold(rt: HostRuntime) {
    assert!(rt; from(5).hold(&one_size(5)));
    assert!(rt; !from(5).hold(&one_size(4)));
    assert!(rt; from(5).hold(&one_size(SIZE_TOP)));
}
