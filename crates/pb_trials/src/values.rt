//! Operations of bodies at their edges, and views of views.
ghost use Rattle.std.specs.Prelude.{◌≡◌};

use pb_values::{Kind, Rect, Shape, View, abs, add, div, mul, neg, rem, sub};

const LEAST: i64 = i64::MIN;

const MOST: i64 = i64::MAX;

const OVERFLOW: Result<i64, Kind> = Err(Kind::Overflow);

const ZERO: Result<i64, Kind> = Err(Kind::DivideByZero);

// Of each row what an operation gives, and what it should.
fn edges() -> [(Result<i64, Kind>, Result<i64, Kind>); 9] {
    [
        (add(MOST, 1), OVERFLOW),
        (sub(LEAST, 1), OVERFLOW),
        (mul(MOST, -1), Ok(-MOST)),
        (mul(LEAST, -1), OVERFLOW),
        (mul(3_037_000_500, 3_037_000_500), OVERFLOW),
        (neg(LEAST), OVERFLOW),
        (neg(MOST), Ok(-MOST)),
        (abs(LEAST), OVERFLOW),
        (abs(-7), Ok(7)),
    ]
}

#[test]
fn numbers_are_exact_up_to_their_edges(rt: HostRuntime) {
    for (found, expected) in edges() {
        assert_eq!(rt; found, expected);
    }
}

// Of each row the numbers, their quotient and their remainder.
const DIVIDED: [(i64, i64, Result<i64, Kind>, Result<i64, Kind>); 8] = [
    (7, 2, Ok(3), Ok(1)),
    (-7, 2, Ok(-3), Ok(-1)),
    (7, -2, Ok(-3), Ok(1)),
    (-7, -2, Ok(3), Ok(-1)),
    (0, -5, Ok(0), Ok(0)),
    (5, 0, ZERO, ZERO),
    (LEAST, -1, OVERFLOW, OVERFLOW),
    (LEAST, 1, Ok(LEAST), Ok(0)),
];

#[test]
fn quotients_are_truncated_toward_zero(rt: HostRuntime) {
    for (a, b, quotient, remainder) in DIVIDED {
        assert_eq!(rt; div(a, b), quotient, "{a} / {b}");
        assert_eq!(rt; rem(a, b), remainder, "{a} % {b}");
    }
}

fn shape(w: u64, h: u64) -> Shape
    ensures { result ≡ record { dims = 2; w = w; h = h } }
{
    Shape { dims: 2, w, h }
}

#[test]
fn a_view_of_a_view_shows_the_same_cells(rt: HostRuntime) {
    // Five columns and four rows from cell 100 on.
    let whole = View::whole(100, shape(5, 4));
    assert_eq!(rt; whole.place(4, 3), 119);
    let inner = whole.region(&Rect {
        x0: 1,
        y0: 1,
        x1: 5,
        y1: 4,
    });
    assert_eq!(rt; inner.place(0, 0), 106);
    let corner = inner.region(&Rect {
        x0: 2,
        y0: 1,
        x1: 4,
        y1: 3,
    });
    assert_eq!(rt; corner.place(1, 1), 119);
    let row = corner.row(1);
    assert_eq!(rt; row.place(0, 0), 118);
    let column = inner.column(3);
    assert_eq!(rt; (column.place(0, 0), column.place(2, 0)), (109, 119));
}

#[test]
fn common_places_of_rectangles(rt: HostRuntime) {
    let a = Rect {
        x0: 0,
        y0: 2,
        x1: 5,
        y1: 9,
    };
    let b = Rect {
        x0: 3,
        y0: 0,
        x1: 8,
        y1: 4,
    };
    assert_eq!(rt;
        a.meet(&b),
        Rect {
            x0: 3,
            y0: 2,
            x1: 5,
            y1: 4
        }
    );
    assert_eq!(rt; shape(3, 4).cells(), 12);
}
