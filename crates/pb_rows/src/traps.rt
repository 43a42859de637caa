//! Runs that end in a trap: each kind, in rules for single cells and in others.
use crate::examples::{DIV, DOUBLE, ROLL};
use crate::run::End::Trapped;
use crate::run::{Rows, all_hold};
use std::test::Fail;

// What overflows in a rule for single cells.
const OVERFLOWING_ROWS: Rows = &[
    (
        "run --pool serial p - Double a",
        &[("p", DOUBLE), ("a", "matrix 2\n1 9223372036854775807\n")],
        Trapped("T Overflow: Double.B (1,0), by Double rule 0 (1,0)\n"),
    ),
    (
        "run --pool serial p c RollingSum a",
        &[
            ("p", ROLL),
            ("c", "choose RollingSum.B {0,1} = 1"),
            ("a", "matrix 3\n9223372036854775807 1 5\n"),
        ],
        Trapped("T Overflow: RollingSum.B (1,0), by RollingSum rule 1 (1,0)\n"),
    ),
    // A partial sum counts, also where the sum of all would be within 64 bits.
    (
        "run --pool serial p - Sum a",
        &[
            (
                "p",
                "transform Sum from A[n] to B[n] { to (B.cell(i) b) from (A a) { if (i > 0) { b = sum(a); } } }",
            ),
            ("a", "matrix 3\n9223372036854775807 1 -5\n"),
        ],
        Trapped("T Overflow: Sum.B (1,0), by Sum rule 0 (1,0)\n"),
    ),
    // A product of `dot`, and a sum of products that each are within 64 bits.
    (
        "run --pool serial p - Square a",
        &[
            (
                "p",
                "transform Square from A[n] to B[n] { to (B.cell(i) b) from (A.region(0, i + 1) a) { b = dot(a, a); } }",
            ),
            ("a", "matrix 2\n3 4294967296\n"),
        ],
        Trapped("T Overflow: Square.B (1,0), by Square rule 0 (1,0)\n"),
    ),
    (
        "run --pool serial p - Square a",
        &[
            (
                "p",
                "transform Square from A[n] to B[n] { to (B.cell(i) b) from (A.region(0, i + 1) a) { b = dot(a, a); } }",
            ),
            ("a", "matrix 3\n1 2147483648 2147483648\n"),
        ],
        Trapped("T Overflow: Square.B (2,0), by Square rule 0 (2,0)\n"),
    ),
    // The least number, negated, made positive, and divided by -1.
    (
        "run --pool serial p - T a",
        &[
            (
                "p",
                "transform T from A[n] to B[n] { to (B.cell(i) b) from (A.cell(i) a) { b = - a; } }",
            ),
            ("a", "matrix 2\n9223372036854775807 -9223372036854775808\n"),
        ],
        Trapped("T Overflow: T.B (1,0), by T rule 0 (1,0)\n"),
    ),
    (
        "run --pool serial p - T a",
        &[
            (
                "p",
                "transform T from A[n] to B[n] { to (B.cell(i) b) from (A.cell(i) a) { b = abs(a); } }",
            ),
            ("a", "matrix 2\n-9223372036854775807 -9223372036854775808\n"),
        ],
        Trapped("T Overflow: T.B (1,0), by T rule 0 (1,0)\n"),
    ),
    (
        "run --pool serial p - Div a d",
        &[
            ("p", DIV),
            ("a", "matrix 2\n-9223372036854775808 -9223372036854775808\n"),
            ("d", "matrix 2\n1 -1\n"),
        ],
        Trapped("T Overflow: Div.Q (1,0), by Div rule 0 (1,0)\n"),
    ),
    (
        "run --pool serial p - Rest a d",
        &[
            (
                "p",
                "transform Rest from A[n], D[n] to R[n] { to (R.cell(i) r) from (A.cell(i) a, D.cell(i) d) { r = a % d; } }",
            ),
            ("a", "matrix 2\n-9223372036854775808 -9223372036854775808\n"),
            ("d", "matrix 2\n2 -1\n"),
        ],
        Trapped("T Overflow: Rest.R (1,0), by Rest rule 0 (1,0)\n"),
    ),
    // Operands go from left to right, so the sum is met before the quotient.
    (
        "run --pool serial p - T a",
        &[
            (
                "p",
                "transform T from A[n] to B[n] { to (B.cell(i) b) from (A.cell(i) a) { b = a + 1 + 1 / 0; } }",
            ),
            ("a", "matrix 1\n9223372036854775807\n"),
        ],
        Trapped("T Overflow: T.B (0,0), by T rule 0 (0,0)\n"),
    ),
];

// A hundred cells, and a divisor of 0 at two places.
const TENS: &str = "matrix 100
10 10 10 10 10 10 10 10 10 10 10 10 10 10 10 10 10 10 10 10
10 10 10 10 10 10 10 10 10 10 10 10 10 10 10 10 10 10 10 10
10 10 10 10 10 10 10 10 10 10 10 10 10 10 10 10 10 10 10 10
10 10 10 10 10 10 10 10 10 10 10 10 10 10 10 10 10 10 10 10
10 10 10 10 10 10 10 10 10 10 10 10 10 10 10 10 10 10 10 10
";

const DIVISORS: &str = "matrix 100
1 1 1 0 1 1 1 1 1 1 1 1 1 1 1 1 1 1 1 1
1 1 1 1 1 1 1 1 1 1 1 1 1 1 1 1 1 1 1 1
1 1 1 1 1 1 1 1 1 1 1 1 1 1 1 1 1 1 1 1
1 1 1 1 1 1 1 1 1 1 1 1 1 1 1 1 1 1 1 1
1 1 1 1 1 1 1 1 1 1 0 1 1 1 1 1 1 1 1 1
";

// The other kinds in a rule for single cells.
const SINGLE_ROWS: Rows = &[
    (
        "run --grain 8 --pool serial --workers 4 p - Div a d",
        &[("p", DIV), ("a", TENS), ("d", DIVISORS)],
        Trapped("T DivideByZero: Div.Q (3,0), by Div rule 0 (3,0)\n"),
    ),
    (
        "run --pool serial p - Rest a d",
        &[
            (
                "p",
                "transform Rest from A[w,h], D[w,h] to R[w,h] { to (R.cell(x,y) r) from (A.cell(x,y) a, D.cell(x,y) d) { r = a % d; } }",
            ),
            ("a", "matrix 2 2\n1 2\n3 4\n"),
            ("d", "matrix 2 2\n5 6\n0 0\n"),
        ],
        Trapped("T DivideByZero: Rest.R (0,1), by Rest rule 0 (0,1)\n"),
    ),
    // Views are counted from their own first cells.
    (
        "run --pool serial p - Next a",
        &[
            (
                "p",
                "transform Next from A[n] to B[n] { to (B.cell(i) b) from (A.region(i, n) a) { b = a.cell(1); } }",
            ),
            ("a", "matrix 3\n1 2 3\n"),
        ],
        Trapped("T OutOfView: Next.B (2,0), by Next rule 0 (2,0)\n"),
    ),
    (
        "run --pool serial p - Before a",
        &[
            (
                "p",
                "transform Before from A[w,h] to B[w,h] { to (B.cell(x,y) b) from (A a) { b = a.cell(x, 1 - y); } }",
            ),
            ("a", "matrix 2 3\n1 2\n3 4\n5 6\n"),
        ],
        Trapped("T OutOfView: Before.B (0,2), by Before rule 0 (0,2)\n"),
    ),
    // One turn too many; and ends whose difference needs more than 64 bits.
    (
        "run --pool serial p - Turns a",
        &[
            (
                "p",
                "transform Turns from A[n] to B[n] { to (B.cell(i) b) from (A.cell(i) a) { for (k = 0 .. a) { b = b + 1; } } }",
            ),
            ("a", "matrix 2\n1048576 1048577\n"),
        ],
        Trapped("T LoopLimit: Turns.B (1,0), by Turns rule 0 (1,0)\n"),
    ),
    (
        "run --pool serial p - Turns a",
        &[
            (
                "p",
                "transform Turns from A[n] to B[n] { to (B.cell(i) b) from (A.cell(i) a) { for (k = a .. 9223372036854775807) { b = k; } } }",
            ),
            ("a", "matrix 2\n9223372036854775800 -9223372036854775808\n"),
        ],
        Trapped("T LoopLimit: Turns.B (1,0), by Turns rule 0 (1,0)\n"),
    ),
    // Other numbers of cells, which come before a product that is too large.
    (
        "run --pool serial p - Products a d",
        &[
            (
                "p",
                "transform Products from A[n], D[m] to B[n] { to (B.cell(i) b) from (A.region(0, i + 1) a, D d) { b = dot(a, d); } }",
            ),
            ("a", "matrix 2\n3 4\n"),
            ("d", "matrix 1\n5\n"),
        ],
        Trapped("T BadShape: Products.B (1,0), by Products rule 0 (1,0)\n"),
    ),
    (
        "run --pool serial p - Products a d",
        &[
            (
                "p",
                "transform Products from A[n], D[m] to B[n] { to (B.cell(i) b) from (A.region(0, i + 1) a, D d) { b = dot(a, d); } }",
            ),
            ("a", "matrix 2\n9223372036854775807 1\n"),
            ("d", "matrix 2\n9223372036854775807 1\n"),
        ],
        Trapped("T BadShape: Products.B (0,0), by Products rule 0 (0,0)\n"),
    ),
];

#[test]
fn a_rule_for_single_cells_traps_at_its_cell(rt: HostRuntime) -> Result<(), Fail> {
    all_hold(&rt, rt.alloc(), OVERFLOWING_ROWS)?;
    all_hold(&rt, rt.alloc(), SINGLE_ROWS)
}

// The kinds in rules for regions and whole matrices: all that the rule makes is trapped.
const WIDE_ROWS: Rows = &[
    // What was set before the trap counts for nothing.
    (
        "run --pool serial p - Raise a",
        &[
            (
                "p",
                "transform Raise from A[w,h] to B[w,h] { to (B.region(0, h/2, w, h) b) from (A a) { b.cell(0, 0) = 5; b.cell(0, 0) = a.cell(0, 0) + 1; } secondary to (B.cell(x,y) b) from (A.cell(x,y) a) { b = a; } }",
            ),
            ("a", "matrix 2 3\n9223372036854775807 2\n3 4\n5 6\n"),
        ],
        Trapped("T Overflow: Raise.B (0,1), by Raise rule 0 (0,1)\n"),
    ),
    (
        "run --pool serial p - Shares a",
        &[
            (
                "p",
                "transform Shares from A[n] to B[n] { to (B b) from (A a) { for (k = 0 .. n) { b.cell(k) = 10 / a.cell(k); } } }",
            ),
            ("a", "matrix 3\n1 2 0\n"),
        ],
        Trapped("T DivideByZero: Shares.B (0,0), by Shares rule 0 (0,0)\n"),
    ),
    (
        "run --pool serial p - Inside a",
        &[
            (
                "p",
                "transform Inside from A[w,h] to B[w,h] { to (B.region(1, 1, w, h) b) from () { b.cell(w - 1, 0) = 1; } secondary to (B.cell(x,y) b) from (A.cell(x,y) a) { b = a; } }",
            ),
            ("a", "matrix 3 2\n1 2 3\n4 5 6\n"),
        ],
        Trapped("T OutOfView: Inside.B (1,1), by Inside rule 0 (1,1)\n"),
    ),
    (
        "run --pool serial p - Turns a",
        &[
            (
                "p",
                "transform Turns from A[n] to B[n] { to (B.region(n/2, n) b) from (A a) { for (k = 0 .. a.cell(0)) { } } secondary to (B.cell(i) b) from (A.cell(i) a) { b = a; } }",
            ),
            ("a", "matrix 5\n1048577 0 0 0 0\n"),
        ],
        Trapped("T LoopLimit: Turns.B (2,0), by Turns rule 0 (2,0)\n"),
    ),
    (
        "run --pool serial p - Products a",
        &[
            (
                "p",
                "transform Products from A[n] to B[n] { to (B.region(1, n) b) from (A a) { b.cell(0) = dot(a, b); } to (B.cell(0) c) from () { c = 7; } }",
            ),
            ("a", "matrix 2\n3 4\n"),
        ],
        Trapped("T BadShape: Products.B (1,0), by Products rule 0 (1,0)\n"),
    ),
    // In an assignment the coordinates come first, then the right side, and then whether the place is there.
    (
        "run --pool serial p - T a",
        &[
            (
                "p",
                "transform T from A[n] to B[n] { to (B b) from (A a) { b.cell(n) = 1 / 0; } }",
            ),
            ("a", "matrix 1\n1\n"),
        ],
        Trapped("T DivideByZero: T.B (0,0), by T rule 0 (0,0)\n"),
    ),
    (
        "run --pool serial p - T a",
        &[
            (
                "p",
                "transform T from A[n] to B[n] { to (B b) from (A a) { b.cell(a.cell(n)) = 1 / 0; } }",
            ),
            ("a", "matrix 1\n1\n"),
        ],
        Trapped("T OutOfView: T.B (0,0), by T rule 0 (0,0)\n"),
    ),
    // The trap stands at the first output's corner, and the first matrix is told.
    (
        "run --pool serial p - Halves a",
        &[
            (
                "p",
                "transform Halves from A[n] to U[n], V[n] { to (V.region(1, n) v, U u) from (A a) { u.cell(0) = 12 / a.cell(0); } to (V.cell(0) v) from () { } }",
            ),
            ("a", "matrix 2\n0 5\n"),
        ],
        Trapped("T DivideByZero: Halves.U (0,0), by Halves rule 0 (1,0)\n"),
    ),
];

#[test]
fn a_rule_for_more_cells_traps_at_the_corner_of_its_first_output(
    rt: HostRuntime,
) -> Result<(), Fail> {
    all_hold(&rt, rt.alloc(), WIDE_ROWS)
}
