//! What runs on one thread write: the examples, programs with several matrices, and matrices without cells.
use crate::examples::{BIG, BLUR2, DOUBLE, GUARD2, PREFIX, REV, ROLL};
use crate::run::End::Done;
use crate::run::{Rows, all_hold};
use std::test::Fail;

const EXAMPLE_ROWS: Rows = &[
    (
        "run --pool serial p - Double a",
        &[("p", DOUBLE), ("a", "matrix 3\n1 2 3\n")],
        Done("matrix 3\n2 4 6\n"),
    ),
    (
        "run --pool serial p - RollingSum a",
        &[("p", ROLL), ("a", "matrix 4\n1 2 3 4\n")],
        Done("matrix 4\n1 3 6 10\n"),
    ),
    (
        "run --pool serial p - Blur3 a",
        &[("p", BLUR2), ("a", "matrix 2\n5 9\n")],
        Done("matrix 2\n5 9\n"),
    ),
    (
        "run --pool serial p - Blur3 a",
        &[("p", BLUR2), ("a", "matrix 5\n3 6 9 3 1\n")],
        Done("matrix 5\n3 6 6 4 1\n"),
    ),
    // The rule with a guard applies at one size and not at the other.
    (
        "run --pool serial p - Guard a",
        &[("p", GUARD2), ("a", "matrix 1\n5\n")],
        Done("matrix 1\n0\n"),
    ),
    (
        "run --pool serial p - Guard a",
        &[("p", GUARD2), ("a", "matrix 2\n5 6\n")],
        Done("matrix 2\n5 6\n"),
    ),
    (
        "run --pool serial p - Prefix2 a",
        &[("p", PREFIX), ("a", "matrix 3 2\n1 2 3\n4 5 6\n")],
        Done("matrix 3 2\n1 3 6\n5 12 21\n"),
    ),
    (
        "run --pool serial p - Rev a",
        &[("p", REV), ("a", "matrix 3\n1 2 3\n")],
        Done("matrix 3\n3 2 1\n"),
    ),
    // A matrix between input and output, and the second transform of a program.
    (
        "run --pool serial p - Big a",
        &[("p", BIG), ("a", "matrix 2\n5 6\n")],
        Done("matrix 2\n6 7\n"),
    ),
    (
        "run --pool serial p - Bigger a",
        &[("p", BIG), ("a", "matrix 2\n-1 -2\n")],
        Done("matrix 2\n0 -1\n"),
    ),
];

// A program and an input in other layouts; and options that change nothing of what is written.
const WORDED_ROWS: Rows = &[
    (
        "run --pool serial p - Double a",
        &[
            ("p", DOUBLE),
            ("a", "\n \t\nmatrix\t2 \r\n-5\r\n\r\n4611686018427387903"),
        ],
        Done("matrix 2\n-10 9223372036854775806\n"),
    ),
    (
        "run --pool serial p - T a",
        &[
            (
                "p",
                "transform T/**/from A[n] to B[n]{to(B.cell(i)b)from(A.cell(i)a){b=a-a+a;}}// all",
            ),
            ("a", "matrix 1\n-9223372036854775808"),
        ],
        Done("matrix 1\n-9223372036854775808\n"),
    ),
    (
        "run --depth 0 --pool serial p - RollingSum a",
        &[("p", ROLL), ("a", "matrix 4\n1 2 3 4\n")],
        Done("matrix 4\n1 3 6 10\n"),
    ),
    (
        "run --grain 1 --pool serial --workers 64 p c RollingSum a",
        &[
            ("p", ROLL),
            ("c", "choose RollingSum.B {0,1} = 0 until 2 then 1"),
            ("a", "matrix 4\n1 2 3 4\n"),
        ],
        Done("matrix 4\n1 3 6 10\n"),
    ),
    (
        "run --pool serial --depth 64 --grain 1048576 p - Prefix2 a",
        &[("p", PREFIX), ("a", "matrix 3 2\n1 2 3\n4 5 6\n")],
        Done("matrix 3 2\n1 3 6\n5 12 21\n"),
    ),
    // The words after the options are files, whatever they are.
    (
        "run --pool serial - - Double --trace",
        &[("-", DOUBLE), ("--trace", "matrix 1\n4\n")],
        Done("matrix 1\n8\n"),
    ),
];

#[test]
fn a_run_writes_what_its_rules_say(rt: HostRuntime) -> Result<(), Fail> {
    all_hold(&rt, rt.alloc(), EXAMPLE_ROWS)?;
    all_hold(&rt, rt.alloc(), WORDED_ROWS)
}

// Sums from the end.
const SUFFIX: &str = "transform Suffix from A[n] to B[n] {
  to (B.cell(i) b) from (A.cell(i) a, B.cell(i + 1) r) { b = a + r; }
  secondary to (B.cell(i) b) from (A.cell(i) a) { b = a; }
}
";

// Two matrices, each made from the other.
const PAIRED: &str = "transform Pair from A[n] to U[n], V[n] {
  to (U.cell(i) u) from (V.cell(i - 1) v) { u = v + 1; }
  to (V.cell(i) v) from (U.cell(i - 1) u) { v = 2 * u; }
  secondary to (U.cell(i) u) from (A.cell(i) a) { u = a; }
  secondary to (V.cell(i) v) from (A.cell(i) a) { v = a; }
}
";

// Sums of rows, and of all rows from the last one up.
const ROWS: &str = "transform Rows from A[w,h] through M[h] to B[w,h] {
  to (M.cell(y) m) from (A.row(y) r) { m = sum(r); }
  to (B.cell(x,y) b) from (M.cell(y) m, B.cell(x, y+1) d) { b = m + d; }
  secondary to (B.cell(x,y) b) from (M.region(0, h) m) { b = sum(m); }
}
";

// The sides of a matrix, of a column and of a row.
const SIDES: &str = "transform Sides from A[w,h] to B[6] {
  to (B b) from (A a, A.column(0) c, A.row(0) r) {
    b.cell(0) = a.width(); b.cell(1) = a.height();
    b.cell(2) = c.width(); b.cell(3) = c.height();
    b.cell(4) = r.width(); b.cell(5) = r.height();
  }
}
";

const SEVERAL_ROWS: Rows = &[
    (
        "run --pool serial p - Suffix a",
        &[("p", SUFFIX), ("a", "matrix 3\n1 2 3\n")],
        Done("matrix 3\n6 5 3\n"),
    ),
    (
        "run --pool serial p - Pair a",
        &[("p", PAIRED), ("a", "matrix 3\n5 6 7\n")],
        Done("matrix 3\n5 6 11\nmatrix 3\n5 10 12\n"),
    ),
    (
        "run --pool serial p - Rows a",
        &[("p", ROWS), ("a", "matrix 2 3\n1 2\n3 4\n5 6\n")],
        Done("matrix 2 3\n31 31\n28 28\n21 21\n"),
    ),
    (
        "run --pool serial p - Sides a",
        &[("p", SIDES), ("a", "matrix 3 2\n0 0 0\n0 0 0\n")],
        Done("matrix 6\n3 2 2 1 3 1\n"),
    ),
    // The outputs of one rule lie on two matrices; what isn't set is 0.
    (
        "run --pool serial p - Halves a",
        &[
            (
                "p",
                "transform Halves from A[n] to U[n], V[n] { to (V.region(1, n) v, U u) from (A a) { u.cell(0) = 12 / a.cell(0); } to (V.cell(0) v) from () { v = v + 1; } }",
            ),
            ("a", "matrix 2\n5 0\n"),
        ],
        Done("matrix 2\n2 0\nmatrix 2\n1 0\n"),
    ),
];

// Differences of neighbours, one fewer than there are cells.
const DIFFERENCES: &str = "transform Differences from A[n] to B[n - 1] {
  to (B.cell(i) b) from (A.cell(i) p, A.cell(i + 1) q) { b = q - p; }
}
";

const ACROSS: &str = "transform Across from A[w,h] to B[w - 1, h] {
  to (B.cell(x,y) b) from (A.cell(x,y) p, A.cell(x + 1, y) q) { b = q - p; }
}
";

const MORE: &str = "transform More from A[n], E[n - 1] to B[n] {
  to (B.cell(i) b) from (A.cell(i) a, E e) { b = a + sum(e); }
}
";

const EMPTY_ROWS: Rows = &[
    (
        "run --pool serial p - Differences a",
        &[("p", DIFFERENCES), ("a", "matrix 3\n1 4 9\n")],
        Done("matrix 2\n3 5\n"),
    ),
    (
        "run --pool serial p - Differences a",
        &[("p", DIFFERENCES), ("a", "matrix 1\n5\n")],
        Done("matrix 0\n"),
    ),
    (
        "run --pool serial p - Across a",
        &[("p", ACROSS), ("a", "matrix 2 2\n1 5\n2 9\n")],
        Done("matrix 1 2\n4\n7\n"),
    ),
    (
        "run --pool serial p - Across a",
        &[("p", ACROSS), ("a", "matrix 1 2\n5\n6\n")],
        Done("matrix 0 2\n"),
    ),
    (
        "run --pool serial p - More a e",
        &[
            ("p", MORE),
            ("a", "matrix 3\n1 2 3\n"),
            ("e", "matrix 2\n10 20\n"),
        ],
        Done("matrix 3\n31 32 33\n"),
    ),
    (
        "run --pool serial p - More a e",
        &[("p", MORE), ("a", "matrix 1\n5\n"), ("e", "matrix 0\n")],
        Done("matrix 1\n5\n"),
    ),
];

#[test]
fn each_matrix_is_made_in_its_order(rt: HostRuntime) -> Result<(), Fail> {
    all_hold(&rt, rt.alloc(), SEVERAL_ROWS)?;
    all_hold(&rt, rt.alloc(), EMPTY_ROWS)
}
