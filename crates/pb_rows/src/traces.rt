//! Traces of runs on one thread: their tasks by number, with the parts of each.
use crate::examples::{BIG, BLUR2, PREFIX, REV, ROLL};
use crate::run::End::Done;
use crate::run::{Rows, all_hold};
use std::test::Fail;

const LINE_ROWS: Rows = &[
    (
        "run --pool serial --trace p c RollingSum a",
        &[
            ("p", ROLL),
            ("c", "choose RollingSum.B {0,1} = 0 until 2 then 1\n"),
            ("a", "matrix 4\n1 2 3 4\n"),
        ],
        Done(
            "matrix 4\n1 3 6 10\ntrace 2\ntask 0 call 0 block B[0,1)\ntask 1 call 0 block B[1,4)\n",
        ),
    ),
    // A segment without cells is no task.
    (
        "run --pool serial --trace p c RollingSum a",
        &[
            ("p", ROLL),
            ("c", "choose RollingSum.B {0,1} = 0 until 2 then 1\n"),
            ("a", "matrix 1\n7\n"),
        ],
        Done("matrix 1\n7\ntrace 1\ntask 0 call 0 block B[0,1)\n"),
    ),
    (
        "run --trace --pool serial p - Blur3 a",
        &[("p", BLUR2), ("a", "matrix 5\n3 6 9 3 1\n")],
        Done(
            "matrix 5\n3 6 6 4 1\ntrace 3\ntask 0 call 0 block B[0,1)\ntask 1 call 0 block B[1,4)\ntask 2 call 0 block B[4,5)\n",
        ),
    ),
    (
        "run --trace --pool serial p - Rev a",
        &[("p", REV), ("a", "matrix 3\n1 2 3\n")],
        Done("matrix 3\n3 2 1\ntrace 1\ntask 0 call 0 wide B[0,3)\n"),
    ),
    (
        "run --trace --pool serial p - Big a",
        &[("p", BIG), ("a", "matrix 2\n5 6\n")],
        Done("matrix 2\n6 7\ntrace 2\ntask 0 call 0 block T[0,4)\ntask 1 call 0 block B[0,2)\n"),
    ),
    // The last cell is made first.
    (
        "run --trace --pool serial p - Suffix a",
        &[
            (
                "p",
                "transform Suffix from A[n] to B[n] { to (B.cell(i) b) from (A.cell(i) a, B.cell(i + 1) r) { b = a + r; } secondary to (B.cell(i) b) from (A.cell(i) a) { b = a; } }",
            ),
            ("a", "matrix 3\n1 2 3\n"),
        ],
        Done("matrix 3\n6 5 3\ntrace 2\ntask 0 call 0 block B[2,3)\ntask 1 call 0 block B[0,2)\n"),
    ),
    // A run that makes no cell has no task.
    (
        "run --trace --pool serial p - Differences a",
        &[
            (
                "p",
                "transform Differences from A[n] to B[n - 1] { to (B.cell(i) b) from (A.cell(i) p, A.cell(i + 1) q) { b = q - p; } }",
            ),
            ("a", "matrix 1\n5\n"),
        ],
        Done("matrix 0\ntrace 0\n"),
    ),
];

const ADD: &str = "transform Add from A[w,h], D[w,h] to AB[w,h] {
  to (AB.cell(x,y) c) from (A.cell(x,y) a, D.cell(x,y) d) { c = a + d; }
}
";

// Sums of rows, and of all rows from the last one up.
const SUMS: &str = "transform Rows from A[w,h] through M[h] to B[w,h] {
  to (M.cell(y) m) from (A.row(y) r) { m = sum(r); }
  to (B.cell(x,y) b) from (M.cell(y) m, B.cell(x, y+1) d) { b = m + d; }
  secondary to (B.cell(x,y) b) from (M.region(0, h) m) { b = sum(m); }
}
";

const SQUARE_ROWS: Rows = &[
    (
        "run --trace --pool serial p - Add a d",
        &[
            ("p", ADD),
            (
                "a",
                "matrix 8 4\n1 2 3 4 5 6 7 8\n1 2 3 4 5 6 7 8\n1 2 3 4 5 6 7 8\n1 2 3 4 5 6 7 8\n",
            ),
            (
                "d",
                "matrix 8 4\n0 0 0 0 0 0 0 0\n1 1 1 1 1 1 1 1\n2 2 2 2 2 2 2 2\n3 3 3 3 3 3 3 3\n",
            ),
        ],
        Done(
            "matrix 8 4\n1 2 3 4 5 6 7 8\n2 3 4 5 6 7 8 9\n3 4 5 6 7 8 9 10\n4 5 6 7 8 9 10 11\ntrace 1\ntask 0 call 0 block AB[0,8)x[0,4)\n",
        ),
    ),
    (
        "run --trace --pool serial p - Prefix2 a",
        &[("p", PREFIX), ("a", "matrix 3 2\n1 2 3\n4 5 6\n")],
        Done(
            "matrix 3 2\n1 3 6\n5 12 21\ntrace 4\ntask 0 call 0 block S[0,1)x[0,1)\ntask 1 call 0 block S[1,3)x[0,1)\ntask 2 call 0 block S[0,1)x[1,2)\ntask 3 call 0 block S[1,3)x[1,2)\n",
        ),
    ),
    (
        "run --trace --pool serial p - Rows a",
        &[("p", SUMS), ("a", "matrix 2 3\n1 2\n3 4\n5 6\n")],
        Done(
            "matrix 2 3\n31 31\n28 28\n21 21\ntrace 3\ntask 0 call 0 block M[0,3)\ntask 1 call 0 block B[0,2)x[2,3)\ntask 2 call 0 block B[0,2)x[0,2)\n",
        ),
    ),
];

// Two matrices, each made from the other.
const PAIRED: &str = "transform Pair from A[n] to U[n], V[n] {
  to (U.cell(i) u) from (V.cell(i - 1) v) { u = v + 1; }
  to (V.cell(i) v) from (U.cell(i - 1) u) { v = 2 * u; }
  secondary to (U.cell(i) u) from (A.cell(i) a) { u = a; }
  secondary to (V.cell(i) v) from (A.cell(i) a) { v = a; }
}
";

// A rule for the whole matrix, which alone makes the first cell.
const MIX: &str = "transform Mix from A[n] to B[n] {
  to (B.cell(i) b) from (A.cell(i) a) where i >= 1 { b = a; }
  to (B b) from (A a) { for (k = 0 .. n) { b.cell(k) = - a.cell(k); } }
}
";

// Tasks with several parts, and layers with several tasks.
const PARTED_ROWS: Rows = &[
    (
        "run --trace --pool serial p - Pair a",
        &[("p", PAIRED), ("a", "matrix 3\n5 6 7\n")],
        Done(
            "matrix 3\n5 6 11\nmatrix 3\n5 10 12\ntrace 3\ntask 0 call 0 block U[0,1)\ntask 1 call 0 block V[0,1)\ntask 2 call 0 block U[1,3) V[1,3)\n",
        ),
    ),
    (
        "run --trace --pool serial p - Mix a",
        &[("p", MIX), ("a", "matrix 3\n1 2 3\n")],
        Done("matrix 3\n-1 2 3\ntrace 2\ntask 0 call 0 wide B[0,1)\ntask 1 call 0 block B[1,3)\n"),
    ),
    (
        "run --trace --pool serial p c Mix a",
        &[
            ("p", MIX),
            ("c", "choose Mix.B {0,1} = 1\n"),
            ("a", "matrix 3\n1 2 3\n"),
        ],
        Done("matrix 3\n-1 -2 -3\ntrace 1\ntask 0 call 0 wide B[0,1) B[1,3)\n"),
    ),
    (
        "run --trace --pool serial p - Halves a",
        &[
            (
                "p",
                "transform Halves from A[n] to U[n], V[n] { to (V.region(1, n) v, U u) from (A a) { u.cell(0) = 12 / a.cell(0); } to (V.cell(0) v) from () { v = v + 1; } }",
            ),
            ("a", "matrix 2\n5 0\n"),
        ],
        Done(
            "matrix 2\n2 0\nmatrix 2\n1 0\ntrace 2\ntask 0 call 0 wide U[0,2) V[1,2)\ntask 1 call 0 wide V[0,1)\n",
        ),
    ),
    // In one layer the rules for more than a cell come first, by number, whatever the order of their segments.
    (
        "run --trace --pool serial p - Thirds a",
        &[
            (
                "p",
                "transform Thirds where n >= 3 from A[n] to B[n] { to (B.region(n - 1, n) b) from () { b.cell(0) = 1; } to (B.region(0, 1) b) from () { b.cell(0) = 2; } to (B.cell(i) b) from () where i >= 1, i < n - 1 { b = 3; } to (B b) from () { } }",
            ),
            ("a", "matrix 4\n0 0 0 0\n"),
        ],
        Done(
            "matrix 4\n2 3 3 1\ntrace 3\ntask 0 call 0 wide B[3,4)\ntask 1 call 0 wide B[0,1)\ntask 2 call 0 block B[1,3)\n",
        ),
    ),
];

#[test]
fn a_trace_has_each_task_with_its_parts(rt: HostRuntime) -> Result<(), Fail> {
    all_hold(&rt, rt.alloc(), LINE_ROWS)?;
    all_hold(&rt, rt.alloc(), SQUARE_ROWS)?;
    all_hold(&rt, rt.alloc(), PARTED_ROWS)
}
