//! Traps that are handed on to cells which read trapped cells, and which trapped cell a run tells.
use crate::examples::BIG;
use crate::run::End::Trapped;
use crate::run::{Rows, all_hold};
use std::test::Fail;

// Where the last cell is told first, and each other is made from the one before it.
const LAST: &str = "transform Last from A[n] to L[1], B[n] {
  to (L.cell(0) l) from (B.cell(n - 1) b) { l = b; }
  to (B.cell(i) b) from (A.cell(i) a, B.cell(i - 1) p) { b = a + p; }
  secondary to (B.cell(i) b) from (A.cell(i) a) { b = a; }
}
";

// A cell that reads two, each of which can be trapped.
const READS: &str = "transform Reads from A[n] to B[n], U[n], V[n] {
  to (B.cell(i) b) from (V.cell(i) v, U.cell(i) u) { b = v / (u - u); }
  to (U.cell(i) u) from (A.cell(i) a) { u = 10 / (a - 1); }
  to (V.cell(i) v) from (A.cell(i) a) { v = a + 9223372036854775807; }
}
";

// The same with the reads the other way round, and another body.
const READS_BACK: &str = "transform Reads from A[n] to B[n], U[n], V[n] {
  to (B.cell(i) b) from (U.cell(i) u, V.cell(i) v) { b = 0; }
  to (U.cell(i) u) from (A.cell(i) a) { u = 10 / (a - 1); }
  to (V.cell(i) v) from (A.cell(i) a) { v = a + 9223372036854775807; }
}
";

// One cell that reads a matrix whose cells can be trapped in two ways.
const WHOLE: &str = "transform Whole from A[w,h] to S[1], Q[w,h] {
  to (S.cell(0) s) from (Q q) { s = 1; }
  to (Q.cell(x,y) q) from (A.cell(x,y) a) { q = 10 / a + 2 * a; }
}
";

// A matrix that nothing reads.
const ASIDE: &str = "transform Aside from A[n] through M[n] to B[n] {
  to (B.cell(i) b) from (A.cell(i) a) { b = a + 1; }
  to (M.cell(i) m) from (A.cell(i) a) { m = 10 / a; }
}
";

const HANDED_ROWS: Rows = &[
    (
        "run --pool serial p - Last a",
        &[("p", LAST), ("a", "matrix 4\n9223372036854775807 1 5 -3\n")],
        Trapped("T Overflow: Last.L (0,0), by Last rule 1 (1,0)\n"),
    ),
    // The first in the order of the reads, in place of the body's own.
    (
        "run --pool serial p - Reads a",
        &[("p", READS), ("a", "matrix 1\n1\n")],
        Trapped("T Overflow: Reads.B (0,0), by Reads rule 2 (0,0)\n"),
    ),
    (
        "run --pool serial p - Reads a",
        &[("p", READS_BACK), ("a", "matrix 2\n0 1\n")],
        Trapped("T DivideByZero: Reads.B (1,0), by Reads rule 1 (1,0)\n"),
    ),
    // Of one read the first row by row, also where the body uses none of it.
    (
        "run --pool serial p - Whole a",
        &[
            ("p", WHOLE),
            ("a", "matrix 2 2\n1 0\n9223372036854775807 1\n"),
        ],
        Trapped("T DivideByZero: Whole.S (0,0), by Whole rule 1 (1,0)\n"),
    ),
    (
        "run --pool serial p - Whole a",
        &[
            ("p", WHOLE),
            ("a", "matrix 2 2\n1 9223372036854775807\n0 1\n"),
        ],
        Trapped("T Overflow: Whole.S (0,0), by Whole rule 1 (1,0)\n"),
    ),
    // What is made on the way is told before what is given, whatever the places and whether it is read or not.
    (
        "run --pool serial p - Aside a",
        &[("p", ASIDE), ("a", "matrix 2\n9223372036854775807 0\n")],
        Trapped("T DivideByZero: Aside.M (1,0), by Aside rule 1 (1,0)\n"),
    ),
    (
        "run --pool serial --trace p - Big a",
        &[("p", BIG), ("a", "matrix 3\n1 9223372036854775807 2\n")],
        Trapped("T Overflow: Big.B (1,0), by Big rule 1 (1,0)\n"),
    ),
];

#[test]
fn the_first_trap_is_handed_on_and_told(rt: HostRuntime) -> Result<(), Fail> {
    all_hold(&rt, rt.alloc(), HANDED_ROWS)
}
