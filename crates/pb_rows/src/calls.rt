//! Calls in plans: what is handed on, and calls that can't be made.
use crate::run::End::{Done, Stopped, Trapped};
use crate::run::{Rows, all_hold};
use std::test::Fail;

// A row without its first and last cell, by a view of a view of a view.
const VIEWS: &str =
    "transform Copy from A[m] to C[m] { to (C.cell(i) c) from (A.cell(i) a) { c = a; } }
transform Last from A[k] to D[k - 1] { to (D d) from (A.region(0, k - 1) r) { d = Copy(r); } }
transform Middle where m >= 2 from A[m] to C[m - 2] { to (C c) from (A.region(1, m) r) { c = Last(r); } }
transform Inside where w >= 2, h >= 2 from A[w, h] to B[w - 2] {
  to (B b) from (A.row(1) r) { b = Middle(r); }
}
transform Down where w >= 2, h >= 2 from A[w, h] to B[h - 2] {
  to (B b) from (A.column(0) r) { b = Middle(r); }
}
";

const TABLE: &str = "matrix 4 3\n1 2 3 4\n5 6 7 8\n9 10 11 12\n";

// Matrices made by plans: after `through`, from trapped cells, and of a call whose sizes are out of range.
const MADE: &str =
    "transform Copy from A[m] to C[m] { to (C.cell(i) c) from (A.cell(i) a) { c = a; } }
transform Next from A[n] through T[n] to B[n] {
  to (T t) from (A a) { t = Copy(a); }
  to (B.cell(i) b) from (T.cell(i) t) { b = t + 1; }
}
transform Parts from A[m] to C[m] { to (C.cell(i) c) from (A.cell(i) a) { c = 6 / a; } }
transform First from A[m] to C[m] { to (C.cell(i) c) from (A.cell(0) a) { c = a; } }
transform Spread from A[n] to B[n] { to (B b) from (A a) { let t[n]; t = Parts(a); b = First(t); } }
transform Wide where m >= 3 from A[m] to C[m] { to (C.cell(i) c) from (A.cell(i) a) { c = a; } }
transform Call from A[n] to B[n] { to (B b) from (A a) { b = Wide(a); } }
transform Hidden from A[n] through T[n] to B[n] {
  to (T t) from (A a) { t = Wide(a); }
  to (B.cell(i) b) from (A.cell(i) a) { b = a; }
}
transform Short from A[n] to B[n] {
  to (B b) from (A a, A.region(0, n/2) h) { let t[n - 2]; t = Copy(h); b = Copy(a); }
}
";

const VIEW_ROWS: Rows = &[
    (
        "run --pool serial p - Inside a",
        &[("p", VIEWS), ("a", TABLE)],
        Done("matrix 2\n6 7\n"),
    ),
    (
        "run --pool serial p - Down a",
        &[("p", VIEWS), ("a", TABLE)],
        Done("matrix 1\n5\n"),
    ),
    // The innermost call has a size below its minimum, and its target has no cell.
    (
        "run --pool serial p - Inside a",
        &[("p", VIEWS), ("a", "matrix 2 2\n1 2\n3 4\n")],
        Done("matrix 0\n"),
    ),
];

#[test]
fn views_of_views_are_handed_on(rt: HostRuntime) -> Result<(), Fail> {
    all_hold(&rt, rt.alloc(), VIEW_ROWS)
}

const MADE_ROWS: Rows = &[
    (
        "run --pool serial p - Next a",
        &[("p", MADE), ("a", "matrix 3\n1 2 3\n")],
        Done("matrix 3\n2 3 4\n"),
    ),
    // A trapped cell is handed on, and matters where it is read.
    (
        "run --pool serial p - Spread a",
        &[("p", MADE), ("a", "matrix 3\n3 0 2\n")],
        Done("matrix 3\n2 2 2\n"),
    ),
    (
        "run --pool serial p - Spread a",
        &[("p", MADE), ("a", "matrix 3\n0 1 2\n")],
        Trapped("T DivideByZero: Spread.B (0,0), by Parts rule 0 (0,0)\n"),
    ),
    (
        "run --pool serial p - Call a",
        &[("p", MADE), ("a", "matrix 3\n1 2 3\n")],
        Done("matrix 3\n1 2 3\n"),
    ),
];

const FAILED_ROWS: Rows = &[
    // A size below the minimum of the called transform.
    (
        "run --pool serial p - Call a",
        &[("p", MADE), ("a", "matrix 2\n1 2\n")],
        Trapped("T BadShape: Call.B (0,0), by Call rule 0 (0,0)\n"),
    ),
    // The first trapped cell is that of the matrix after `through`.
    (
        "run --pool serial p - Hidden a",
        &[("p", MADE), ("a", "matrix 2\n1 2\n")],
        Trapped("T BadShape: Hidden.T (0,0), by Hidden rule 0 (0,0)\n"),
    ),
    (
        "run --depth 0 --pool serial p - Hidden a",
        &[("p", MADE), ("a", "matrix 2\n1 2\n")],
        Stopped(8, "T DepthEnded: Hidden.T (0,0), by Hidden rule 0 (0,0)\n"),
    ),
    // A local matrix whose side is below 0 has no cells, and no shape.
    (
        "run --pool serial p - Short a",
        &[("p", MADE), ("a", "matrix 1\n7\n")],
        Done("matrix 1\n7\n"),
    ),
];

#[test]
fn plans_make_matrices_or_trap_them(rt: HostRuntime) -> Result<(), Fail> {
    all_hold(&rt, rt.alloc(), MADE_ROWS)?;
    all_hold(&rt, rt.alloc(), FAILED_ROWS)
}
