//! Reports of programs, and programs whose segments have no order.
use crate::check::answered;
use crate::examples::{
    BAD, BIG, BLUR1, BLUR2, DIV, DOUBLE, GUARD2, MUL, PAIR, PREFIX, REV, ROLL, TWOWAY,
};
use crate::run::End::{Done, Stopped};
use crate::run::{Row, Rows, all_hold, holds};
use std::test::Fail;

const ROLL_REPORT: &str = "transform RollingSum
segment B[0,1) rules {0} layer 0
segment B[1,n) rules {0,1} layer 1 direction x+
edge B[1,n) to B[0,1) rules {1} x<
edge B[1,n) to B[1,n) rules {1} x<
site RollingSum.B {0,1}
";

// The examples that are accepted, with their reports.
const REPORTS: [(&str, &str); 10] = [
    (ROLL, ROLL_REPORT),
    (
        DOUBLE,
        "transform Double
segment B[0,n) rules {0} layer 0
",
    ),
    (
        MUL,
        "transform MatrixAdd
segment C[0,w)x[0,h) rules {0} layer 0
transform MatrixMultiply
segment AB[0,w/2)x[0,h/2) rules {0,1,2,3} layer 0
segment AB[w/2,w)x[0,h/2) rules {0,1,2,3} layer 0
segment AB[0,w/2)x[h/2,h) rules {0,1,2,3} layer 0
segment AB[w/2,w)x[h/2,h) rules {0,1,2,3} layer 0
site MatrixMultiply.AB {0,1,2,3}
",
    ),
    (
        BLUR2,
        "transform Blur3
segment B[0,1) rules {1} layer 0
segment B[1,n-1) rules {0} layer 1
segment B[n-1,n) rules {1} layer 2
",
    ),
    (
        DIV,
        "transform Div
segment Q[0,n) rules {0} layer 0
",
    ),
    (
        BIG,
        "transform Big
segment T[0,2*n) rules {0} layer 0
segment B[0,n) rules {1} layer 1
edge B[0,n) to T[0,2*n) rules {1} x=
transform Bigger
segment T[0,2*n+1) rules {0} layer 0
segment B[0,n) rules {1} layer 1
edge B[0,n) to T[0,2*n+1) rules {1} x=
",
    ),
    // A rule with a guard and one of a greater priority are no choice.
    (
        GUARD2,
        "transform Guard
segment B[0,n) rules {0,1} layer 0
",
    ),
    (
        PREFIX,
        "transform Prefix2
segment S[0,1)x[0,1) rules {1} layer 0
segment S[1,w)x[0,1) rules {1} layer 1
segment S[0,1)x[1,h) rules {1} layer 2
segment S[1,w)x[1,h) rules {0} layer 3 direction x+ y+
edge S[1,w)x[1,h) to S[0,1)x[0,1) rules {0} x< y<
edge S[1,w)x[1,h) to S[1,w)x[0,1) rules {0} x<= y<
edge S[1,w)x[1,h) to S[0,1)x[1,h) rules {0} x< y<=
edge S[1,w)x[1,h) to S[1,w)x[1,h) rules {0} x<= y<=
",
    ),
    (
        REV,
        "transform Rev
segment B[0,n) rules {0} layer 0
",
    ),
    (
        BAD,
        "transform Copy
segment C[0,m) rules {0} layer 0
transform Bad
segment B[0,n) rules {0} layer 0
",
    ),
];

#[test]
fn examples_have_their_reports(rt: HostRuntime) -> Result<(), Fail> {
    for (example, report) in &REPORTS {
        let (status, out, err) = answered(&rt, rt.alloc(), "choices", example.as_bytes())?;
        assert_eq!(rt; (status, err.len()), (0, 0), "{example}");
        assert_eq!(rt; out.as_slice(), report.as_bytes(), "{example}");
    }
    Ok(())
}

/// A row of `choices p`.
fn choices(
    files: &'static [(&'static str, &'static str)],
    status: u8,
    out: &'static str,
    err: &'static str,
) -> Row {
    Row {
        words: "choices p",
        files,
        failing_takes: &[],
        failing_puts: &[],
        most: 4096,
        status,
        out,
        err,
    }
}

// Each direction, wide rules, and matrices of one and of two dimensions beside each other.
const REPORTED_ROWS: Rows = &[
    // Two matrices in one layer.
    (
        "choices p",
        &[(
            "p",
            "transform Pair from A[n] to U[n], V[n] { to (U.cell(i) u) from (V.cell(i - 1) v) { u = v; } to (V.cell(i) v) from (U.cell(i - 1) u) { v = u; } secondary to (U.cell(i) u) from (A.cell(i) a) { u = a; } secondary to (V.cell(i) v) from (A.cell(i) a) { v = a; } }",
        )],
        Done(
            "transform Pair
segment U[0,1) rules {2} layer 0
segment U[1,n) rules {0} layer 2 direction x+
segment V[0,1) rules {3} layer 1
segment V[1,n) rules {1} layer 2 direction x+
edge U[1,n) to V[0,1) rules {0} x<
edge U[1,n) to V[1,n) rules {0} x<
edge V[1,n) to U[0,1) rules {1} x<
edge V[1,n) to U[1,n) rules {1} x<
",
        ),
    ),
    // Two layers with a direction each.
    (
        "choices p",
        &[(
            "p",
            "transform TwoWay where n >= 2 from A[n] to B[n] { to (B.cell(i) b) from (B.cell(i-1) p) where i < n/2 { b = p; } to (B.cell(i) b) from (B.cell(i+1) q) where i >= n/2 { b = q; } secondary to (B.cell(i) b) from (A.cell(i) a) { b = a; } }",
        )],
        Done(
            "transform TwoWay
segment B[0,1) rules {2} layer 0
segment B[1,n/2) rules {0} layer 2 direction x+
segment B[n/2,n-1) rules {1} layer 3 direction x-
segment B[n-1,n) rules {2} layer 1
edge B[1,n/2) to B[0,1) rules {0} x<
edge B[1,n/2) to B[1,n/2) rules {0} x<
edge B[n/2,n-1) to B[n/2,n-1) rules {1} x>
edge B[n/2,n-1) to B[n-1,n) rules {1} x>
",
        ),
    ),
    // A direction that serves both rules.
    (
        "choices p",
        &[(
            "p",
            "transform TwoWay where n >= 2 from A[n] to B[n] { to (B.cell(i) b) from (B.cell(i-1) p) where i < n-1 { b = p; } to (B.cell(i) b) from (B.cell(0) q) where i >= 1 { b = q; } secondary to (B.cell(i) b) from (A.cell(i) a) { b = a; } }",
        )],
        Done(
            "transform TwoWay
segment B[0,1) rules {2} layer 0
segment B[1,n-1) rules {0,1} layer 1 direction x+
segment B[n-1,n) rules {1} layer 2
edge B[1,n-1) to B[0,1) rules {0,1} x<
edge B[1,n-1) to B[1,n-1) rules {0} x<
edge B[n-1,n) to B[0,1) rules {1} x<
site TwoWay.B {0,1}
",
        ),
    ),
    // The same, where both rules read their own layer.
    (
        "choices p",
        &[(
            "p",
            "transform TwoWay where n >= 3 from A[n] to B[n] { to (B.cell(i) b) from (B.cell(i-1) p) where i < n-1 { b = p; } to (B.cell(i) b) from (B.cell(i-2) q) { b = q; } secondary to (B.cell(i) b) from (A.cell(i) a) { b = a; } }",
        )],
        Done(
            "transform TwoWay
segment B[0,1) rules {2} layer 0
segment B[1,2) rules {0} layer 1
segment B[2,n-1) rules {0,1} layer 2 direction x+
segment B[n-1,n) rules {1} layer 3
edge B[1,2) to B[0,1) rules {0} x<
edge B[2,n-1) to B[0,1) rules {1} x<
edge B[2,n-1) to B[1,2) rules {0,1} x<
edge B[2,n-1) to B[2,n-1) rules {0,1} x<
edge B[n-1,n) to B[0,1) rules {1} x<
edge B[n-1,n) to B[1,2) rules {1} x<
edge B[n-1,n) to B[2,n-1) rules {1} x<
site TwoWay.B {0,1}
",
        ),
    ),
    // A rule that isn't for single cells reads a lower layer.
    (
        "choices p",
        &[(
            "p",
            "transform Spread from A[n] to B[n] { to (B.region(0, 1) b) from (A.cell(0) a) { } to (B.region(1, n) b) from (B.cell(0) c) { } }",
        )],
        Done(
            "transform Spread
segment B[0,1) rules {0} layer 0
segment B[1,n) rules {1} layer 1
edge B[1,n) to B[0,1) rules {1} wide
",
        ),
    ),
    // An edge from two dimensions to one has a mark on either axis.
    (
        "choices p",
        &[(
            "p",
            "transform Rows from A[w,h] through M[h] to B[w,h] { to (M.cell(y) m) from (A.row(y) r) { m = sum(r); } to (B.cell(x,y) b) from (M.cell(y) m, B.cell(x, y+1) d) { b = m + d; } secondary to (B.cell(x,y) b) from (M.region(0, h) m) { b = sum(m); } }",
        )],
        Done(
            "transform Rows
segment M[0,h) rules {0} layer 0
segment B[0,w)x[0,h-1) rules {1} layer 2 direction y-
segment B[0,w)x[h-1,h) rules {2} layer 1
edge B[0,w)x[0,h-1) to M[0,h) rules {1} x* y<=
edge B[0,w)x[0,h-1) to B[0,w)x[0,h-1) rules {1} x= y>
edge B[0,w)x[0,h-1) to B[0,w)x[h-1,h) rules {1} x= y>
edge B[0,w)x[h-1,h) to M[0,h) rules {2} x* y<=
",
        ),
    ),
];

#[test]
fn a_report_tells_segments_layers_edges_and_sites(rt: HostRuntime) -> Result<(), Fail> {
    all_hold(&rt, rt.alloc(), REPORTED_ROWS)
}

// The same line from both commands.
const NO_ORDER_OF_PAIR: &str = "P16 NoOrder: Pair U[0,n) V[0,n)\n";

const NO_ORDER_OF_TWO_WAYS: &str = "P16 NoOrder: TwoWay B[1,n-1)\n";

const UNORDERED_ROWS: Rows = &[
    ("check p", &[("p", PAIR)], Stopped(3, NO_ORDER_OF_PAIR)),
    ("choices p", &[("p", PAIR)], Stopped(3, NO_ORDER_OF_PAIR)),
    (
        "check p",
        &[("p", TWOWAY)],
        Stopped(3, NO_ORDER_OF_TWO_WAYS),
    ),
    (
        "choices p",
        &[("p", TWOWAY)],
        Stopped(3, NO_ORDER_OF_TWO_WAYS),
    ),
    // One reads the cell before, the other the cell in its own place.
    (
        "check p",
        &[(
            "p",
            "transform Pair from A[n] to U[n], V[n] { to (U.cell(i) u) from (V.cell(i - 1) v) { u = v; } to (V.cell(i) v) from (U.cell(i) u) { v = u; } secondary to (U.cell(i) u) from (A.cell(i) a) { u = a; } }",
        )],
        Stopped(3, "P16 NoOrder: Pair U[1,n) V[0,n)\n"),
    ),
    // A rule that isn't for single cells makes both segments, and one of them reads the other.
    (
        "check p",
        &[(
            "p",
            "transform Spread from A[n] to B[n] { to (B b) from (A.cell(0) a) { } to (B.region(1, n) b) from (B.cell(0) c) { } }",
        )],
        Stopped(3, "P16 NoOrder: Spread B[0,1) B[1,n)\n"),
    ),
];

// Which of two faults is told.
const FIRST_ROWS: Rows = &[
    // Of two components the one with the least segment.
    (
        "check p",
        &[(
            "p",
            "transform T from A[n] through M[n] to B[n] { to (B.cell(i) b) from (B.cell(i) c) { b = c; } to (M.cell(i) m) from (M.cell(i) c) { m = c; } }",
        )],
        Stopped(3, "P16 NoOrder: T M[0,n)\n"),
    ),
    // Of two transforms the first.
    (
        "check p",
        &[(
            "p",
            "transform S from A[n] to B[n] { to (B b) from (A a) { } } transform T from A[n] to B[n, n] { to (B.cell(x, y) b) from (B.column(x) c) { b = sum(c); } } transform U from A[n] to B[n] { to (B.cell(i) b) from (B.cell(i) c) { b = c; } }",
        )],
        Stopped(3, "P16 NoOrder: T B[0,n)x[0,n)\n"),
    ),
    // A segment without a rule comes before segments without an order, also in a later transform.
    (
        "check p",
        &[(
            "p",
            "transform T from A[n] to B[n] { to (B.cell(i) b) from (B.cell(i) c) { b = c; } } transform U from A[n] to B[n] { to (B.cell(i) b) from () where i >= 1 { b = 1; } }",
        )],
        Stopped(3, "P14 Uncovered: U.B [0,1)\n"),
    ),
    (
        "choices p",
        &[("p", BLUR1)],
        Stopped(
            3,
            "P13 Crossing: Blur3.B x: 1 over n-1 at n=1; n-1 over 1 at n=1048576\n",
        ),
    ),
];

#[test]
fn programs_without_an_order_are_named(rt: HostRuntime) -> Result<(), Fail> {
    all_hold(&rt, rt.alloc(), UNORDERED_ROWS)?;
    all_hold(&rt, rt.alloc(), FIRST_ROWS)
}

fn failing_rows() -> [Row; 5] {
    [
        choices(&[("q", ROLL)], 14, "", "I1 NoFile: p\n"),
        choices(&[("p", "transform @")], 3, "", "P2 BadToken: byte 10\n"),
        Row {
            words: "choices p",
            files: &[("p", ROLL)],
            failing_takes: &[0],
            failing_puts: &[],
            most: 4096,
            status: 9,
            out: "",
            err: "R ReadFault: p\n",
        },
        Row {
            words: "choices p",
            files: &[("p", ROLL)],
            failing_takes: &[],
            failing_puts: &[2],
            most: 10,
            status: 10,
            out: "transform RollingSum",
            err: "",
        },
        Row {
            words: "choices p",
            files: &[("p", PAIR)],
            failing_takes: &[],
            failing_puts: &[1],
            most: 4,
            status: 10,
            out: "",
            err: "P16 ",
        },
    ]
}

#[test]
fn failing_devices_of_a_report_have_their_causes(rt: HostRuntime) -> Result<(), Fail> {
    for row in failing_rows() {
        holds(&rt, rt.alloc(), &row)?;
    }
    Ok(())
}
