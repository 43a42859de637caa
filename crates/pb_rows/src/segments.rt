//! Programs whose matrices can't be cut into segments, or have a segment that no rule covers.
use crate::check::checked;
use crate::examples::REFUSED;
use crate::run::End::Stopped;
use crate::run::{Rows, all_hold};
use std::test::Fail;

#[test]
fn examples_that_are_refused_are_told_why(rt: HostRuntime) -> Result<(), Fail> {
    for (example, line) in &REFUSED {
        let (status, out, err) = checked(&rt, rt.alloc(), example.as_bytes())?;
        assert_eq!(rt; (status, out.len()), (3, 0), "{example}");
        assert_eq!(rt; err.as_slice(), line.as_bytes(), "{example}");
    }
    Ok(())
}

const UNCOVERED_ROWS: Rows = &[
    // The rolling sum without its first rule.
    (
        "check p",
        &[(
            "p",
            "transform RollingSum from A[n] to B[n] { to (B.cell(i) b) from (A.cell(i) a, B.cell(i - 1) l) { b = a + l; } }",
        )],
        Stopped(3, "P14 Uncovered: RollingSum.B [0,1)\n"),
    ),
    (
        "check p",
        &[(
            "p",
            "transform T from A[w,h] to B[w,h] { to (B.region(w/2, 0, w, h) b) from () { } }",
        )],
        Stopped(3, "P14 Uncovered: T.B [0,w/2)x[0,h)\n"),
    ),
    (
        "check p",
        &[(
            "p",
            "transform T from A[w,h] to B[w,h] { to (B.region(0, 0, w, h/3) b) from () { } }",
        )],
        Stopped(3, "P14 Uncovered: T.B [0,w)x[h/3,h)\n"),
    ),
    // A guarded rule covers nothing.
    (
        "check p",
        &[(
            "p",
            "transform T from A[n] to B[n] { to (B.cell(i) b) from () where n >= 2 { b = 1; } secondary to (B.cell(i) b) from () where i >= 1 { b = 2; } }",
        )],
        Stopped(3, "P14 Uncovered: T.B [0,1)\n"),
    ),
    // A matrix that no rule writes.
    (
        "check p",
        &[(
            "p",
            "transform T from A[n] through M[n] to B[n] { to (B b) from () { } }",
        )],
        Stopped(3, "P14 Uncovered: T.M [0,n)\n"),
    ),
    // The matrices go by the header, and the bounds of `B` cross.
    (
        "check p",
        &[(
            "p",
            "transform T from A[n] through M[n] to B[n] { to (B.cell(i) b) from () where i >= 2 { b = 1; } to (M.cell(i) m) from () where i >= 1 { m = 1; } }",
        )],
        Stopped(3, "P14 Uncovered: T.M [0,1)\n"),
    ),
];

const CROSSING_ROWS: Rows = &[
    (
        "check p",
        &[(
            "p",
            "transform T from A[w,h] to B[w,h] { to (B.cell(x, y) b) from () where y >= 3 { b = 1; } }",
        )],
        Stopped(
            3,
            "P13 Crossing: T.B y: h over 3 at w=1,h=1048576; 3 over h at w=1,h=1\n",
        ),
    ),
    (
        "check p",
        &[(
            "p",
            "transform T from A[n] to B[2*n] { to (B.cell(i) b) from () where i >= 3 { b = 1; } }",
        )],
        Stopped(
            3,
            "P13 Crossing: T.B x: 2*n over 3 at n=1048576; 3 over 2*n at n=1\n",
        ),
    ),
    // Those on x come before those on y.
    (
        "check p",
        &[(
            "p",
            "transform T from A[w,h] to B[w,h] { to (B.cell(x, y) b) from () where y >= 3, x < w - 1, x >= 1 { b = 1; } }",
        )],
        Stopped(
            3,
            "P13 Crossing: T.B x: 1 over w-1 at w=1,h=1; w-1 over 1 at w=1048576,h=1\n",
        ),
    ),
    // The next matrix and the next transform have a segment that no rule covers.
    (
        "check p",
        &[(
            "p",
            "transform T from A[n] through M[n] to B[n] { to (M.cell(i) m) from () where i >= 2 { m = 1; } to (B.cell(i) b) from () where i >= 1 { b = 1; } } transform U from A[n] to B[n] { to (B.cell(i) b) from () where i >= 1 { b = 1; } }",
        )],
        Stopped(
            3,
            "P13 Crossing: T.M x: n over 2 at n=1048576; 2 over n at n=1\n",
        ),
    ),
];

// The first transform has a segment without a rule, the last another fault.
const EARLIER_ROWS: Rows = &[
    (
        "check p",
        &[(
            "p",
            "transform S from A[n] to B[n] { to (B.cell(i) b) from () where i >= 1 { b = 1; } } transform T from A[n] to B[n-2] { to (B b) from () { } }",
        )],
        Stopped(3, "P8 NegativeDim: T.B x at n=1\n"),
    ),
    (
        "check p",
        &[(
            "p",
            "transform S from A[n] to B[n] { to (B.cell(i) b) from () where i >= 1 { b = 1; } } transform T from A[n] to B[n] { to (B.cell(i) b) from (A.cell(2 * i) a) { b = a; } }",
        )],
        Stopped(3, "P12 NotABox: T rule 0 condition 2\n"),
    ),
    (
        "check p",
        &[(
            "p",
            "transform S from A[n] to B[n] { to (B.cell(i) b) from () where i >= 1 { b = 1; } } transform T from A[n] to B[n] { to (B.region(0, n) p, B.region(0, n/2) q) from () { } }",
        )],
        Stopped(3, "P10 OverlapOutputs: T rule 0 outputs 0 and 1\n"),
    ),
    (
        "check p",
        &[(
            "p",
            "transform S from A[n] to B[n] { to (B.cell(i) b) from () where i >= 1 { b = 1; } } transform T from A[n] to B[n] { to (B.cell(i) b) from () { b = z; } }",
        )],
        Stopped(3, "P6 UnknownName: z at byte 146\n"),
    ),
];

#[test]
fn matrices_that_cannot_be_cut_are_named(rt: HostRuntime) -> Result<(), Fail> {
    all_hold(&rt, rt.alloc(), UNCOVERED_ROWS)?;
    all_hold(&rt, rt.alloc(), CROSSING_ROWS)?;
    all_hold(&rt, rt.alloc(), EARLIER_ROWS)
}

// A matrix with 32 cuts: 0, each number up to 30, and 40; and one with 16 times 16 segments.
const FULL: [&str; 2] = [
    "transform T from A[n] to B[40] { to (B b) from () { } to (B.cell(1) b1, B.cell(3) b3, B.cell(5) b5, B.cell(7) b7, B.cell(9) b9, B.cell(11) b11, B.cell(13) b13, B.cell(15) b15, B.cell(17) b17, B.cell(19) b19, B.cell(21) b21, B.cell(23) b23, B.cell(25) b25, B.cell(27) b27, B.cell(29) b29) from () { } }",
    "transform T from A[n] to B[40, 40] { to (B b) from () { } to (B.cell(1, 1) b1, B.cell(3, 3) b3, B.cell(5, 5) b5, B.cell(7, 7) b7, B.cell(9, 9) b9, B.cell(11, 11) b11, B.cell(13, 13) b13, B.cell(14, 14) b14) from () { } }",
];

// The same with one output more, and without the rule that covers all.
const TOO_MANY: &str = "P15 TooManySegments: T.B\n";

const CROWDED_ROWS: Rows = &[
    (
        "check p",
        &[(
            "p",
            "transform T from A[n] to B[40] { to (B.cell(1) b1, B.cell(3) b3, B.cell(5) b5, B.cell(7) b7, B.cell(9) b9, B.cell(11) b11, B.cell(13) b13, B.cell(15) b15, B.cell(17) b17, B.cell(19) b19, B.cell(21) b21, B.cell(23) b23, B.cell(25) b25, B.cell(27) b27, B.cell(29) b29, B.cell(30) b30) from () { } }",
        )],
        Stopped(3, TOO_MANY),
    ),
    (
        "check p",
        &[(
            "p",
            "transform T from A[n] to B[40, 40] { to (B.cell(1, 1) b1, B.cell(3, 3) b3, B.cell(5, 5) b5, B.cell(7, 7) b7, B.cell(9, 9) b9, B.cell(11, 11) b11, B.cell(13, 13) b13, B.cell(14, 14) b14, B.cell(15, 13) more) from () { } }",
        )],
        Stopped(3, TOO_MANY),
    ),
];

#[test]
fn each_limit_of_segments_holds_at_its_edge(rt: HostRuntime) -> Result<(), Fail> {
    for text in &FULL {
        let (status, out, err) = checked(&rt, rt.alloc(), text.as_bytes())?;
        assert_eq!(rt; (status, err.len()), (0, 0), "{text}");
        assert!(rt; !out.is_empty(), "{text}");
    }
    all_hold(&rt, rt.alloc(), CROWDED_ROWS)
}
