//! Runs that are refused, in the order of work: the program, the configuration, the transform, the inputs' texts, their
//! dimensions, sizes and sides, and what is counted of the run.
use crate::examples::{BLUR2, DIV, PREFIX, ROLL};
use crate::run::End::Stopped;
use crate::run::{Rows, all_hold};
use std::test::Fail;

const PROGRAM_ROWS: Rows = &[
    (
        "run --pool serial p - T a",
        &[("p", ""), ("a", "matrix 1\n1\n")],
        Stopped(3, "P3 BadSyntax: byte 0\n"),
    ),
    (
        "run --pool serial p - T a",
        &[("p", "transform @"), ("a", "matrix 1\n1\n")],
        Stopped(3, "P2 BadToken: byte 10\n"),
    ),
    (
        "run --pool serial p - T a",
        &[
            (
                "p",
                "transform T from A[n] to B[n] { to (B.cell(i) b) from () { b = z; } }",
            ),
            ("a", "matrix 1\n1\n"),
        ],
        Stopped(3, "P6 UnknownName: z at byte 63\n"),
    ),
    (
        "run --pool serial p - T a",
        &[
            (
                "p",
                "transform T from A[n] to B[n] { to (B.cell(i) b) from () { b = 1 < 2; } }",
            ),
            ("a", "matrix 1\n1\n"),
        ],
        Stopped(3, "P11 BadType: byte 63\n"),
    ),
];

const CONFIGURATION_ROWS: Rows = &[
    (
        "run --pool serial p c RollingSum a",
        &[
            ("p", ROLL),
            ("c", "choose RollingSum.B {0,1} = 2"),
            ("a", "matrix 1\n7\n"),
        ],
        Stopped(4, "C3 NotInSet: line 1\n"),
    ),
    (
        "run --pool serial p c RollingSum a",
        &[
            ("p", ROLL),
            (
                "c",
                "choose RollingSum.B {0,1} = 0 until 8 then 1 until 8 then 0",
            ),
            ("a", "matrix 1\n7\n"),
        ],
        Stopped(4, "C4 CutoffsNotRising: line 1\n"),
    ),
    (
        "run --pool serial p c RollingSum a",
        &[
            ("p", ROLL),
            (
                "c",
                "choose RollingSum.B {0,1} = 0 until 2 then 1\nchoose RollingSum.B {0,1} = 0 until 2 then 1\n",
            ),
            ("a", "matrix 1\n7\n"),
        ],
        Stopped(4, "C5 Twice: line 2\n"),
    ),
    (
        "run --pool serial p c RollingSum a",
        &[
            ("p", ROLL),
            ("c", "choose RollingSum.A {0} = 0"),
            ("a", "matrix 1\n7\n"),
        ],
        Stopped(4, "C2 UnknownPlace: line 1\n"),
    ),
    (
        "run --pool serial p c RollingSum a",
        &[("p", ROLL), ("c", "choose"), ("a", "matrix 1\n7\n")],
        Stopped(4, "C1 BadLine: line 1\n"),
    ),
    // Lines are counted with remarks and blank lines.
    (
        "run --pool serial p c RollingSum a",
        &[
            ("p", ROLL),
            ("c", "# sums\r\n\r\nchoose RollingSum.B {0,1} = 1\nchoose\n"),
            ("a", "matrix 1\n7\n"),
        ],
        Stopped(4, "C1 BadLine: line 4\n"),
    ),
    (
        "run --pool serial p c RollingSum a",
        &[
            ("p", ROLL),
            ("c", "choose Nope.B {0} = 0"),
            ("a", "matrix 1\n7\n"),
        ],
        Stopped(4, "C2 UnknownPlace: line 1\n"),
    ),
    (
        "run --pool serial p c RollingSum a",
        &[
            ("p", ROLL),
            ("c", "choose RollingSum.B {0,2} = 0"),
            ("a", "matrix 1\n7\n"),
        ],
        Stopped(4, "C2 UnknownPlace: line 1\n"),
    ),
    // A name that stands for no configuration stands for a file anywhere else.
    (
        "run --pool serial p c RollingSum -",
        &[
            ("p", ROLL),
            ("c", "choose RollingSum.B {0,1} = 1"),
            ("-", "none"),
        ],
        Stopped(5, "M1 BadHeader: -\n"),
    ),
];

const ENTRY_ROWS: Rows = &[
    (
        "run --pool serial p - Nope a",
        &[("p", ROLL), ("a", "matrix 1\n7\n")],
        Stopped(5, "B1 UnknownTransform: Nope\n"),
    ),
    (
        "run --pool serial p - RollingSum",
        &[("p", ROLL)],
        Stopped(5, "B2 WrongCount: wanted 1 given 0\n"),
    ),
    (
        "run --pool serial p - RollingSum a a a",
        &[("p", ROLL), ("a", "matrix 1\n7\n")],
        Stopped(5, "B2 WrongCount: wanted 1 given 3\n"),
    ),
    (
        "run --pool serial p - Div a",
        &[("p", DIV), ("a", "matrix 1\n7\n")],
        Stopped(5, "B2 WrongCount: wanted 2 given 1\n"),
    ),
    (
        "run --pool serial p - RollingSum a",
        &[("p", ROLL), ("a", "")],
        Stopped(5, "M1 BadHeader: a\n"),
    ),
    (
        "run --pool serial p - RollingSum a",
        &[("p", ROLL), ("a", "matrix 1\n9223372036854775808\n")],
        Stopped(5, "M2 BadNumber: a word 0\n"),
    ),
    (
        "run --pool serial p - RollingSum a",
        &[("p", ROLL), ("a", "matrix 3\n1 2\n")],
        Stopped(5, "M3 TooFew: a wanted 3 found 2\n"),
    ),
    (
        "run --pool serial p - RollingSum a",
        &[("p", ROLL), ("a", "matrix 3\n1 2 3 4\n")],
        Stopped(5, "M4 TooMany: a wanted 3\n"),
    ),
    // The first faulty input is told.
    (
        "run --pool serial p - Div a d",
        &[("p", DIV), ("a", "matrix 2\n1 x\n"), ("d", "")],
        Stopped(5, "M2 BadNumber: a word 1\n"),
    ),
    (
        "run --pool serial p - Div a d",
        &[("p", DIV), ("a", "matrix 2\n1 2\n"), ("d", "matrix\n")],
        Stopped(5, "M1 BadHeader: d\n"),
    ),
];

const ADD: &str = "transform Add from A[w,h], D[w,h] to C[w,h] {
  to (C.cell(x,y) c) from (A.cell(x,y) a, D.cell(x,y) d) { c = a + d; }
}
";

const SHAPE_ROWS: Rows = &[
    (
        "run --pool serial p - Prefix2 a",
        &[("p", PREFIX), ("a", "matrix 2\n1 2\n")],
        Stopped(5, "B3 BadShape: A dimensions wanted 2 found 1\n"),
    ),
    (
        "run --pool serial p - RollingSum a",
        &[("p", ROLL), ("a", "matrix 2 1\n1 2\n")],
        Stopped(5, "B3 BadShape: A dimensions wanted 1 found 2\n"),
    ),
    (
        "run --pool serial p - Div a d",
        &[
            ("p", DIV),
            ("a", "matrix 2\n1 2\n"),
            ("d", "matrix 3\n1 2 3\n"),
        ],
        Stopped(5, "B3 BadShape: D width wanted 2 found 3\n"),
    ),
    (
        "run --pool serial p - Add a d",
        &[
            ("p", ADD),
            ("a", "matrix 2 1\n1 2\n"),
            ("d", "matrix 2 2\n1 2\n3 4\n"),
        ],
        Stopped(5, "B3 BadShape: D height wanted 1 found 2\n"),
    ),
    (
        "run --pool serial p - Add a d",
        &[
            ("p", ADD),
            ("a", "matrix 2 1\n1 2\n"),
            ("d", "matrix 1 2\n1\n2\n"),
        ],
        Stopped(5, "B3 BadShape: D width wanted 2 found 1\n"),
    ),
    // A side that is a number, and one that is a form.
    (
        "run --pool serial p - T a",
        &[
            (
                "p",
                "transform T from A[3] to B[3] { to (B.cell(i) b) from (A.cell(i) a) { b = a; } }",
            ),
            ("a", "matrix 4\n1 2 3 4\n"),
        ],
        Stopped(5, "B3 BadShape: A width wanted 3 found 4\n"),
    ),
    (
        "run --pool serial p - T a e",
        &[
            (
                "p",
                "transform T from E[2*n - 1], A[n] to B[n] { to (B.cell(i) b) from (A.cell(i) a) { b = a; } }",
            ),
            ("a", "matrix 5\n1 2 3 4 5\n"),
            ("e", "matrix 2\n1 2\n"),
        ],
        Stopped(5, "B3 BadShape: E width wanted 3 found 5\n"),
    ),
    // Sizes have a least value, 1 where none is written.
    (
        "run --pool serial p - Blur3 a",
        &[("p", BLUR2), ("a", "matrix 1\n5\n")],
        Stopped(5, "B4 SizeOutOfRange: n is 1\n"),
    ),
    (
        "run --pool serial p - RollingSum a",
        &[("p", ROLL), ("a", "matrix 0\n")],
        Stopped(5, "B4 SizeOutOfRange: n is 0\n"),
    ),
    (
        "run --pool serial p - Prefix2 a",
        &[("p", PREFIX), ("a", "matrix 2 0\n")],
        Stopped(5, "B4 SizeOutOfRange: h is 0\n"),
    ),
];

/// A transform whose output has 1,048,576 times as many cells as its inputs, each of which divides by the first cell.
pub const STRETCH: &str = "transform Stretch from A[n], D[n] to B[1048576 * n] {
  to (B.cell(i) b) from (A.cell(0) a) { b = 1 / a; }
}
";

// Each cell would be trapped, but none is made.
const COUNT_ROWS: Rows = &[
    (
        "run --pool serial p - Stretch a a",
        &[("p", STRETCH), ("a", "matrix 5\n0 0 0 0 0\n")],
        Stopped(6, "X1 TooLarge: side over 4194304\n"),
    ),
    (
        "run --pool serial p - Stretch a a",
        &[("p", STRETCH), ("a", "matrix 4\n0 0 0 0\n")],
        Stopped(6, "X1 TooLarge: cells over 4194304\n"),
    ),
];

#[test]
fn a_refused_run_is_told_why(rt: HostRuntime) -> Result<(), Fail> {
    all_hold(&rt, rt.alloc(), PROGRAM_ROWS)?;
    all_hold(&rt, rt.alloc(), CONFIGURATION_ROWS)?;
    all_hold(&rt, rt.alloc(), ENTRY_ROWS)?;
    all_hold(&rt, rt.alloc(), SHAPE_ROWS)?;
    all_hold(&rt, rt.alloc(), COUNT_ROWS)
}
