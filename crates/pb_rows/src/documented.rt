//! The runs that the READMEs and the language reference show.
use crate::examples::{DIV, ROLL};
use crate::run::End::{Done, Stopped, Trapped};
use crate::run::{Rows, all_hold};
use std::test::Fail;

const FIRST_ROWS: Rows = &[
    (
        "run --pool serial roll.pb roll.config RollingSum in.txt",
        &[
            ("roll.pb", ROLL),
            (
                "roll.config",
                "choose RollingSum.B {0,1} = 0 until 2 then 1\n",
            ),
            ("in.txt", "matrix 3\n1 2 3\n"),
        ],
        Done("matrix 3\n1 3 6\n"),
    ),
    (
        "run --pool serial --trace roll.pb roll.config RollingSum in.txt",
        &[
            ("roll.pb", ROLL),
            (
                "roll.config",
                "choose RollingSum.B {0,1} = 0 until 2 then 1\n",
            ),
            ("in.txt", "matrix 3\n1 2 3\n"),
        ],
        Done("matrix 3\n1 3 6\ntrace 2\ntask 0 call 0 block B[0,1)\ntask 1 call 0 block B[1,3)\n"),
    ),
    (
        "run --pool serial div.pb - Div in.txt divisors.txt",
        &[
            ("div.pb", DIV),
            ("in.txt", "matrix 3\n1 2 3\n"),
            ("divisors.txt", "matrix 3\n1 0 2\n"),
        ],
        Trapped("T DivideByZero: Div.Q (1,0), by Div rule 0 (1,0)\n"),
    ),
    (
        "run --pool serial div.pb - Div in.txt",
        &[("div.pb", DIV), ("in.txt", "matrix 3\n1 2 3\n")],
        Stopped(5, "B2 WrongCount: wanted 2 given 1\n"),
    ),
];

// Rules of a transform that trap.
const TRY_ROWS: Rows = &[
    (
        "run --pool serial p - Try a",
        &[
            (
                "p",
                "transform Try from A[n] to B[n] { to (B.cell(i) b) from (A.cell(i) a) { b = a + 1; } }",
            ),
            ("a", "matrix 2\n1 9223372036854775807\n"),
        ],
        Trapped("T Overflow: Try.B (1,0), by Try rule 0 (1,0)\n"),
    ),
    (
        "run --pool serial p - Try a",
        &[
            (
                "p",
                "transform Try from A[n] to B[n] { to (B.cell(i) b) from (A.cell(i) a) { b = 10 / a; } }",
            ),
            ("a", "matrix 3\n5 0 2\n"),
        ],
        Trapped("T DivideByZero: Try.B (1,0), by Try rule 0 (1,0)\n"),
    ),
    (
        "run --pool serial p - Try a",
        &[
            (
                "p",
                "transform Try from A[n] to B[n] { to (B.cell(i) b) from (A a) { b = a.cell(i + 1); } }",
            ),
            ("a", "matrix 3\n1 2 3\n"),
        ],
        Trapped("T OutOfView: Try.B (2,0), by Try rule 0 (2,0)\n"),
    ),
    (
        "run --pool serial p - Try a",
        &[
            (
                "p",
                "transform Try from A[n] to B[n] { to (B.cell(i) b) from (A.cell(i) a) { for (k = 0 .. a) { b = b + 1; } } }",
            ),
            ("a", "matrix 2\n5 1048577\n"),
        ],
        Trapped("T LoopLimit: Try.B (1,0), by Try rule 0 (1,0)\n"),
    ),
    (
        "run --pool serial p - Try a",
        &[
            (
                "p",
                "transform Try from A[n] to B[n] { to (B.cell(i) b) from (A.region(0, i + 1) p, A q) { b = dot(p, q); } }",
            ),
            ("a", "matrix 2\n1 2\n"),
        ],
        Trapped("T BadShape: Try.B (0,0), by Try rule 0 (0,0)\n"),
    ),
];

const RAISE: &str = "transform Raise from A[n] to B[n] {
  to (B.region(1, n) b) from (A a) { for (k = 0 .. b.width()) { b.cell(k) = a.cell(k + 1) + 1; } }
  to (B.cell(0) b) from () { b = 7; }
}
";

const MARKS: &str = "transform Marks from A[n] to B[n] {
  to (B b) from (A a) { for (k = 0 .. n) { if (a.cell(k) > 0) { b.cell(k) = 1; } } }
}
";

const STRETCHED: &str =
    "transform Stretch from A[n] to B[1048576 * n] { to (B.cell(i) b) from () { b = 1; } }";

const OTHER_ROWS: Rows = &[
    (
        "run --pool serial p - Raise a",
        &[("p", RAISE), ("a", "matrix 3\n1 2 9223372036854775807\n")],
        Trapped("T Overflow: Raise.B (1,0), by Raise rule 0 (1,0)\n"),
    ),
    (
        "run --pool serial p - Raise a",
        &[("p", RAISE), ("a", "matrix 3\n1 2 3\n")],
        Done("matrix 3\n7 3 4\n"),
    ),
    // Where the rule makes no cell, it isn't run.
    (
        "run --pool serial p - Raise a",
        &[("p", RAISE), ("a", "matrix 1\n9223372036854775807\n")],
        Done("matrix 1\n7\n"),
    ),
    (
        "run --pool serial p - Marks a",
        &[("p", MARKS), ("a", "matrix 3\n-1 5 0\n")],
        Done("matrix 3\n0 1 0\n"),
    ),
    (
        "run --pool serial p - Stretch a",
        &[("p", STRETCHED), ("a", "matrix 5\n1 2 3 4 5\n")],
        Stopped(6, "X1 TooLarge: side over 4194304\n"),
    ),
    (
        "run --pool serial p - Stretch a",
        &[("p", STRETCHED), ("a", "matrix 4\n1 2 3 4\n")],
        Stopped(6, "X1 TooLarge: cells over 4194304\n"),
    ),
];

#[test]
fn what_is_shown_to_readers_is_so(rt: HostRuntime) -> Result<(), Fail> {
    all_hold(&rt, rt.alloc(), FIRST_ROWS)?;
    all_hold(&rt, rt.alloc(), TRY_ROWS)?;
    all_hold(&rt, rt.alloc(), OTHER_ROWS)
}
