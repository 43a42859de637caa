//! Runs whose layers are cut into blocks.
use crate::examples::{DIV, DOUBLE, PREFIX, ROLL};
use crate::run::End::Done;
use crate::run::{Files, Rows, all_hold, done, holds, trapped};
use crate::threads::{DIVISORS, TEN};
use std::test::Fail;

const ROLLED: Files = &[
    ("p", ROLL),
    ("c", "choose RollingSum.B {0,1} = 0 until 2 then 1\n"),
    ("a", "matrix 4\n1 2 3 4\n"),
];

const ROLLED_TRACE: &str = "matrix 4\n1 3 6 10\ntrace 4\n\
task 0 call 0 block B[0,1)\ntask 1 call 0 block B[1,2)\ntask 2 call 0 block B[2,3)\ntask 3 call 0 block B[3,4)\n";

const DIVIDED: Files = &[("p", DIV), ("a", TEN), ("d", DIVISORS)];

const DIVIDED_BY_0: &str = "T DivideByZero: Div.Q (3,0), by Div rule 0 (3,0)\n";

const SUMMED: Files = &[("p", PREFIX), ("a", "matrix 3 2\n1 2 3\n4 5 6\n")];

const SUMMED_MATRIX: &str = "matrix 3 2\n1 3 6\n5 12 21\n";

// Sums of what comes after, from right to left.
const SUFFIX: &str = "transform Suffix from A[n] to B[n] {
  to (B.cell(i) b) from (A.region(i, n) a) { b = sum(a); }
  to (B.cell(i) b) from (A.cell(i) a, B.cell(i + 1) r) { b = a + r; }
}
";

const ROLLED_ROWS: Rows = &[
    (
        "run --workers 4 --grain 1 --trace p c RollingSum a",
        ROLLED,
        Done(ROLLED_TRACE),
    ),
    (
        "run --workers 4 --grain 1 --trace --pool locked p c RollingSum a",
        ROLLED,
        Done(ROLLED_TRACE),
    ),
    (
        "run --workers 4 --grain 1 p c RollingSum a",
        &[
            ("p", ROLL),
            ("c", "choose RollingSum.B {0,1} = 0 until 2 then 1\n"),
            ("a", "matrix 1\n7\n"),
        ],
        Done("matrix 1\n7\n"),
    ),
];

const DIVIDED_CALLS: &[&str] = &[
    "run --grain 8 --workers 4 p - Div a d",
    "run --grain 8 --workers 4 --pool locked p - Div a d",
    "run --grain 8 --pool serial p - Div a d",
    "run --grain 1 --workers 4 p - Div a d",
    "run --grain 1 --workers 4 --pool locked p - Div a d",
    "run --grain 1 --pool serial p - Div a d",
];

const SUMMED_CALLS: &[&str] = &[
    "run --grain 1 --workers 4 p - Prefix2 a",
    "run --grain 2 --workers 4 p - Prefix2 a",
    "run --grain 64 --workers 4 p - Prefix2 a",
    "run --grain 1 --workers 4 --pool locked p - Prefix2 a",
    "run --grain 2 --workers 4 --pool locked p - Prefix2 a",
    "run --grain 64 --workers 4 --pool locked p - Prefix2 a",
    "run --grain 1 --pool serial p - Prefix2 a",
    "run --grain 2 --pool serial p - Prefix2 a",
    "run --grain 64 --pool serial p - Prefix2 a",
];

const CUT_ROWS: Rows = &[
    // 16 blocks of side 2 would not reach the end, so the side is 3.
    (
        "run --grain 1 --pool serial --trace p - Double a",
        &[
            ("p", DOUBLE),
            (
                "a",
                "matrix 33\n1 1 1 1 1 1 1 1 1 1 1 1 1 1 1 1 1 1 1 1 1 1 1 1 1 1 1 1 1 1 1 1 1\n",
            ),
        ],
        Done(
            "matrix 33\n2 2 2 2 2 2 2 2 2 2 2 2 2 2 2 2 2 2 2 2 2 2 2 2 2 2 2 2 2 2 2 2 2\ntrace 11\n\
            task 0 call 0 block B[0,3)\ntask 1 call 0 block B[3,6)\ntask 2 call 0 block B[6,9)\ntask 3 call 0 block B[9,12)\n\
            task 4 call 0 block B[12,15)\ntask 5 call 0 block B[15,18)\ntask 6 call 0 block B[18,21)\ntask 7 call 0 block B[21,24)\n\
            task 8 call 0 block B[24,27)\ntask 9 call 0 block B[27,30)\ntask 10 call 0 block B[30,33)\n",
        ),
    ),
    // Blocks come in the direction in which cells are made.
    (
        "run --grain 1 --workers 4 --trace p c Suffix a",
        &[
            ("p", SUFFIX),
            ("c", "choose Suffix.B {0,1} = 0 until 2 then 1\n"),
            ("a", "matrix 4\n1 2 3 4\n"),
        ],
        Done(
            "matrix 4\n10 9 7 4\ntrace 4\n\
            task 0 call 0 block B[3,4)\ntask 1 call 0 block B[2,3)\ntask 2 call 0 block B[1,2)\ntask 3 call 0 block B[0,1)\n",
        ),
    ),
    // By x, and then by y; a layer's last block ends where its matrix does.
    (
        "run --grain 2 --pool serial --trace p - Prefix2 a",
        &[
            ("p", PREFIX),
            ("a", "matrix 4 4\n1 1 1 1\n1 1 1 1\n1 1 1 1\n1 1 1 1\n"),
        ],
        Done(
            "matrix 4 4\n1 2 3 4\n2 4 6 8\n3 6 9 12\n4 8 12 16\ntrace 9\n\
            task 0 call 0 block S[0,1)x[0,1)\ntask 1 call 0 block S[1,2)x[0,1)\ntask 2 call 0 block S[2,4)x[0,1)\n\
            task 3 call 0 block S[0,1)x[1,2)\ntask 4 call 0 block S[0,1)x[2,4)\ntask 5 call 0 block S[1,2)x[1,2)\n\
            task 6 call 0 block S[1,2)x[2,4)\ntask 7 call 0 block S[2,4)x[1,2)\ntask 8 call 0 block S[2,4)x[2,4)\n",
        ),
    ),
];

#[test]
fn blocks_are_cut_and_numbered_by_the_order_of_their_layer(rt: HostRuntime) -> Result<(), Fail> {
    all_hold(&rt, rt.alloc(), ROLLED_ROWS)?;
    all_hold(&rt, rt.alloc(), CUT_ROWS)
}

#[test]
fn every_grain_gives_the_same_matrices_and_traps(rt: HostRuntime) -> Result<(), Fail> {
    for words in DIVIDED_CALLS {
        holds(&rt, rt.alloc(), &trapped(words, DIVIDED, DIVIDED_BY_0))?;
    }
    for words in SUMMED_CALLS {
        holds(&rt, rt.alloc(), &done(words, SUMMED, SUMMED_MATRIX))?;
    }
    Ok(())
}
