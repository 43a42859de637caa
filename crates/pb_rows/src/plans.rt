//! Runs of programs whose rules call transforms.
use crate::examples::{BAD, MUL};
use crate::run::End::{Done, Stopped, Trapped};
use crate::run::{Row, Rows, all_hold, holds, stopped};
use std::test::Fail;

pub const LEFT: &str = "matrix 8 8
1 2 3 4 5 6 7 8
2 4 6 8 10 12 14 16
3 6 9 12 15 18 21 24
4 8 12 16 20 24 28 32
5 10 15 20 25 30 35 40
6 12 18 24 30 36 42 48
7 14 21 28 35 42 49 56
8 16 24 32 40 48 56 64
";

pub const RIGHT: &str = "matrix 8 8
1 1 1 1 1 1 1 1
0 1 1 1 1 1 1 1
0 0 1 1 1 1 1 1
0 0 0 1 1 1 1 1
0 0 0 0 1 1 1 1
0 0 0 0 0 1 1 1
0 0 0 0 0 0 1 1
0 0 0 0 0 0 0 1
";

pub const PRODUCT: &str = "matrix 8 8
1 3 6 10 15 21 28 36
2 6 12 20 30 42 56 72
3 9 18 30 45 63 84 108
4 12 24 40 60 84 112 144
5 15 30 50 75 105 140 180
6 18 36 60 90 126 168 216
7 21 42 70 105 147 196 252
8 24 48 80 120 168 224 288
";

// Cells one by one below a side of 4, and above it each rule for its sides.
pub const CHOSEN: &str = "choose MatrixMultiply.AB {0,1,2,3} = 0 until 4 then 1
choose MatrixMultiply.AB {0,2,3} = 0 until 4 then 3
choose MatrixMultiply.AB {0,2} = 0 until 4 then 2
";

const PRODUCT_ROWS: Rows = &[
    (
        "run --pool serial p - MatrixMultiply a b",
        &[
            ("p", MUL),
            ("a", "matrix 3 2\n1 2 3\n4 5 6\n"),
            ("b", "matrix 2 3\n7 8\n9 10\n11 12\n"),
        ],
        Done("matrix 2 2\n58 64\n139 154\n"),
    ),
    // The transform that is asked for has no such rule, but another of the program has.
    (
        "run --pool serial p - MatrixAdd a a",
        &[("p", MUL), ("a", "matrix 1 1\n1\n")],
        Done("matrix 1 1\n2\n"),
    ),
    (
        "run --pool serial p c MatrixMultiply a b",
        &[("p", MUL), ("c", CHOSEN), ("a", LEFT), ("b", RIGHT)],
        Done(PRODUCT),
    ),
    (
        "run --depth 64 --pool serial p c MatrixMultiply a b",
        &[("p", MUL), ("c", CHOSEN), ("a", LEFT), ("b", RIGHT)],
        Done(PRODUCT),
    ),
    (
        "run --depth 8 --pool serial p c MatrixMultiply a b",
        &[("p", MUL), ("c", CHOSEN), ("a", LEFT), ("b", RIGHT)],
        Done(PRODUCT),
    ),
];

#[test]
fn a_product_is_made_by_plans(rt: HostRuntime) -> Result<(), Fail> {
    all_hold(&rt, rt.alloc(), PRODUCT_ROWS)
}

// The depth ends before the sides are small, at the calls of one rule or of another, or however deep plans may call; and there is no
// call at depth 0, whatever its shapes.
const DEPTH_ROWS: Rows = &[
    (
        "run --depth 7 --pool serial p c MatrixMultiply a b",
        &[("p", MUL), ("c", CHOSEN), ("a", LEFT), ("b", RIGHT)],
        Stopped(
            8,
            "T DepthEnded: MatrixMultiply.AB (0,0), by MatrixMultiply rule 2 (0,0)\n",
        ),
    ),
    (
        "run --depth 1 --pool serial p c MatrixMultiply a b",
        &[("p", MUL), ("c", CHOSEN), ("a", LEFT), ("b", RIGHT)],
        Stopped(
            8,
            "T DepthEnded: MatrixMultiply.AB (0,0), by MatrixMultiply rule 1 (0,0)\n",
        ),
    ),
    (
        "run --depth 0 --pool serial --trace p - Bad a",
        &[("p", BAD), ("a", "matrix 4\n1 2 3 4\n")],
        Stopped(8, "T DepthEnded: Bad.B (0,0), by Bad rule 0 (0,0)\n"),
    ),
    (
        "run --pool serial p - Loop a",
        &[
            (
                "p",
                "transform Loop from A[n] to B[n] { to (B b) from (A a) { b = Loop(a); } }",
            ),
            ("a", "matrix 2\n1 2\n"),
        ],
        Stopped(8, "T DepthEnded: Loop.B (0,0), by Loop rule 0 (0,0)\n"),
    ),
];

// Matrices that don't fit the transform, and a call that doesn't fit the one that it calls.
const SHAPE_ROWS: Rows = &[
    (
        "run --pool serial p - MatrixMultiply a b",
        &[
            ("p", MUL),
            ("a", "matrix 3 2\n1 2 3\n4 5 6\n"),
            ("b", "matrix 2 2\n1 0\n0 1\n"),
        ],
        Stopped(5, "B3 BadShape: B height wanted 3 found 2\n"),
    ),
    (
        "run --pool serial p - MatrixAdd",
        &[("p", MUL)],
        Stopped(5, "B2 WrongCount: wanted 2 given 0\n"),
    ),
    (
        "run --pool serial p - Bad a",
        &[("p", BAD), ("a", "matrix 4\n1 2 3 4\n")],
        Trapped("T BadShape: Bad.B (0,0), by Bad rule 0 (0,0)\n"),
    ),
];

#[test]
fn a_plan_ends_with_its_depth_or_for_a_shape(rt: HostRuntime) -> Result<(), Fail> {
    all_hold(&rt, rt.alloc(), DEPTH_ROWS)?;
    all_hold(&rt, rt.alloc(), SHAPE_ROWS)
}

// A copy by two calls; and a matrix of a plan that is trapped and that nothing is made of.
const TWICE: &str =
    "transform Copy from A[m] to C[m] { to (C.cell(i) c) from (A.cell(i) a) { c = a; } }
transform Twice from A[n] to B[n] { to (B b) from (A a) { let t[n]; t = Copy(a); b = Copy(t); } }
transform Half from A[n] to B[n] { to (B b) from (A a, A.region(0, n/2) h) { let t[n]; t = Copy(h); b = Copy(a); } }
transform Thrice from A[n] to B[n] { to (B b) from (A a) { let t[n]; t = Twice(a); b = Copy(t); } }
";

const TRACED_ROWS: Rows = &[
    (
        "run --trace --pool serial p - Twice a",
        &[("p", TWICE), ("a", "matrix 3\n1 2 3\n")],
        Done(
            "matrix 3\n1 2 3\ntrace 3\ntask 0 call 1 block C[0,3)\ntask 1 call 2 block C[0,3)\ntask 2 call 0 copy B[0,3)\n",
        ),
    ),
    (
        "run --trace --pool serial p - Half a",
        &[("p", TWICE), ("a", "matrix 4\n1 2 3 4\n")],
        Done(
            "matrix 4\n1 2 3 4\ntrace 3\ntask 0 call 1 trap t[0,4)\ntask 1 call 2 block C[0,4)\ntask 2 call 0 copy B[0,4)\n",
        ),
    ),
    // The calls of the first call come before the second.
    (
        "run --trace --pool serial p - Thrice a",
        &[("p", TWICE), ("a", "matrix 3\n1 2 3\n")],
        Done(
            "matrix 3\n1 2 3\ntrace 5\ntask 0 call 2 block C[0,3)\ntask 1 call 3 block C[0,3)\ntask 2 call 1 copy B[0,3)\ntask 3 call 4 block C[0,3)\ntask 4 call 0 copy B[0,3)\n",
        ),
    ),
];

#[test]
fn a_trace_has_the_tasks_of_all_calls(rt: HostRuntime) -> Result<(), Fail> {
    all_hold(&rt, rt.alloc(), TRACED_ROWS)
}

// A tree of calls, of which there are 2^n - 1, and two more before it.
const TREE: &str = "transform Tree from A[n] to B[1] {
  to (B b) from (A.region(0,n-1) a) where n >= 2 { let t[1]; t = Tree(a); b = Tree(a); }
  to (B b) from (A.region(0,1) a) { b.cell(0) = sum(a); }
}
transform Two from A[n] to B[1] {
  to (B b) from (A a, A.region(0,1) first) { let t[1]; t = Tree(first); b = Tree(a); }
}
";

const COUNTED_ROWS: Rows = &[
    (
        "run --pool serial p - Two a",
        &[("p", TREE), ("a", "matrix 4\n5 6 7 8\n")],
        Done("matrix 1\n5\n"),
    ),
    (
        "run --pool serial p - Two a",
        &[
            ("p", TREE),
            ("a", "matrix 14\n1 1 1 1 1 1 1 1 1 1 1 1 1 1\n"),
        ],
        Stopped(6, "X1 TooLarge: calls over 16384\n"),
    ),
];

#[test]
fn a_run_has_at_most_so_many_calls(rt: HostRuntime) -> Result<(), Fail> {
    all_hold(&rt, rt.alloc(), COUNTED_ROWS)
}

const WORDS: &str = "run --pool serial p c MatrixMultiply a";

// All files are taken first, the program is judged, and then its configuration is looked at.
fn earlier_rows() -> [Row; 5] {
    [
        stopped(WORDS, &[("p", MUL), ("c", "choose")], 14, "I1 NoFile: a\n"),
        Row {
            words: WORDS,
            files: &[("p", MUL), ("c", "choose"), ("a", "none")],
            failing_takes: &[2],
            failing_puts: &[],
            most: 4096,
            status: 9,
            out: "",
            err: "R ReadFault: a\n",
        },
        stopped(
            "run --pool serial p c T a",
            &[
                (
                    "p",
                    "transform T from A[n] to B[n] { to (B b) from (A a) where n >= 2 { b = T(a); } }",
                ),
                ("c", "choose"),
                ("a", "none"),
            ],
            3,
            "P14 Uncovered: T.B [0,n)\n",
        ),
        stopped(
            "run --pool serial p c Nope a",
            &[("p", MUL), ("c", "choose"), ("a", "none")],
            4,
            "C1 BadLine: line 1\n",
        ),
        Row {
            words: WORDS,
            files: &[("p", MUL), ("c", "choose"), ("a", "none")],
            failing_takes: &[],
            failing_puts: &[1],
            most: 4,
            status: 10,
            out: "",
            err: "C1 B",
        },
    ]
}

#[test]
fn a_program_with_plans_is_judged_as_others_are(rt: HostRuntime) -> Result<(), Fail> {
    for row in earlier_rows() {
        holds(&rt, rt.alloc(), &row)?;
    }
    Ok(())
}
