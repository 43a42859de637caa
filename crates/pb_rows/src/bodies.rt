//! What bodies compute, as a run shows it.
use crate::run::End::{Done, Trapped};
use crate::run::{Rows, all_hold};
use std::test::Fail;

// Quotients and remainders.
const PARTS: &str = "transform Parts from A[n], D[n] to Q[n], R[n] {
  to (Q.cell(i) q) from (A.cell(i) a, D.cell(i) d) { q = a / d; }
  to (R.cell(i) r) from (A.cell(i) a, D.cell(i) d) { r = a % d; }
}
";

// Each kind of statement of a body for a cell; where the left side decides, a right side would divide by 0.
const STEPS: &str = "transform Steps from A[n] to B[n] {
  to (B.cell(i) b) from (A a, A.cell(i) c) {
    let s = 0;
    for (k = 0 .. i + 1) {
      if (a.cell(k) > 0 && 12 / a.cell(k) > 2) { s = s + a.cell(k); } else { s = s - 1; }
    }
    if (c == 0 || 12 % c == 0) { b = max(s, abs(0 - c)); } else { b = min(s, - c); }
  }
}
";

// A loop of as many turns as there are cells and four more, over numbers alone.
const TURNS: &str = "transform Turns from A[n] to B[n] {
  to (B.cell(i) b) from (A.cell(i) a) {
    let x = a;
    let last = 0;
    for (k = 0 .. n + 4) {
      let half = x / 2;
      if (x % 2 == 0) { x = max(half, k - n) + i; } else { if (x > 50) { x = min(x - 7, (x - k) * 2); } else { x = 3 * x + 1; } }
      last = last * 2 + k;
    }
    b = x * 1000000 + last;
  }
}
";

// Traps in a late turn of a loop over numbers alone.
const LATE: &str = "transform Late from A[n] to B[n] {
  to (B.cell(i) b) from (A.cell(i) a) {
    let x = 1;
    for (k = 0 .. 12) { if (k < 10) { x = x * a; } else { x = x / (a - 3); } }
    b = x;
  }
}
";

// A sum and a difference of cells, one of which the line has just made.
const CHAINED: &str = "transform Chained from A[n] to B[n] {
  to (B.cell(i) b) from (A.cell(i) a, B.cell(i - 1) l) where i >= 1 { b = a - l + 7; }
  secondary to (B.cell(i) b) from (A.cell(i) a) { b = a; }
}
";

const DOTS: &str =
    "transform T from A[c,h], D[w,c] to B[w,h] { to (B.cell(x,y) b) from (A.row(y) r, D.column(x) s) { b = dot(r, s); } }";

// How often each place stands in the input.
const COUNTS: &str = "transform Counts from A[n] to B[n] {
  to (B b) from (A a) { for (k = 0 .. n) { b.cell(a.cell(k)) = b.cell(a.cell(k)) + 1; } }
}
";

const COMPUTED_ROWS: Rows = &[
    (
        "run --pool serial p - Parts a d",
        &[
            ("p", PARTS),
            ("a", "matrix 4\n7 -7 7 -7\n"),
            ("d", "matrix 4\n2 2 -2 -2\n"),
        ],
        Done("matrix 4\n3 -3 -3 3\nmatrix 4\n1 -1 1 -1\n"),
    ),
    (
        "run --pool serial p - Steps a",
        &[("p", STEPS), ("a", "matrix 4\n3 0 5 -2\n")],
        Done("matrix 4\n3 2 -5 2\n"),
    ),
    (
        "run --pool serial p - Counts a",
        &[("p", COUNTS), ("a", "matrix 4\n0 2 2 3\n")],
        Done("matrix 4\n1 0 2 1\n"),
    ),
    // From left to right, products before sums.
    (
        "run --pool serial p - T a",
        &[
            (
                "p",
                "transform T from A[n] to B[n] { to (B.cell(i) b) from (A.cell(i) a) { b = a - 2 - 1 + 10 / 3 * 3 % 5; } }",
            ),
            ("a", "matrix 2\n7 -1\n"),
        ],
        Done("matrix 2\n8 0\n"),
    ),
    // Rule variables and sizes.
    (
        "run --pool serial p - T a",
        &[
            (
                "p",
                "transform T from A[w,h] to B[w,h] { to (B.cell(x,y) b) from () { b = 100 * x + 10 * y + w; } }",
            ),
            ("a", "matrix 2 2\n0 0\n0 0\n"),
        ],
        Done("matrix 2 2\n2 102\n12 112\n"),
    ),
    // A loop with as many turns as there may be, and loops without a turn.
    (
        "run --pool serial p - T a",
        &[
            (
                "p",
                "transform T from A[n] to B[n] { to (B.cell(i) b) from (A.cell(i) a) { for (k = 0 .. a) { b = b + 1; } for (k = 5 .. 5) { b = 1 / 0; } } }",
            ),
            ("a", "matrix 3\n1048576 3 -5\n"),
        ],
        Done("matrix 3\n1048576 3 0\n"),
    ),
    // Products of a row and a column, of numbers about 2^20, and of larger ones.
    (
        "run --pool serial p - T a d",
        &[
            ("p", DOTS),
            ("a", "matrix 3 2\n1 2 3\n4 5 6\n"),
            ("d", "matrix 2 3\n7 8\n9 10\n11 12\n"),
        ],
        Done("matrix 2 2\n58 64\n139 154\n"),
    ),
    (
        "run --pool serial p - T a d",
        &[
            ("p", DOTS),
            (
                "a",
                "matrix 5 2\n1048576 1048575 -1048576 3 -1048577\n1 2 3 4 5\n",
            ),
            (
                "d",
                "matrix 2 5\n5 6\n-7 -8\n1048576 9\n1048577 10\n2 -11\n",
            ),
        ],
        Done("matrix 2 2\n-1099512676344 49\n7340037 2\n"),
    ),
    (
        "run --pool serial p - T a d",
        &[
            ("p", DOTS),
            ("a", "matrix 3 1\n1 3037000500 3037000500\n"),
            ("d", "matrix 1 3\n1\n3037000500\n3037000500\n"),
        ],
        Trapped("T Overflow: T.B (0,0), by T rule 0 (0,0)\n"),
    ),
    // Loops of seven, eight and ten turns.
    (
        "run --pool serial p - Turns a",
        &[("p", TURNS), ("a", "matrix 3\n7 -3 96\n")],
        Done("matrix 3\n13000120 10000120 60000120\n"),
    ),
    (
        "run --pool serial p - Turns a",
        &[("p", TURNS), ("a", "matrix 4\n7 -3 96 1\n")],
        Done("matrix 4\n40000247 6000247 32000247 40000247\n"),
    ),
    (
        "run --pool serial p - Turns a",
        &[("p", TURNS), ("a", "matrix 6\n7 -3 96 1 0 27\n")],
        Done("matrix 6\n10001013 6001013 11001013 70001013 136001013 40001013\n"),
    ),
    (
        "run --pool serial p - Late a",
        &[("p", LATE), ("a", "matrix 3\n2 -1 3\n")],
        Trapped("T DivideByZero: Late.B (2,0), by Late rule 0 (2,0)\n"),
    ),
    (
        "run --pool serial p - Late a",
        &[("p", LATE), ("a", "matrix 2\n1 100\n")],
        Trapped("T Overflow: Late.B (1,0), by Late rule 0 (1,0)\n"),
    ),
    // Sums and differences of cells: small ones, some about 2^58, and one that is no number of 64 bits.
    (
        "run --pool serial p - Chained a",
        &[("p", CHAINED), ("a", "matrix 3\n5 3 10\n")],
        Done("matrix 3\n5 5 12\n"),
    ),
    (
        "run --pool serial p - Chained a",
        &[
            ("p", CHAINED),
            (
                "a",
                "matrix 3\n288230376151711744 288230376151711745 -288230376151711745\n",
            ),
        ],
        Done("matrix 3\n288230376151711744 8 -288230376151711746\n"),
    ),
    (
        "run --pool serial p - Chained a",
        &[
            ("p", CHAINED),
            ("a", "matrix 3\n-1 9223372036854775807 1\n"),
        ],
        Trapped("T Overflow: Chained.B (1,0), by Chained rule 0 (1,0)\n"),
    ),
];

#[test]
fn bodies_compute_what_they_say(rt: HostRuntime) -> Result<(), Fail> {
    all_hold(&rt, rt.alloc(), COMPUTED_ROWS)
}
