//! What a configuration chooses, as a run shows it: by programs whose rules don't agree.
use crate::examples::ROLL;
use crate::run::End::Done;
use crate::run::{Rows, all_hold};
use std::test::Fail;

// Three rules that don't agree.
const PICK: &str = "transform Pick from A[n] to B[n] {
  to (B.cell(i) b) from (A.cell(i) a) { b = a; }
  to (B.cell(i) b) from (A.cell(i) a) { b = 10 * a; }
  to (B.cell(i) b) from (A.cell(i) a) { b = 100 * a; }
}
";

const BY_SIZE: &str = "choose Pick.B {0,1,2} = 0 until 2 then 1 until 4 then 2\n";

// By the size of the call, which is below 2, from 2 to 3, and 4.
const CHOSEN_ROWS: Rows = &[
    (
        "run --pool serial p c Pick a",
        &[("p", PICK), ("c", BY_SIZE), ("a", "matrix 1\n7\n")],
        Done("matrix 1\n7\n"),
    ),
    (
        "run --pool serial p c Pick a",
        &[("p", PICK), ("c", BY_SIZE), ("a", "matrix 2\n1 2\n")],
        Done("matrix 2\n10 20\n"),
    ),
    (
        "run --pool serial p c Pick a",
        &[("p", PICK), ("c", BY_SIZE), ("a", "matrix 3\n1 2 3\n")],
        Done("matrix 3\n10 20 30\n"),
    ),
    (
        "run --pool serial p c Pick a",
        &[("p", PICK), ("c", BY_SIZE), ("a", "matrix 4\n1 2 3 4\n")],
        Done("matrix 4\n100 200 300 400\n"),
    ),
    // Without an entry it is the first rule; an entry for a set that no cell has makes no difference.
    (
        "run --pool serial p c Pick a",
        &[
            ("p", PICK),
            ("c", "choose Pick.B {0,1} = 1\nchoose Pick.B {1,2} = 2\n"),
            ("a", "matrix 2\n1 2\n"),
        ],
        Done("matrix 2\n1 2\n"),
    ),
    (
        "run --pool serial p c Pick a",
        &[("p", PICK), ("c", ""), ("a", "matrix 2\n1 2\n")],
        Done("matrix 2\n1 2\n"),
    ),
    // Remarks, blank lines, other line ends, and a line without blanks and without an end.
    (
        "run --pool serial p c Pick a",
        &[
            ("p", PICK),
            ("c", "# by size\r\n\r\n \t\nchoosePick.B{0,1,2}=2"),
            ("a", "matrix 2\n1 2\n"),
        ],
        Done("matrix 2\n100 200\n"),
    ),
    (
        "run --pool serial p c RollingSum a",
        &[
            ("p", ROLL),
            ("c", "choose RollingSum.B {0,1} = 0 until 2 then 1\n"),
            ("a", "matrix 1\n7\n"),
        ],
        Done("matrix 1\n7\n"),
    ),
];

const FLIP: &str = "transform Flip from A[w,h] to B[w,h] {
  to (B.cell(x,y) b) from (A.cell(x,y) a) { b = a; }
  to (B.cell(x,y) b) from (A.cell(x,y) a) { b = - a; }
}
";

const FIXED: &str = "transform Fixed from A[2] to B[2] {
  to (B.cell(i) b) from (A.cell(i) a) { b = a; }
  to (B.cell(i) b) from (A.cell(i) a) { b = - a; }
}
";

// The size is the greatest of all size variables, or 1 where there is none.
const SIZED_ROWS: Rows = &[
    (
        "run --pool serial p c Flip a",
        &[
            ("p", FLIP),
            ("c", "choose Flip.B {0,1} = 0 until 3 then 1"),
            ("a", "matrix 1 3\n1\n2\n3\n"),
        ],
        Done("matrix 1 3\n-1\n-2\n-3\n"),
    ),
    (
        "run --pool serial p c Flip a",
        &[
            ("p", FLIP),
            ("c", "choose Flip.B {0,1} = 0 until 3 then 1"),
            ("a", "matrix 2 2\n1 2\n3 4\n"),
        ],
        Done("matrix 2 2\n1 2\n3 4\n"),
    ),
    (
        "run --pool serial p c Fixed a",
        &[
            ("p", FIXED),
            ("c", "choose Fixed.B {0,1} = 0 until 2 then 1"),
            ("a", "matrix 2\n3 4\n"),
        ],
        Done("matrix 2\n3 4\n"),
    ),
    (
        "run --pool serial p c Fixed a",
        &[
            ("p", FIXED),
            ("c", "choose Fixed.B {0,1} = 0 until 1 then 1"),
            ("a", "matrix 2\n3 4\n"),
        ],
        Done("matrix 2\n-3 -4\n"),
    ),
];

// A rule for the whole matrix with a guard, beside one for each cell.
const TURN: &str = "transform Turn from A[n] to B[n] {
  to (B.cell(i) b) from (A.cell(i) a) { b = a; }
  to (B b) from (A a) where n >= 3 { for (k = 0 .. n) { b.cell(k) = a.cell(n - 1 - k); } }
}
";

// A rule for the whole matrix, which alone makes the first cell.
const MIX: &str = "transform Mix from A[n] to B[n] {
  to (B.cell(i) b) from (A.cell(i) a) where i >= 1 { b = a; }
  to (B b) from (A a) { for (k = 0 .. n) { b.cell(k) = - a.cell(k); } }
}
";

// A rule gives values to just the cells for which it is chosen.
const LAWFUL_ROWS: Rows = &[
    (
        "run --pool serial p c Turn a",
        &[
            ("p", TURN),
            ("c", "choose Turn.B {0,1} = 1"),
            ("a", "matrix 2\n1 2\n"),
        ],
        Done("matrix 2\n1 2\n"),
    ),
    (
        "run --pool serial p c Turn a",
        &[
            ("p", TURN),
            ("c", "choose Turn.B {0,1} = 1"),
            ("a", "matrix 3\n1 2 3\n"),
        ],
        Done("matrix 3\n3 2 1\n"),
    ),
    (
        "run --pool serial p - Turn a",
        &[("p", TURN), ("a", "matrix 3\n1 2 3\n")],
        Done("matrix 3\n1 2 3\n"),
    ),
    (
        "run --pool serial p - Mix a",
        &[("p", MIX), ("a", "matrix 3\n1 2 3\n")],
        Done("matrix 3\n-1 2 3\n"),
    ),
    (
        "run --pool serial p c Mix a",
        &[
            ("p", MIX),
            ("c", "choose Mix.B {0,1} = 1"),
            ("a", "matrix 3\n1 2 3\n"),
        ],
        Done("matrix 3\n-1 -2 -3\n"),
    ),
];

#[test]
fn a_configuration_chooses_among_lawful_rules(rt: HostRuntime) -> Result<(), Fail> {
    all_hold(&rt, rt.alloc(), CHOSEN_ROWS)?;
    all_hold(&rt, rt.alloc(), SIZED_ROWS)?;
    all_hold(&rt, rt.alloc(), LAWFUL_ROWS)
}
