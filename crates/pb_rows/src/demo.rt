//! The demonstration. The lines are compared with those of a program in Python that draws the words of PCG XSH RR 64/32.
use crate::run::End::Done;
use crate::run::{Row, Rows, all_hold, holds};
use std::test::Fail;

const LARGE: &str = "MatrixMultiply AB 96 96 least -1028 greatest 1122 sum 22712
RollingSum B 96 least -109 greatest 13 sum -5392
";

const ROWS: Rows = &[
    ("demo 1 96 4", &[], Done(LARGE)),
    ("demo 1 96 4", &[], Done(LARGE)),
    ("demo 1 96 1", &[], Done(LARGE)),
    // The largest.
    (
        "demo 0 256 64",
        &[],
        Done(
            "MatrixMultiply AB 256 256 least -2169 greatest 1996 sum -272390\nRollingSum B 256 least -41 greatest 43 sum 372\n",
        ),
    ),
    (
        "demo 1 1 1",
        &[],
        Done(
            "MatrixMultiply AB 1 1 least -9 greatest -9 sum -9\nRollingSum B 1 least -3 greatest -3 sum -3\n",
        ),
    ),
    (
        "demo 4294967295 3 64",
        &[],
        Done(
            "MatrixMultiply AB 3 3 least -7 greatest 82 sum 338\nRollingSum B 3 least -8 greatest 5 sum -4\n",
        ),
    ),
];

#[test]
fn a_seed_has_its_two_lines_on_any_number_of_workers(rt: HostRuntime) -> Result<(), Fail> {
    all_hold(&rt, rt.alloc(), ROWS)
}

// The first take would fail, so no file is taken.
fn without_files() -> Row {
    Row {
        words: "demo 1 1 1",
        files: &[],
        failing_takes: &[0],
        failing_puts: &[1],
        most: 21,
        status: 10,
        out: "MatrixMultiply AB 1 1",
        err: "",
    }
}

#[test]
fn the_demo_takes_no_file(rt: HostRuntime) -> Result<(), Fail> {
    holds(&rt, rt.alloc(), &without_files())
}
