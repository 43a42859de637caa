use crate::examples::DOUBLE;
use crate::run::End::Stopped;
use crate::run::{Row, Rows, all_hold, holds};
use std::test::Fail;

const USAGE: &str = "usage: pb check PROGRAM
       pb choices PROGRAM
       pb run [--workers N] [--depth D] [--grain G] [--pool serial|locked|steal] [--trace] PROGRAM CONFIG TRANSFORM INPUT..
       pb tune [--up-to S] PROGRAM TRANSFORM
       pb demo SEED SIZE WORKERS
";

// The first take fails, if there is one.
fn without_files(words: &'static str, status: u8, err: &'static str) -> Row {
    Row {
        words,
        files: &[],
        failing_takes: &[0],
        failing_puts: &[],
        most: 4096,
        status,
        out: "",
        err,
    }
}

fn outside_rows() -> [Row; 7] {
    [
        without_files("", 2, USAGE),
        without_files("--help", 2, USAGE),
        without_files("check --trace", 2, USAGE),
        without_files("check p p", 2, USAGE),
        without_files("run --workers 0 double.pb - Double a", 2, USAGE),
        without_files("run --pool serial --pool - Double a", 2, USAGE),
        without_files("demo 1 257 4", 2, USAGE),
    ]
}

#[test]
fn words_outside_the_grammar_get_the_usage(rt: HostRuntime) -> Result<(), Fail> {
    for row in outside_rows() {
        holds(&rt, rt.alloc(), &row)?;
    }
    Ok(())
}

// Files in their order, of which the first can't be read.
fn first_rows() -> [Row; 3] {
    [
        without_files("run --pool serial p c Double a", 9, "R ReadFault: p\n"),
        without_files("check -", 9, "R ReadFault: -\n"),
        // `--trace` stands in an option's place, so the program is `-`.
        without_files(
            "run --pool serial --trace - Double a",
            9,
            "R ReadFault: -\n",
        ),
    ]
}

#[test]
fn the_first_word_after_the_options_is_the_program(rt: HostRuntime) -> Result<(), Fail> {
    for row in first_rows() {
        holds(&rt, rt.alloc(), &row)?;
    }
    Ok(())
}

const FAULTY_ROWS: Rows = &[
    (
        "run --pool serial double.pb - Double a",
        &[("double.pb", DOUBLE), ("a", "")],
        Stopped(5, "M1 BadHeader: a\n"),
    ),
    (
        "run --pool serial double.pb - Double a",
        &[
            ("double.pb", DOUBLE),
            ("a", "matrix 1\n9223372036854775808\n"),
        ],
        Stopped(5, "M2 BadNumber: a word 0\n"),
    ),
    (
        "run --pool serial double.pb - Double a",
        &[("double.pb", DOUBLE), ("a", "matrix 3\n1 2\n")],
        Stopped(5, "M3 TooFew: a wanted 3 found 2\n"),
    ),
    (
        "run --pool serial double.pb - Double a",
        &[("double.pb", DOUBLE), ("a", "matrix 3\n1 2 3 4\n")],
        Stopped(5, "M4 TooMany: a wanted 3\n"),
    ),
];

#[test]
fn faulty_inputs_are_named(rt: HostRuntime) -> Result<(), Fail> {
    all_hold(&rt, rt.alloc(), FAULTY_ROWS)
}
