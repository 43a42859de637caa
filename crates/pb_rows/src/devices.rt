use crate::examples::{DOUBLE, ROLL};
use crate::run::{Row, holds};
use pb_outside::{FILE_LIMIT, FileShelf, Shelf, Sink, StdSink, Take};
use std::test::Fail;
use std::{env, fs};

const INPUT: &str = "matrix 3\n1 2 3\n";

const FILES: &[(&str, &str)] = &[("p", DOUBLE), ("a", INPUT)];

fn failing_file(
    files: &'static [(&'static str, &'static str)],
    failing_takes: &'static [u64],
    status: u8,
    err: &'static str,
) -> Row {
    Row {
        words: "run --pool serial p - Double a",
        files,
        failing_takes,
        failing_puts: &[],
        most: 4096,
        status,
        out: "",
        err,
    }
}

// Each put takes 4 bytes.
fn failing_put(
    files: &'static [(&'static str, &'static str)],
    failing_puts: &'static [u64],
    out: &'static str,
    err: &'static str,
) -> Row {
    Row {
        words: "run --pool serial p - Double a",
        files,
        failing_takes: &[],
        failing_puts,
        most: 4,
        status: 10,
        out,
        err,
    }
}

fn rows() -> [Row; 9] {
    [
        failing_file(FILES, &[0], 9, "R ReadFault: p\n"),
        failing_file(FILES, &[1], 9, "R ReadFault: a\n"),
        failing_file(&[("p", DOUBLE)], &[], 14, "I1 NoFile: a\n"),
        failing_file(&[("a", INPUT)], &[1], 14, "I1 NoFile: p\n"),
        failing_put(FILES, &[0], "", ""),
        failing_put(FILES, &[1], "matr", ""),
        failing_put(FILES, &[2], "matrix 3", ""),
        failing_put(FILES, &[3], "matrix 3\n2 4", ""),
        failing_put(&[("p", DOUBLE)], &[1], "", "I1 N"),
    ]
}

const SUMS: &str = "run --pool serial p c RollingSum a";

const SUM_FILES: &[(&str, &str)] = &[
    ("p", ROLL),
    ("c", "choose RollingSum.B {0,1} = 0 until 2 then 1\n"),
    ("a", "matrix 4\n1 2 3 4\n"),
];

// A run with a configuration over files of which some takes fail or which aren't there.
fn with_configuration(
    files: &'static [(&'static str, &'static str)],
    failing_takes: &'static [u64],
    status: u8,
    err: &'static str,
) -> Row {
    Row {
        words: SUMS,
        files,
        failing_takes,
        failing_puts: &[],
        most: 4096,
        status,
        out: "",
        err,
    }
}

fn configured_rows() -> [Row; 6] {
    [
        with_configuration(SUM_FILES, &[0], 9, "R ReadFault: p\n"),
        with_configuration(SUM_FILES, &[1], 9, "R ReadFault: c\n"),
        with_configuration(SUM_FILES, &[2], 9, "R ReadFault: a\n"),
        with_configuration(&[("p", ROLL), ("a", INPUT)], &[], 14, "I1 NoFile: c\n"),
        with_configuration(&[("p", ROLL), ("c", "")], &[], 14, "I1 NoFile: a\n"),
        // Only the first such file is told.
        with_configuration(&[("p", ROLL)], &[2], 14, "I1 NoFile: c\n"),
    ]
}

// The second put fails, after as many bytes of the text as the first takes.
fn cut(
    words: &'static str,
    files: &'static [(&'static str, &'static str)],
    out: &'static str,
    err: &'static str,
) -> Row {
    Row {
        words,
        files,
        failing_takes: &[],
        failing_puts: &[1],
        most: 20,
        status: 10,
        out,
        err,
    }
}

fn cut_rows() -> [Row; 5] {
    [
        cut(
            "run --pool serial --trace p c RollingSum a",
            SUM_FILES,
            "matrix 4\n1 3 6 10\ntr",
            "",
        ),
        cut(
            "run --pool serial p - RollingSum a",
            &[("p", ROLL), ("a", "matrix 2\n9223372036854775807 1\n")],
            "",
            "T Overflow: RollingS",
        ),
        cut(
            SUMS,
            &[
                ("p", ROLL),
                (
                    "c",
                    "choose RollingSum.B {0,1} = 0 until 8 then 1 until 8 then 0\n",
                ),
                ("a", INPUT),
            ],
            "",
            "C4 CutoffsNotRising:",
        ),
        cut(
            "run --pool serial p - Nope a",
            &[("p", ROLL), ("a", INPUT)],
            "",
            "B1 UnknownTransform:",
        ),
        Row {
            words: "run --pool serial p - RollingSum a",
            files: &[("p", ROLL), ("a", "matrix 4\n1 2 3 4\n")],
            failing_takes: &[],
            failing_puts: &[1],
            most: 4,
            status: 10,
            out: "matr",
            err: "",
        },
    ]
}

#[test]
fn failing_devices_have_their_causes(rt: HostRuntime) -> Result<(), Fail> {
    for row in rows() {
        holds(&rt, rt.alloc(), &row)?;
    }
    for row in configured_rows() {
        holds(&rt, rt.alloc(), &row)?;
    }
    for row in cut_rows() {
        holds(&rt, rt.alloc(), &row)?;
    }
    Ok(())
}

#[test]
fn real_files_are_taken_whole(rt: HostRuntime) -> Result<(), Fail> {
    let path = env::temp_dir(&rt)?.join(rt.alloc(), "pb_rows_file_shelf")?;
    let name = path.to_str().ok_or("the folder's name is no text")?;
    fs::write(&rt, name, INPUT)?;
    let mut files = FileShelf::new(&rt);
    let taken = files.take(rt.alloc(), name, FILE_LIMIT)?;
    let long = files.take(rt.alloc(), name, 14)?;
    fs::remove_file(&rt, name)?;
    let missing = files.take(rt.alloc(), name, FILE_LIMIT)?;
    assert!(rt; matches!(&taken, Take::Got(bytes) if bytes.as_slice() == INPUT.as_bytes()));
    assert!(rt; matches!(&long, Take::Long));
    assert!(rt; matches!(&missing, Take::Failed));
    Ok(())
}

#[test]
fn standard_error_takes_a_piece(rt: HostRuntime) -> Result<(), Fail> {
    let mut err = StdSink::new(rt.stderr());
    assert_eq!(rt; err.put(b"a piece on standard error\n"), Ok(26));
    Ok(())
}
