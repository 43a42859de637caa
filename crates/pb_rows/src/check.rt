ghost use Rattle.std.specs.Prelude.{◌<◌};

use crate::examples::{EXAMPLES, ROLL};
use crate::run::End::Stopped;
use crate::run::{Files, Row, Rows, all_hold, done, holds};
use pb_outside::{MemShelf, MemSink};
use pb_taskgraph::OpenGate;
use pb_top::pb_command;
use std::alloc::{AllocError, Global};
use std::process::Abort;
use std::sync::Wait;
use std::test::Fail;
use std::thread::Threads;

// The program of `ROLL` with comments, tabs and other line ends, and no blank where none is needed.
const DENSE_ROLL: &str =
    "transform RollingSum from A[1*n]to B[n]{to(B.cell(i)b)from(A.region(0,i+1)a){b=sum(a);}// one\r
/* two */to(B.cell(i)b)\tfrom(A.cell(i)a,B.cell(i-1)l)\r\n\r\n{b=a+l;}}";

#[test]
fn checked_programs_have_one_text(rt: HostRuntime) -> Result<(), Fail> {
    for files in [&[("p", ROLL)], &[("p", DENSE_ROLL)]] {
        holds(&rt, rt.alloc(), &done("check p", files, ROLL))?;
    }
    Ok(())
}

const REFUSED_ROWS: Rows = &[
    (
        "check p",
        &[("p", "transform @")],
        Stopped(3, "P2 BadToken: byte 10\n"),
    ),
    (
        "check p",
        &[("p", "")],
        Stopped(3, "P3 BadSyntax: byte 0\n"),
    ),
    (
        "check p",
        &[("p", "transform T from A[n] to B[n] {}")],
        Stopped(3, "P3 BadSyntax: byte 31\n"),
    ),
    (
        "check p",
        &[("p", "transform T from A[1048577]")],
        Stopped(3, "P4 OverLimit: number at byte 19\n"),
    ),
    // The ninth term of a form, after eight of two bytes each.
    (
        "check p",
        &[("p", "transform T from A[n+n+n+n+n+n+n+n+n]")],
        Stopped(3, "P4 OverLimit: terms at byte 35\n"),
    ),
    ("check p", &[("q", ROLL)], Stopped(14, "I1 NoFile: p\n")),
];

// One program, with one part changed in each row.
const MISNAMED_ROWS: Rows = &[
    (
        "check p",
        &[(
            "p",
            "transform T from A[n] to B[n] { to (B.cell(i) b) from () { b = z; } }",
        )],
        Stopped(3, "P6 UnknownName: z at byte 63\n"),
    ),
    (
        "check p",
        &[(
            "p",
            "transform T from A[n] to B[n] { to (B.cell(i) b) from () { b = 1 < 2; } }",
        )],
        Stopped(3, "P11 BadType: byte 63\n"),
    ),
    (
        "check p",
        &[(
            "p",
            "transform T from A[n] to B[n] { to (A.cell(i) b) from () { b = 1; } }",
        )],
        Stopped(3, "P9 BadOutput: byte 36\n"),
    ),
    (
        "check p",
        &[(
            "p",
            "transform T from A[n], A[n] to B[n] { to (B.cell(i) b) from () { b = 1; } }",
        )],
        Stopped(3, "P5 DuplicateName: A at byte 23\n"),
    ),
    (
        "check p",
        &[(
            "p",
            "transform T from A[2*n] to B[n] { to (B.cell(i) b) from () { b = 1; } }",
        )],
        Stopped(3, "P7 SizeNotBound: n at byte 21\n"),
    ),
];

// Programs whose bounds are wrong.
const UNBOUNDED_ROWS: Rows = &[
    (
        "check p",
        &[(
            "p",
            "transform T from A[n] to B[n-2] { to (B.cell(i) b) from () { b = 1; } }",
        )],
        Stopped(3, "P8 NegativeDim: T.B x at n=1\n"),
    ),
    (
        "check p",
        &[(
            "p",
            "transform T from A[n], C[m] to B[m - n, n - 3] { to (B b) from () { } }",
        )],
        Stopped(3, "P8 NegativeDim: T.B x at n=1048576,m=1\n"),
    ),
    (
        "check p",
        &[(
            "p",
            "transform T from A[n] to B[n] { to (B.cell(i) b) from (A.cell(2 * i) a) { b = a; } }",
        )],
        Stopped(3, "P12 NotABox: T rule 0 condition 2\n"),
    ),
    (
        "check p",
        &[(
            "p",
            "transform T from A[n] to B[n] { to (B.region(0, n) p, B.region(0, n/2) q) from () {} }",
        )],
        Stopped(3, "P10 OverlapOutputs: T rule 0 outputs 0 and 1\n"),
    ),
];

#[test]
fn programs_with_wrong_bounds_are_named(rt: HostRuntime) -> Result<(), Fail> {
    all_hold(&rt, rt.alloc(), UNBOUNDED_ROWS)
}

#[test]
fn refused_programs_are_named(rt: HostRuntime) -> Result<(), Fail> {
    all_hold(&rt, rt.alloc(), REFUSED_ROWS)?;
    all_hold(&rt, rt.alloc(), MISNAMED_ROWS)
}

fn failing_put(
    files: Files,
    failing_puts: &'static [u64],
    most: u64,
    out: &'static str,
    err: &'static str,
) -> Row
    requires { 0 < most }
{
    Row {
        words: "check p",
        files,
        failing_takes: &[],
        failing_puts,
        most,
        status: 10,
        out,
        err,
    }
}

fn failing_rows() -> [Row; 4] {
    [
        Row {
            words: "check p",
            files: &[("p", ROLL)],
            failing_takes: &[0],
            failing_puts: &[],
            most: 4096,
            status: 9,
            out: "",
            err: "R ReadFault: p\n",
        },
        failing_put(&[("p", ROLL)], &[0], 4096, "", ""),
        failing_put(&[("p", ROLL)], &[2], 10, "transform RollingSum", ""),
        failing_put(&[("p", "transform @")], &[1], 4, "", "P2 B"),
    ]
}

#[test]
fn failing_devices_of_a_check_have_their_causes(rt: HostRuntime) -> Result<(), Fail> {
    for row in failing_rows() {
        holds(&rt, rt.alloc(), &row)?;
    }
    Ok(())
}

// A shelf with one file, p.
fn shelf_with(alloc: Global, text: &[u8]) -> Result<MemShelf, AllocError> {
    let mut entries = Vec::new(alloc);
    entries.push((String::from_str(alloc, "p")?, Vec::from_slice(alloc, text)?))?;
    Ok(MemShelf::new(entries, Vec::new(alloc)))
}

/// The status of a command on a file p with this text, and what is put on `out` and `err`.
pub fn answered<R: Threads + Wait + Sync + Abort>(
    rt: &R,
    alloc: Global,
    command: &str,
    text: &[u8],
) -> Result<(u8, Vec<u8>, Vec<u8>), AllocError> {
    let words = vec![in alloc;
        String::from_str(alloc, command)?,
        String::from_str(alloc, "p")?,
    ]?;
    let mut files = shelf_with(alloc, text)?;
    let mut out = MemSink::new(alloc, 4096, 4096, Vec::new(alloc))?;
    let mut err = MemSink::new(alloc, 4096, 4096, Vec::new(alloc))?;
    let status = pb_command(rt, alloc, &words, &mut files, &mut out, &mut err, &OpenGate);
    let out = Vec::from_slice(alloc, out.written())?;
    let err = Vec::from_slice(alloc, err.written())?;
    Ok((status, out, err))
}

/// The status of `check p` over this text, and what is put on `out` and `err`.
pub fn checked<R: Threads + Wait + Sync + Abort>(
    rt: &R,
    alloc: Global,
    text: &[u8],
) -> Result<(u8, Vec<u8>, Vec<u8>), AllocError> {
    answered(rt, alloc, "check", text)
}

#[test]
fn each_example_is_printed_as_a_text_that_prints_itself(rt: HostRuntime) -> Result<(), Fail> {
    for example in EXAMPLES {
        let (status, text, err) = checked(&rt, rt.alloc(), example.as_bytes())?;
        assert_eq!(rt; (status, err.len()), (0, 0), "{example}");
        let (status, again, err) = checked(&rt, rt.alloc(), &text)?;
        assert_eq!(rt; (status, err.len()), (0, 0), "{example}");
        assert!(rt; again.as_slice() == text.as_slice(), "{example}");
    }
    Ok(())
}

#[test]
fn a_program_to_check_has_at_most_so_many_bytes(rt: HostRuntime) -> Result<(), Fail> {
    let mut blanks = Vec::from_elem(rt.alloc(), b' ', 1_048_576)?;
    let (status, out, err) = checked(&rt, rt.alloc(), &blanks)?;
    assert_eq!(rt; (status, out.len()), (3, 0));
    assert_eq!(rt; err.as_slice(), b"P3 BadSyntax: byte 1048576\n".as_slice());
    blanks.push(b' ')?;
    let (status, out, err) = checked(&rt, rt.alloc(), &blanks)?;
    assert_eq!(rt; (status, out.len()), (3, 0));
    assert_eq!(rt; err.as_slice(), b"P1 TooLong\n".as_slice());
    Ok(())
}
