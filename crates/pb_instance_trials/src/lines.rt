//! The lines of refused configurations and runs, and of trapped runs.
use crate::programs::accepted;
use pb_config::ConfigRefusal;
use pb_entry::{Count, RunRefusal};
use pb_run_lines::{config_line, run_line, trap_line};
use pb_values::{Kind, Trap};
use std::test::Fail;

const PROGRAM: &str = "transform S from A[k] to B[k] { to (B b) from () { } } \
transform T where n >= 2 from A[n], B[m, 2*n] to C[n] { to (C c) from () { } }";

const CONFIGS: [(ConfigRefusal, &str); 6] = [
    (ConfigRefusal::BadLine { line: 1 }, "C1 BadLine: line 1\n"),
    (
        ConfigRefusal::UnknownPlace { line: 2 },
        "C2 UnknownPlace: line 2\n",
    ),
    (
        ConfigRefusal::NotInSet { line: 30 },
        "C3 NotInSet: line 30\n",
    ),
    (
        ConfigRefusal::CutoffsNotRising { line: 4 },
        "C4 CutoffsNotRising: line 4\n",
    ),
    (ConfigRefusal::Twice { line: 2 }, "C5 Twice: line 2\n"),
    (ConfigRefusal::Memory, ""),
];

// Of the second transform.
const RUNS: [(RunRefusal, &str); 14] = [
    (RunRefusal::UnknownTransform, "B1 UnknownTransform: Nope\n"),
    (
        RunRefusal::WrongCount {
            wanted: 1,
            given: 0,
        },
        "B2 WrongCount: wanted 1 given 0\n",
    ),
    (
        RunRefusal::BadShape {
            matrix: 0,
            axis: 0,
            wanted: 5,
            found: 4,
        },
        "B3 BadShape: A width wanted 5 found 4\n",
    ),
    (
        RunRefusal::BadShape {
            matrix: 1,
            axis: 1,
            wanted: 3,
            found: 2,
        },
        "B3 BadShape: B height wanted 3 found 2\n",
    ),
    (
        RunRefusal::BadShape {
            matrix: 2,
            axis: 2,
            wanted: 1,
            found: 2,
        },
        "B3 BadShape: C dimensions wanted 1 found 2\n",
    ),
    (
        RunRefusal::SizeOutOfRange { size: 0, value: 1 },
        "B4 SizeOutOfRange: n is 1\n",
    ),
    (
        RunRefusal::SizeOutOfRange {
            size: 1,
            value: 1_048_577,
        },
        "B4 SizeOutOfRange: m is 1048577\n",
    ),
    (
        RunRefusal::SizeOutOfRange { size: 2, value: 7 },
        "B4 SizeOutOfRange:  is 7\n",
    ),
    (
        RunRefusal::TooLarge { what: Count::Calls },
        "X1 TooLarge: calls over 16384\n",
    ),
    (
        RunRefusal::TooLarge { what: Count::Side },
        "X1 TooLarge: side over 4194304\n",
    ),
    (
        RunRefusal::TooLarge { what: Count::Cells },
        "X1 TooLarge: cells over 4194304\n",
    ),
    (
        RunRefusal::TooLarge { what: Count::Tasks },
        "X1 TooLarge: tasks over 262144\n",
    ),
    (
        RunRefusal::TooLarge { what: Count::Links },
        "X1 TooLarge: links over 8388608\n",
    ),
    (RunRefusal::Memory, ""),
];

// Of the cell (4,0) of the second matrix of the first transform.
const TRAPS: [(Kind, &str); 6] = [
    (Kind::Overflow, "T Overflow: S.B (4,0), by T rule 1 (3,2)\n"),
    (
        Kind::DivideByZero,
        "T DivideByZero: S.B (4,0), by T rule 1 (3,2)\n",
    ),
    (
        Kind::OutOfView,
        "T OutOfView: S.B (4,0), by T rule 1 (3,2)\n",
    ),
    (
        Kind::LoopLimit,
        "T LoopLimit: S.B (4,0), by T rule 1 (3,2)\n",
    ),
    (Kind::BadShape, "T BadShape: S.B (4,0), by T rule 1 (3,2)\n"),
    (
        Kind::DepthEnded,
        "T DepthEnded: S.B (4,0), by T rule 1 (3,2)\n",
    ),
];

#[test]
fn refused_configurations_have_their_lines(rt: HostRuntime) -> Result<(), Fail> {
    for (refusal, expected) in &CONFIGS {
        let found = config_line(rt.alloc(), refusal)?;
        assert!(rt; found.as_slice() == expected.as_bytes(), "{expected}");
    }
    Ok(())
}

#[test]
fn refused_runs_have_their_lines(rt: HostRuntime) -> Result<(), Fail> {
    let alloc = rt.alloc();
    let Some(program) = accepted(alloc, PROGRAM)? else {
        assert!(rt; false, "the program is refused");
        return Ok(());
    };
    for (refusal, expected) in &RUNS {
        let found = run_line(alloc, &program.prog().transforms, 1, b"Nope", refusal)?;
        assert!(rt; found.as_slice() == expected.as_bytes(), "{expected}");
    }
    Ok(())
}

#[test]
fn trapped_runs_have_their_lines(rt: HostRuntime) -> Result<(), Fail> {
    let alloc = rt.alloc();
    let Some(program) = accepted(alloc, PROGRAM)? else {
        assert!(rt; false, "the program is refused");
        return Ok(());
    };
    for (kind, expected) in &TRAPS {
        let trap = Trap {
            kind: *kind,
            transform: 1,
            rule: 1,
            x: 3,
            y: 2,
        };
        let found = trap_line(alloc, &program.prog().transforms, 0, 1, 4, 0, &trap)?;
        assert!(rt; found.as_slice() == expected.as_bytes(), "{expected}");
    }
    Ok(())
}
