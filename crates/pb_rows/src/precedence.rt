//! Runs that are refused for several reasons: the one that comes first in the order of work is told.
use crate::examples::{DIV, PAIR, REFUSED, ROLL};
use crate::refusals::STRETCH;
use crate::run::End::Stopped;
use crate::run::{Rows, all_hold, ran};
use std::test::Fail;

const EARLIER_ROWS: Rows = &[
    (
        "run --pool serial p - T a",
        &[("p", "transform @")],
        Stopped(14, "I1 NoFile: a\n"),
    ),
    (
        "run --pool serial p c Nope a",
        &[("p", PAIR), ("c", "choose"), ("a", "")],
        Stopped(3, "P16 NoOrder: Pair U[0,n) V[0,n)\n"),
    ),
    (
        "run --pool serial p c Nope a",
        &[("p", ROLL), ("c", "choose"), ("a", "")],
        Stopped(4, "C1 BadLine: line 1\n"),
    ),
    (
        "run --pool serial p - Nope a",
        &[("p", ROLL), ("a", "")],
        Stopped(5, "B1 UnknownTransform: Nope\n"),
    ),
    (
        "run --pool serial p - RollingSum a a",
        &[("p", ROLL), ("a", "")],
        Stopped(5, "B2 WrongCount: wanted 1 given 2\n"),
    ),
    (
        "run --pool serial p - Div a d",
        &[
            ("p", DIV),
            ("a", "matrix 2 1\n1 2\n"),
            ("d", "matrix 2\n1\n"),
        ],
        Stopped(5, "M3 TooFew: d wanted 2 found 1\n"),
    ),
    (
        "run --pool serial p - Div a d",
        &[("p", DIV), ("a", "matrix 0\n"), ("d", "matrix 1 1\n5\n")],
        Stopped(5, "B3 BadShape: D dimensions wanted 1 found 2\n"),
    ),
    (
        "run --pool serial p - Div a d",
        &[("p", DIV), ("a", "matrix 0\n"), ("d", "matrix 1\n5\n")],
        Stopped(5, "B4 SizeOutOfRange: n is 0\n"),
    ),
    (
        "run --pool serial p - Stretch a d",
        &[
            ("p", STRETCH),
            ("a", "matrix 5\n0 0 0 0 0\n"),
            ("d", "matrix 4\n0 0 0 0\n"),
        ],
        Stopped(5, "B3 BadShape: D width wanted 5 found 4\n"),
    ),
];

#[test]
fn of_two_reasons_the_earlier_is_told(rt: HostRuntime) -> Result<(), Fail> {
    all_hold(&rt, rt.alloc(), EARLIER_ROWS)
}

#[test]
fn a_refused_program_is_told_as_by_check(rt: HostRuntime) -> Result<(), Fail> {
    for (example, line) in &REFUSED {
        let (status, out, err) = ran(
            &rt,
            rt.alloc(),
            "run --pool serial p - T a",
            example,
            "matrix 1\n1\n",
        )?;
        assert_eq!(rt; (status, out.len()), (3, 0), "{example}");
        assert_eq!(rt; err.as_slice(), line.as_bytes(), "{example}");
    }
    Ok(())
}
