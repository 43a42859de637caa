//! What the tuner answers by the cost model.
use crate::examples::ROLL;
use crate::run::End::{Done, Stopped};
use crate::run::{Rows, all_hold};
use std::test::Fail;

// Up to size 2 both rules of the rolling sum cost the same, and the earlier candidate stays; from 4 on the second is cheaper.
const TUNED_ROWS: Rows = &[
    (
        "tune --up-to 8 p RollingSum",
        &[("p", ROLL)],
        Done("choose RollingSum.B {0,1} = 0 until 4 then 1\n"),
    ),
    (
        "tune --up-to 4 p RollingSum",
        &[("p", ROLL)],
        Done("choose RollingSum.B {0,1} = 0 until 4 then 1\n"),
    ),
    ("tune --up-to 3 p RollingSum", &[("p", ROLL)], Done("")),
    ("tune --up-to 2 p RollingSum", &[("p", ROLL)], Done("")),
    ("tune --up-to 1 p RollingSum", &[("p", ROLL)], Done("")),
    (
        "tune --up-to 8 p Nope",
        &[("p", ROLL)],
        Stopped(5, "B1 UnknownTransform: Nope\n"),
    ),
    (
        "tune p rollingSum",
        &[("p", ROLL)],
        Stopped(5, "B1 UnknownTransform: rollingSum\n"),
    ),
    ("tune p RollingSum", &[], Stopped(14, "I1 NoFile: p\n")),
    (
        "tune p RollingSum",
        &[("p", "transform @")],
        Stopped(3, "P2 BadToken: byte 10\n"),
    ),
    // The transform is looked for in a program that is accepted.
    (
        "tune p Nope",
        &[("p", "")],
        Stopped(3, "P3 BadSyntax: byte 0\n"),
    ),
];

#[test]
fn a_program_is_tuned_by_the_cost_model(rt: HostRuntime) -> Result<(), Fail> {
    all_hold(&rt, rt.alloc(), TUNED_ROWS)
}
