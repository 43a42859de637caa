//! Which count of a run first passes its limit, before anything is made.
use crate::programs::{accepted, are_in_range, one, program};
use pb_check::Accepted;
use pb_config::{ConfigRefusal, read_config};
use pb_counts::check_counts;
use pb_entry::{Count, RunRefusal};
use pb_linear::Sizes;
use std::alloc::{AllocError, Global};
use std::test::Fail;

// A tree of calls: 2^n - 1 of them, and one or two more before it; copies whose cells or sides are at their limits.
const TREES: &str = "
transform Tree from A[n] to B[1] {
  to (B b) from (A.region(0,n-1) a) where n >= 2 { let t[1]; t = Tree(a); b = Tree(a); }
  to (B b) from (A.region(0,1) a) { b.cell(0) = sum(a); }
}
transform One from A[n] to B[1] { to (B b) from (A a) { b = Tree(a); } }
transform Two from A[n] to B[1] {
  to (B b) from (A a, A.region(0,1) first) { let t[1]; t = Tree(first); b = Tree(a); }
}
transform Square from A[n,n] to B[n,n] { to (B.cell(x,y) b) from (A.cell(x,y) a) { b = a; } }
transform Long from A[n] to B[1] { to (B b) from (A.region(0,1) a) { let t[4*n+1]; t = Spread(a); b = Tree(a); } }
transform Spread from A[n] to B[4*n+1] { to (B.cell(x) b) from (A.region(0,1) a) { b = sum(a); } }
";

fn told(
    alloc: Global,
    a: &Accepted,
    depth: u32,
    t: u32,
    s: &Sizes,
) -> Result<&'static str, AllocError> {
    if !are_in_range(a, t, s) {
        return Ok("no such sizes");
    }
    let chosen = match read_config(alloc, b"", program(a)) {
        Ok(chosen) => chosen,
        Err(ConfigRefusal::Memory) => return Err(AllocError),
        Err(_) => return Ok("no configuration"),
    };
    match check_counts(alloc, a, &chosen, depth, t, s) {
        Ok(()) => Ok("within the limits"),
        Err(RunRefusal::TooLarge { what: Count::Calls }) => Ok("calls"),
        Err(RunRefusal::TooLarge { what: Count::Side }) => Ok("side"),
        Err(RunRefusal::TooLarge { what: Count::Cells }) => Ok("cells"),
        Err(RunRefusal::Memory) => Err(AllocError),
        Err(_) => Ok("another refusal"),
    }
}

fn said(alloc: Global, depth: u32, t: u32, n: u64) -> Result<&'static str, AllocError> {
    match accepted(alloc, TREES)? {
        Some(a) => told(alloc, &a, depth, t, &one(n)),
        None => Ok("not accepted"),
    }
}

#[test]
fn a_run_is_counted_before_it_is_made(rt: HostRuntime) -> Result<(), Fail> {
    let alloc = rt.alloc();
    // 16384 calls, and one more
    assert_eq!(rt; said(alloc, 64, 1, 14)?, "within the limits");
    assert_eq!(rt; said(alloc, 64, 2, 14)?, "calls");
    // a depth ends the calls below it, and each call that can't be made counts once
    assert_eq!(rt; said(alloc, 13, 1, 64)?, "within the limits");
    assert_eq!(rt; said(alloc, 14, 1, 64)?, "calls");
    // twice as many at each depth
    assert_eq!(rt; said(alloc, 64, 0, 1_048_576)?, "calls");
    // 4193408 cells, and 4199202
    assert_eq!(rt; said(alloc, 64, 3, 1448)?, "within the limits");
    assert_eq!(rt; said(alloc, 64, 3, 1449)?, "cells");
    // a local matrix of 4194301 cells that no call fits, and one of 4194305
    assert_eq!(rt; said(alloc, 64, 4, 1_048_575)?, "cells");
    assert_eq!(rt; said(alloc, 64, 4, 1_048_576)?, "side");
    Ok(())
}
