//! How many calls, matrices, cells and steps a run has.
use crate::programs::{accepted, program};
use pb_check::Accepted;
use pb_config::{ConfigRefusal, read_config};
use pb_steps::{Step, Unrolled, unroll};
use std::alloc::{AllocError, Global};
use std::test::Fail;

const MUL: &str = "
transform MatrixAdd from A[w,h], B[w,h] to C[w,h] {
  to (C.cell(x,y) c) from (A.cell(x,y) a, B.cell(x,y) b) { c = a + b; }
}
transform MatrixMultiply from A[c,h], B[w,c] to AB[w,h] {
  to (AB.cell(x,y) o) from (A.row(y) a, B.column(x) b) { o = dot(a, b); }
  to (AB ab) from (A.region(0,0,c/2,h) a1, A.region(c/2,0,c,h) a2,
                   B.region(0,0,w,c/2) b1, B.region(0,c/2,w,c) b2) where c >= 2 {
    let t1[w,h]; let t2[w,h];
    t1 = MatrixMultiply(a1, b1);
    t2 = MatrixMultiply(a2, b2);
    ab = MatrixAdd(t1, t2);
  }
  to (AB.region(0,0,w/2,h) p, AB.region(w/2,0,w,h) q)
  from (A a, B.region(0,0,w/2,c) b1, B.region(w/2,0,w,c) b2) where w >= 2 {
    p = MatrixMultiply(a, b1);
    q = MatrixMultiply(a, b2);
  }
  to (AB.region(0,0,w,h/2) p, AB.region(0,h/2,w,h) q)
  from (A.region(0,0,c,h/2) a1, A.region(0,h/2,c,h) a2, B b) where h >= 2 {
    p = MatrixMultiply(a1, b);
    q = MatrixMultiply(a2, b);
  }
}
";

fn told(alloc: Global, run: &Unrolled) -> Result<String, AllocError> {
    let (mut jobs, mut copies, mut traps) = (0u32, 0u32, 0u32);
    for step in &run.steps {
        match step {
            Step::Job { .. } => jobs = jobs.wrapping_add(1),
            Step::Copy(_) => copies = copies.wrapping_add(1),
            Step::Trap(_) => traps = traps.wrapping_add(1),
        }
    }
    let met = &run.met;
    let (calls, matrices, cells, instances) = (
        met.calls,
        met.matrices,
        met.cells,
        run.instances.len(),
    );
    format!(in alloc;
        "{calls} calls, {matrices} matrices, {cells} cells; {instances} instances; {jobs} jobs, {copies} copies, {traps} traps"
    )
}

fn unrolled(
    alloc: Global,
    a: &Accepted,
    config: &str,
    depth: u32,
    side: i64,
) -> Result<String, AllocError> {
    let none = String::new(alloc);
    if program(a).transforms.len() != 2 {
        return Ok(none);
    }
    let chosen = match read_config(alloc, config.as_bytes(), program(a)) {
        Ok(chosen) => chosen,
        Err(ConfigRefusal::Memory) => return Err(AllocError),
        Err(_) => return Ok(none),
    };
    let run = unroll(
        alloc,
        a,
        &chosen,
        depth,
        1,
        &[(side, side), (side, side)],
        64,
    )?;
    told(alloc, &run)
}

fn said(alloc: Global, config: &str, depth: u32, side: i64) -> Result<String, AllocError> {
    match accepted(alloc, MUL)? {
        Some(a) => unrolled(alloc, &a, config, depth, side),
        None => Ok(String::new(alloc)),
    }
}

#[test]
fn a_run_is_unrolled(rt: HostRuntime) -> Result<(), Fail> {
    let alloc = rt.alloc();
    let split = "choose MatrixMultiply.AB {0,1,2,3} = 1\n";
    let all =
        "choose MatrixMultiply.AB {0,1,2,3} = 0 until 4 then 1\nchoose MatrixMultiply.AB {0,2,3} = 0 until 4 then 3\nchoose MatrixMultiply.AB {0,2} = 0 until 4 then 2\n";
    assert_eq!(rt;
        said(alloc, all, 64, 8)?.as_str(),
        "518 calls, 520 matrices, 4096 cells; 518 instances; 263 jobs, 503 copies, 0 traps"
    );
    assert_eq!(rt;
        said(alloc, "", 64, 2)?.as_str(),
        "1 calls, 3 matrices, 12 cells; 1 instances; 1 jobs, 0 copies, 0 traps"
    );
    assert_eq!(rt;
        said(alloc, split, 64, 2)?.as_str(),
        "4 calls, 6 matrices, 24 cells; 4 instances; 3 jobs, 1 copies, 0 traps"
    );
    assert_eq!(rt;
        said(alloc, split, 0, 2)?.as_str(),
        "4 calls, 6 matrices, 24 cells; 1 instances; 0 jobs, 1 copies, 3 traps"
    );
    Ok(())
}
