//! The costs of configurations, beside counts by hand.
ghost use Rattle.pb_program.specs.Configs.{IsValid};
ghost use Rattle.pb_program.specs.Trees.{bare_prog};

use crate::programs::{accepted, program};
use pb_check::Accepted;
use pb_config::{ConfigRefusal, read_config};
use pb_program::Config;
use pb_unroll::cost;
use std::alloc::{AllocError, Global};
use std::test::Fail;

const DOUBLE: &str =
    "transform Double from A[n] to B[n] { to (B.cell(i) b) from (A.cell(i) a) { b = a + a; } }";

const ROLL: &str = "transform RollingSum from A[n] to B[n] {
  to (B.cell(i) b) from (A.region(0, i + 1) a) { b = sum(a); }
  to (B.cell(i) b) from (A.cell(i) a, B.cell(i - 1) l) { b = a + l; }
}";

const PREFIX: &str = "transform Prefix2 from A[w,h] to S[w,h] {
  to (S.cell(x,y) s) from (A.cell(x,y) a, S.cell(x-1,y) l, S.cell(x,y-1) u, S.cell(x-1,y-1) d) { s = a + l + u - d; }
  secondary to (S.cell(x,y) s) from (A.region(0,0,x+1,y+1) r) { s = sum(r); }
}";

const BLUR: &str = "transform Blur3 where n >= 2 from A[n] to B[n] {
  to (B.cell(i) b) from (A.region(i-1, i+2) a) { b = sum(a) / 3; }
  secondary to (B.cell(i) b) from (A.cell(i) a) { b = a; }
}";

const REV: &str =
    "transform Rev from A[n] to B[n] { to (B b) from (A a) { for (k = 0 .. n) { b.cell(k) = a.cell(n - 1 - k); } } }";

// A row and a column, and an output of two parts.
const LINES: &str = "transform Lines from A[n,n] to B[n], C[n] {
  to (B.cell(i) b) from (A.row(i) r, A.column(0) c) { b = sum(r) + sum(c); }
  to (C.region(0, n/2) c, C.region(n/2, n) d) from (A.cell(0,0) a) { c.cell(0) = a; }
}";

const PRODUCT: &str = "transform MatrixAdd from A[w,h], B[w,h] to C[w,h] {
  to (C.cell(x,y) c) from (A.cell(x,y) a, B.cell(x,y) b) { c = a + b; }
}
transform MatrixMultiply from A[c,h], B[w,c] to AB[w,h] {
  to (AB.cell(x,y) o) from (A.row(y) a, B.column(x) b) { o = dot(a, b); }
  to (AB ab) from (A.region(0,0,c/2,h) a1, A.region(c/2,0,c,h) a2, B.region(0,0,w,c/2) b1, B.region(0,c/2,w,c) b2) where c >= 2 {
    let t1[w,h]; let t2[w,h];
    t1 = MatrixMultiply(a1, b1);
    t2 = MatrixMultiply(a2, b2);
    ab = MatrixAdd(t1, t2);
  }
}";

// A call that never fits, and a matrix that is empty at size 1.
const BAD: &str =
    "transform Copy from A[m] to C[m] { to (C.cell(i) c) from (A.cell(i) a) { c = a; } }
transform Bad from A[n] to B[n] { to (B b) from (A.region(0, n/2) a) { b = Copy(a); } }";

const HALF: &str =
    "transform Half from A[n], H[n/2] to B[n] { to (B.cell(i) b) from (A.cell(i) a) { b = a; } }";

// Each call is one less deep; one of 66 cells ends below the depth.
const DEEP: &str =
    "transform Copy from A[m] to C[m] { to (C.cell(i) c) from (A.cell(i) a) { c = a; } }
transform Deep from A[n] to B[n] {
  to (B.region(0, 1) p, B.region(1, n) q) from (A.region(0, 1) a, A.region(1, n) b) where n >= 2 { p = Copy(a); q = Deep(b); }
  secondary to (B.cell(i) b) from (A.cell(i) a) { b = a; }
}";

fn told(alloc: Global, a: &Accepted, c: &Config, t: u32, size: u64) -> Result<String, AllocError>
    requires valid { IsValid (bare_prog a.now.program) c.now }
{
    if t as usize >= program(a).transforms.len() || size < 1 || size > 1_048_576 {
        return String::from_str(alloc, "nothing");
    }
    match cost(alloc, a, c, t, size)? {
        Some(cost) => format!(in alloc; "{cost}"),
        None => String::from_str(alloc, "unfit"),
    }
}

// The costs at four sizes.
fn costs(
    alloc: Global,
    text: &str,
    config: &str,
    t: u32,
    sizes: [u64; 4],
) -> Result<String, AllocError> {
    let Some(a) = accepted(alloc, text)? else {
        return String::from_str(alloc, "refused");
    };
    let chosen = match read_config(alloc, config.as_bytes(), program(&a)) {
        Ok(chosen) => chosen,
        Err(ConfigRefusal::Memory) => return Err(AllocError),
        Err(_) => return String::from_str(alloc, "no configuration"),
    };
    let [first, second, third, fourth] = sizes;
    let first = told(alloc, &a, &chosen, t, first)?;
    let second = told(alloc, &a, &chosen, t, second)?;
    let third = told(alloc, &a, &chosen, t, third)?;
    let fourth = told(alloc, &a, &chosen, t, fourth)?;
    format!(in alloc; "{first} {second} {third} {fourth}")
}

// A program, a configuration, the transform, and the costs at the sizes 1, 2, 4 and 8.
const ROWS: [(&str, &str, u32, &str); 11] = [
    (DOUBLE, "", 0, "2 4 8 16"),
    (ROLL, "", 0, "2 5 14 44"),
    (ROLL, "choose RollingSum.B {0,1} = 1\n", 0, "2 5 11 23"),
    (
        ROLL,
        "choose RollingSum.B {0,1} = 0 until 4 then 1 until 8 then 0\n",
        0,
        "2 5 11 44",
    ),
    (PREFIX, "", 0, "2 13 71 331"),
    (BLUR, "", 0, "unfit 4 12 28"),
    (REV, "", 0, "2 4 8 16"),
    (LINES, "", 0, "5 13 41 145"),
    (PRODUCT, "", 1, "3 20 144 1088"),
    (
        PRODUCT,
        "choose MatrixMultiply.AB {0,1} = 1\n",
        1,
        "3 48 448 3712",
    ),
    (HALF, "", 0, "unfit 4 8 16"),
];

#[test]
fn a_configuration_costs_what_its_equations_read_and_write(rt: HostRuntime) -> Result<(), Fail> {
    let alloc = rt.alloc();
    for (text, config, t, wanted) in ROWS {
        let found = costs(alloc, text, config, t, [1, 2, 4, 8])?;
        assert_eq!(rt; found.as_str(), wanted, "{text} {config}");
    }
    Ok(())
}

#[test]
fn a_call_that_fails_has_no_cost(rt: HostRuntime) -> Result<(), Fail> {
    let alloc = rt.alloc();
    let bad = costs(alloc, BAD, "", 1, [1, 2, 4, 8])?;
    assert_eq!(rt; bad.as_str(), "unfit unfit unfit unfit");
    let deep = costs(alloc, DEEP, "", 1, [1, 8, 65, 66])?;
    assert_eq!(rt; deep.as_str(), "2 86 4418 unfit");
    let large = costs(alloc, ROLL, "", 0, [1, 2, 1024, 1_048_576])?;
    assert_eq!(rt; large.as_str(), "2 5 525824 549757386752");
    Ok(())
}
