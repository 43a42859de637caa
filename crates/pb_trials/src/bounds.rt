//! Bounds: which sides are negative, which conditions are no boxes, which outputs may overlap, and the boxes of rules.
ghost use Rattle.pb_program.specs.Trees.{bare_prog};
ghost use Rattle.pb_program.specs.WellFormed.{IsWellFormed};

use pb_front::{a_tree_that_is_read_is_within_limits, read_text};
use pb_linear::{Form, RuleBox};
use pb_prog::{Refusal, print_form};
use pb_region::{check_dims, conditions, read_boxes};
use pb_resolve::{Prog, resolve};
use std::alloc::{AllocError, Global};
use std::str;
use std::test::Fail;

// A program, what is said of its transform and of its last rule.
const ROWS: [(&str, &str); 12] = [
    (
        "from A[n] to B[n-2] { to (B.cell(i) b) from () { b = 1; } }",
        "side 0 of 1 at 1",
    ),
    (
        "from A[n], C[m] to B[m - n, n - 3] { to (B b) from () { } }",
        "side 0 of 2 at 1048576",
    ),
    (
        "from A[n] to B[n, n/2 - 3] { to (B b) from () { } }",
        "side 1 of 1 at 1",
    ),
    (
        "from A[n] to B[n] { to (B.cell(i) b) from (A.cell(2 * i) a) { b = a; } }",
        "no box 2",
    ),
    (
        "from A[n] to B[n] { to (B.cell(i) b) from (A.cell(i/2) a) { b = a; } }",
        "no box 2",
    ),
    (
        "from A[n] to B[n, n] { to (B.cell(i, j) b) from () where i < j { b = 1; } }",
        "no box 4",
    ),
    (
        "from A[n] to B[n] { to (B.region(0, n) p, B.region(0, n/2) q) from () { } }",
        "overlap 0 1",
    ),
    (
        "from A[n] to B[n] { to (B.region(0, n/2) p, B.region(n/2, n) q) from () { } }",
        "box 0;n/2;0;1; box n/2;n;0;1;",
    ),
    (
        "from A[n] to B[n] { to (B.cell(i) b) from (A.cell(i-1) l, A.cell(i+1) r) { b = l + r; } }",
        "box 0,1,-1;n,n+1,n-1;;;",
    ),
    (
        "from A[n] to B[n] { to (B.cell(i) b) from (A.cell(n - 1 - i) a) { b = a; } }",
        "box 0,0;n,n;;;",
    ),
    (
        "from A[n] to B[n] { to (B.cell(i) b) from () where n <= 4 { b = 1; } }",
        "guarded box 0;n;;;",
    ),
    (
        "from A[w, h] through M[w, h] to B[w, h] { to (M m) from () { } to (B.cell(i, j) b) from (M.row(j) r, A.cell(i, j) a) { b = a; } }",
        "box 0,0;w,w;0,0,0;h,h,h; reads 1 of 1",
    ),
];

// The forms, each after a comma but the first, and a semicolon.
fn add_forms(
    alloc: Global,
    text: &mut Vec<u8>,
    p: &Prog,
    forms: &[Form],
) -> Result<(), AllocError> {
    let Some(t) = p.transforms.get(0) else {
        return Ok(());
    };
    for (k, form) in forms.iter().enumerate() {
        if k != 0 {
            text.extend_from_slice(b",")?;
        }
        if t.sizes.len() <= 8 {
            text.extend_from_slice(&print_form(alloc, form, &t.sizes)?)?;
        }
    }
    text.extend_from_slice(b";")
}

fn add_box(alloc: Global, text: &mut Vec<u8>, p: &Prog, found: &RuleBox) -> Result<(), AllocError> {
    if !text.is_empty() {
        text.extend_from_slice(b" ")?;
    }
    if found.guarded {
        text.extend_from_slice(b"guarded ")?;
    }
    text.extend_from_slice(b"box ")?;
    add_forms(alloc, text, p, &found.lower_x)?;
    add_forms(alloc, text, p, &found.upper_x)?;
    add_forms(alloc, text, p, &found.lower_y)?;
    add_forms(alloc, text, p, &found.upper_y)
}

// The boxes of the last rule, and what it reads of matrices that rules make; or why it has none.
fn boxes(alloc: Global, p: &Prog, rule: u32) -> Result<Vec<u8>, Refusal>
    requires { IsWellFormed (bare_prog p.now) }
{
    let mut text = Vec::new(alloc);
    for found in &conditions(alloc, p, 0, rule)? {
        add_box(alloc, &mut text, p, found)?;
    }
    for read in &read_boxes(alloc, p, 0, rule)? {
        let (rule, matrix) = (read.rule, read.matrix);
        let line = format!(in alloc; " reads {rule} of {matrix}")?;
        text.extend_from_slice(line.as_bytes())?;
    }
    Ok(text)
}

// The boxes of the last rule, if no side is negative.
fn bounds(alloc: Global, p: &Prog) -> Result<Vec<u8>, Refusal>
    requires { IsWellFormed (bare_prog p.now) }
{
    check_dims(p, 0)?;
    let rules = match p.transforms.get(0) {
        Some(t) => t.rules.len(),
        None => 0,
    };
    boxes(alloc, p, if rules == 2 { 1 } else { 0 })
}

fn judge(alloc: Global, text: &str) -> Result<Vec<u8>, Refusal> {
    let tree = read_text(alloc, text.as_bytes())?;
    a_tree_that_is_read_is_within_limits();
    let program = resolve(alloc, &tree)?;
    bounds(alloc, &program)
}

// What is said of a program.
fn said(alloc: Global, text: &str) -> Result<Vec<u8>, AllocError> {
    let line = match judge(alloc, text) {
        Ok(found) => return Ok(found),
        Err(
            Refusal::NegativeDim {
                matrix,
                axis,
                sizes,
                ..
            },
        ) => {
            let size = sizes.of[0];
            format!(in alloc; "side {axis} of {matrix} at {size}")?
        }
        Err(Refusal::NotABox { condition, .. }) => format!(in alloc; "no box {condition}")?,
        Err(Refusal::OverlapOutputs { first, second, .. }) => {
            format!(in alloc; "overlap {first} {second}")?
        }
        Err(_) => format!(in alloc; "another refusal")?,
    };
    Ok(line.into_bytes())
}

#[test]
fn bounds_are_those_of_the_conditions(rt: HostRuntime) -> Result<(), Fail> {
    let alloc = rt.alloc();
    for (program, expected) in &ROWS {
        let text = format!(in alloc; "transform T {program}")?;
        let found = said(alloc, text.as_str())?;
        assert!(rt;
            found.as_slice() == expected.as_bytes(),
            "{program}: {found:?}"
        );
    }
    Ok(())
}
