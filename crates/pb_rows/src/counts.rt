//! Runs with plans at each of their limits, and one past it.
use crate::run::End::{Done, Stopped};
use crate::run::{Rows, all_hold, ran};
use std::alloc::{AllocError, Global};
use std::process::Abort;
use std::sync::Wait;
use std::test::Fail;
use std::thread::Threads;

// Local matrices of calls that can't be made, whose sides and cells count: a side of 1048576 n, and 1048576 n - 12 cells.
const LOCALS: &str =
    "transform Copy from A[m] to C[m] { to (C.cell(i) c) from (A.cell(i) a) { c = a; } }
transform Square from A[m] to C[m, m] { to (C.cell(x, y) c) from (A.cell(x) a) { c = a; } }
transform Side where n >= 4 from A[n] to B[n] {
  to (B b) from (A a) { let t[1048576 * n, n - 4]; t = Square(a); b = Copy(a); }
}
transform Cells from A[n] to B[n] { to (B b) from (A a) { let t[1048576 * n - 12]; t = Copy(a); b = Copy(a); } }
transform More from A[n] to B[n] { to (B b) from (A a) { let t[1048576 * n - 11]; t = Copy(a); b = Copy(a); } }
";

const FOUR: &str = "matrix 4\n1 2 3 4\n";

const LOCAL_ROWS: Rows = &[
    (
        "run --pool serial p - Side a",
        &[("p", LOCALS), ("a", FOUR)],
        Done(FOUR),
    ),
    (
        "run --pool serial p - Side a",
        &[("p", LOCALS), ("a", "matrix 5\n1 2 3 4 5\n")],
        Stopped(6, "X1 TooLarge: side over 4194304\n"),
    ),
    // 4 cells are given, 4194292 those of t, 4 made by the second call, and 4 those of B.
    (
        "run --pool serial p - Cells a",
        &[("p", LOCALS), ("a", FOUR)],
        Done(FOUR),
    ),
    (
        "run --pool serial p - More a",
        &[("p", LOCALS), ("a", FOUR)],
        Stopped(6, "X1 TooLarge: cells over 4194304\n"),
    ),
];

#[test]
fn failed_calls_count_for_sides_and_cells(rt: HostRuntime) -> Result<(), Fail> {
    all_hold(&rt, rt.alloc(), LOCAL_ROWS)
}

// Runs of a program over an input of ones, with so many equal cells as the answer; or the line of a count.
fn answers<R: Threads + Wait + Sync + Abort>(
    rt: &R,
    alloc: Global,
    program: &str,
    transform: &str,
    given: usize,
    expected: Result<&str, &str>,
) -> Result<(), Fail> {
    let line = format!(in alloc; "run --pool serial p - {transform} a")?;
    let mut input = format!(in alloc; "matrix {given}\n")?;
    for _ in 0..given {
        input.push_str("1\n")?;
    }
    let (status, out, err) = ran(rt, alloc, line.as_str(), program, input.as_str())?;
    match expected {
        Ok(text) => {
            assert_eq!(rt; (status, err.len()), (0, 0), "{transform}");
            assert!(rt; out.as_slice() == text.as_bytes(), "{transform}");
        }
        Err(text) => {
            assert_eq!(rt; (status, out.len()), (6, 0), "{transform}");
            assert_eq!(rt; err.as_slice(), text.as_bytes(), "{transform}");
        }
    }
    Ok(())
}

// 31 numbers as a matrix text.
fn numbers(alloc: Global, number: &str) -> Result<String, AllocError> {
    let mut text = format!(in alloc; "matrix 31\n{number}")?;
    for _ in 1..31 {
        text.push_str(" ")?;
        text.push_str(number)?;
    }
    text.push_str("\n")?;
    Ok(text)
}

// A tree of 2^n - 1 calls, of which the 2^(n - 1) last have 31 tasks each, and the others a copy.
fn tree(alloc: Global) -> Result<String, AllocError> {
    let mut text = String::from_str(
        alloc,
        "transform Tree from A[n] to B[31] {
  to (B b) from (A.region(0, n - 1) a) where n >= 2 { let t[31]; t = Tree(a); b = Tree(a); }
",
    )?;
    for k in 0..31usize {
        let rule = format!(in alloc; "  to (B.region({k}, {}) b) from () {{ }}\n", k + 1)?;
        text.push_str(rule.as_str())?;
    }
    text.push_str(
        "}
transform Top from A[n] to B[31] { to (B b) from (A a) { b = Tree(a); } }
transform Wider from A[n] through C[1] to B[31] { to (C c) from () { } to (B b) from (A a) { b = Tree(a); } }
transform Longer from A[n] to B[31] {
  to (B b) from (A a, A.region(0, 1) first) { let t[31]; t = Tree(first); b = Tree(a); }
}
",
    )?;
    Ok(text)
}

// At n = 14 the tree has 16383 calls and 31 * 8192 + 8191 = 262143 tasks. A call and a copy more are the most of both.
#[test]
fn a_run_has_at_most_so_many_calls_and_tasks(rt: HostRuntime) -> Result<(), Fail> {
    let alloc = rt.alloc();
    let program = tree(alloc)?;
    let zeros = numbers(alloc, "0")?;
    answers(&rt, alloc, program.as_str(), "Top", 14, Ok(zeros.as_str()))?;
    answers(
        &rt,
        alloc,
        program.as_str(),
        "Wider",
        14,
        Err("X1 TooLarge: tasks over 262144\n"),
    )?;
    answers(
        &rt,
        alloc,
        program.as_str(),
        "Longer",
        14,
        Err("X1 TooLarge: calls over 16384\n"),
    )
}

// Two rules that cut a matrix of 31 cells into segments of a cell each, and that are chosen nowhere.
fn push_cuts(alloc: Global, text: &mut String, matrix: &str) -> Result<(), AllocError> {
    for (from, to) in [(0usize, 16usize), (16, 31)] {
        text.push_str("  secondary to (")?;
        for k in from..to {
            if k > from {
                text.push_str(", ")?;
            }
            let piece = format!(in alloc; "{matrix}.region({k}, {}) p{k}", k + 1)?;
            text.push_str(piece.as_str())?;
        }
        text.push_str(") from () { }\n")?;
    }
    Ok(())
}

// Calls of Leaf from a tree. In a leaf each cell of P, Q and B has a task of its own: a cell of P waits for those before it; one of
// Q for all of P and those of Q before it; one of B for 24 of P, all of Q, and those of B before it; and D waits for 3 of P. These
// are 465 + (961 + 465) + (744 + 961 + 465) + 3 = 4064 links. A call of the tree that calls a leaf waits for the 31 tasks of its B,
// and each other for one copy.
fn linked(alloc: Global) -> Result<String, AllocError> {
    let mut text = String::from_str(
        alloc,
        "transform Leaf from A[n] through P[31], Q[31], D[1] to B[31] {
  to (P.cell(i) c) from (P.region(0, i) before) { c = 1; }
  to (Q.cell(i) c) from (P p, Q.region(0, i) before) { c = 1; }
  to (B.cell(i) c) from (P.region(0, 24) p, Q q, B.region(0, i) before) { c = 1; }
  to (D d) from (P.region(0, 3) p) { }
",
    )?;
    push_cuts(alloc, &mut text, "P")?;
    push_cuts(alloc, &mut text, "Q")?;
    push_cuts(alloc, &mut text, "B")?;
    text.push_str(
        "}
transform Tree from A[n] to B[31] {
  to (B b) from (A.region(0, n - 1) a) where n >= 2 { let t[31]; t = Tree(a); b = Tree(a); }
  to (B b) from (A a) { b = Leaf(a); }
}
transform Top from A[n] to B[31] { to (B b) from (A a) { b = Tree(a); } }
transform Longer from A[n] through C[1] to B[31] {
  to (C c) from (B b) { }
  to (B b) from (A a) { b = Tree(a); }
}
",
    )?;
    Ok(text)
}

// At n = 12 there are 2048 leaves: 2048 * (4064 + 31) + 2047 + 1 = 8388608 links.
#[test]
fn a_run_has_at_most_so_many_links(rt: HostRuntime) -> Result<(), Fail> {
    let alloc = rt.alloc();
    let program = linked(alloc)?;
    let ones = numbers(alloc, "1")?;
    answers(&rt, alloc, program.as_str(), "Top", 12, Ok(ones.as_str()))?;
    answers(
        &rt,
        alloc,
        program.as_str(),
        "Longer",
        12,
        Err("X1 TooLarge: links over 8388608\n"),
    )
}
