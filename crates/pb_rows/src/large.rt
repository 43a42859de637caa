//! Runs at the most cells of a run and at the greatest size, and one past either.
use crate::examples::{BIG, DOUBLE};
use crate::run::ran;
use std::alloc::{AllocError, Global};
use std::test::Fail;

// A text, a part so often, and another text.
fn repeated(
    alloc: Global,
    head: &str,
    count: usize,
    part: &str,
    tail: &str,
) -> Result<String, AllocError> {
    let mut text = String::from_str(alloc, head)?;
    for _ in 0..count {
        text.push_str(part)?;
    }
    text.push_str(tail)?;
    Ok(text)
}

// As many cells as a size allows, and with a matrix of twice as many between input and output as many as a run allows.
#[test]
fn a_run_has_at_most_so_many_cells(rt: HostRuntime) -> Result<(), Fail> {
    let alloc = rt.alloc();
    let input = repeated(alloc, "matrix 1048576\n", 1_048_576, "0 ", "")?;
    let expected = repeated(alloc, "matrix 1048576\n", 1_048_575, "1 ", "1\n")?;
    let (status, out, err) = ran(
        &rt,
        alloc,
        "run --pool serial p - Big a",
        BIG,
        input.as_str(),
    )?;
    assert_eq!(rt; (status, err.len()), (0, 0));
    assert!(rt; out.as_slice() == expected.as_bytes());
    let (status, out, err) = ran(
        &rt,
        alloc,
        "run --pool serial p - Bigger a",
        BIG,
        input.as_str(),
    )?;
    assert_eq!(rt; (status, out.len()), (6, 0));
    assert_eq!(rt;
        err.as_slice(),
        b"X1 TooLarge: cells over 4194304\n".as_slice()
    );
    Ok(())
}

#[test]
fn a_size_is_at_most_so_great(rt: HostRuntime) -> Result<(), Fail> {
    let alloc = rt.alloc();
    let input = repeated(alloc, "matrix 1048577\n", 1_048_577, "1\n", "")?;
    let (status, out, err) = ran(
        &rt,
        alloc,
        "run --pool serial p - Double a",
        DOUBLE,
        input.as_str(),
    )?;
    assert_eq!(rt; (status, out.len()), (5, 0));
    assert_eq!(rt;
        err.as_slice(),
        b"B4 SizeOutOfRange: n is 1048577\n".as_slice()
    );
    Ok(())
}

const HEAD: &str = "transform T from A[n] to B[n] { to (B.cell(i) b) from (A.cell(i) a) { ";

// A body of as many statements as there may be, and bodies that nest as deep as they may, by parentheses and by branches.
#[test]
fn the_largest_bodies_run(rt: HostRuntime) -> Result<(), Fail> {
    let alloc = rt.alloc();
    let line = "run --pool serial p - T a";
    let input = "matrix 2\n1 2\n";
    let long = repeated(alloc, HEAD, 256, "b = b + a; ", "} }")?;
    let (status, out, _) = ran(&rt, alloc, line, long.as_str(), input)?;
    assert_eq!(rt; status, 0);
    assert_eq!(rt; out.as_slice(), b"matrix 2\n256 512\n".as_slice());
    let begun = repeated(alloc, HEAD, 1, "b = ", "")?;
    let opened = repeated(alloc, begun.as_str(), 31, "(", "a")?;
    let deep = repeated(alloc, opened.as_str(), 31, " + 1)", "; } }")?;
    let (status, out, _) = ran(&rt, alloc, line, deep.as_str(), input)?;
    assert_eq!(rt; status, 0);
    assert_eq!(rt; out.as_slice(), b"matrix 2\n32 33\n".as_slice());
    let opened = repeated(alloc, HEAD, 31, "if (a > 1) { ", "b = a; ")?;
    let branches = repeated(alloc, opened.as_str(), 31, "} ", "} }")?;
    let (status, out, _) = ran(&rt, alloc, line, branches.as_str(), input)?;
    assert_eq!(rt; status, 0);
    assert_eq!(rt; out.as_slice(), b"matrix 2\n0 2\n".as_slice());
    Ok(())
}
