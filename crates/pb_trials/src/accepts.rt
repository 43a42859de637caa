//! Whole texts: which are accepted, with the numbers of their transforms, and why others are refused.
use crate::grids::add_form;
use crate::programs::word;
use pb_check::{Accepted, accept};
use pb_prog::Refusal;
use std::alloc::{AllocError, Global};
use std::str;
use std::test::Fail;

// A text that is refused by each phase, and what its refusal carries: numbers of the transform and of the matrix with a
// dot between them, forms over the first size, and sizes; or numbers of the transform and of segments.
const REFUSED: [(&str, &str); 17] = [
    ("transform @", "bad token at 10"),
    ("", "bad syntax at 0"),
    ("transform T from A[1048577]", "over limit: number at 19"),
    (
        "transform T from A[n], A[n] to B[n] { to (B.cell(i) b) from () { b = 1; } }",
        "duplicate A at 23",
    ),
    (
        "transform T from A[n] to B[n] { to (B.cell(i) b) from () { b = z; } }",
        "unknown z at 63",
    ),
    (
        "transform T from A[2*n] to B[n] { to (B.cell(i) b) from () { b = 1; } }",
        "not bound n at 21",
    ),
    (
        "transform T from A[n] to B[n] { to (A.cell(i) b) from () { b = 1; } }",
        "bad output at 36",
    ),
    (
        "transform T from A[n] to B[n] { to (B.cell(i) b) from () { b = 1 < 2; } }",
        "bad type at 63",
    ),
    (
        "transform T from A[n], C[m] to B[m - n, n - 3] { to (B b) from () { } }",
        "negative 0.2 axis 0 at 1048576,1",
    ),
    (
        "transform S from A[n] to B[n] { to (B b) from () { } } transform T from A[n] to B[n] { to (B b) from () { } to (B.cell(i) b) from (A.cell(2 * i) a) { b = a; } }",
        "no box 1 rule 1 condition 2",
    ),
    (
        "transform T from A[n] to B[n] { to (B b) from () { } to (B.region(0, n/2) o, B.region(n/2, n) p, B.region(0, n) q) from () { } }",
        "overlap 0 rule 1 outputs 0 and 2",
    ),
    (
        "transform Blur3 from A[n] to B[n] { to (B.cell(i) b) from (A.region(i-1, i+2) a) { b = sum(a) / 3; } secondary to (B.cell(i) b) from (A.cell(i) a) { b = a; } }",
        "crossing 0.1 axis 0 at 1,0 1048576,0: 0n+1 1n-1 ",
    ),
    (
        "transform S from A[n] to B[n] { to (B b) from () { } } transform T from A[n], C[m] through M[n] to B[n, m] { to (M c) from () { } to (B.cell(i, j) b) from () where j < 5 { b = 1; } }",
        "crossing 1.3 axis 1 at 1,1048576 1,1: 0n+0 0n+5 ",
    ),
    (
        "transform T from A[n] to B[40] { to (B.cell(1) a, B.cell(3) b, B.cell(5) c, B.cell(7) d, B.cell(9) e, B.cell(11) f, B.cell(13) g, B.cell(15) h, B.cell(17) i, B.cell(19) j, B.cell(21) k, B.cell(23) l, B.cell(25) m, B.cell(27) p, B.cell(29) q, B.cell(30) r) from () { } }",
        "too many segments 0.1",
    ),
    (
        "transform Guard from A[n] to B[n] { to (B.cell(i) b) from (A.cell(i) a) where n >= 2 { b = a; } }",
        "uncovered 0.1: 0n+0 1n+0 0n+0 0n+1 ",
    ),
    (
        "transform S from A[n] to B[n] { to (B b) from () { } } transform T from A[n] through M[n, n] to B[n] { to (B b) from () { } to (M.region(0, 0, n, 1) c) from () { } }",
        "uncovered 1.1: 0n+0 1n+0 0n+1 1n+0 ",
    ),
    (
        "transform S from A[n] to B[n] { to (B b) from () { } } transform Pair from A[n] through M[n] to U[n], V[n] { to (M m) from () { } to (U.cell(i) u) from (V.cell(i) v) { u = v; } to (V.cell(i) v) from (U.cell(i) u) { v = u; } }",
        "no order 1: 1 2 ",
    ),
];

const PROGRAM: &str =
    "transform Copy from A[m] to C[m] { to (C.cell(i) c) from (A.cell(i) a) { c = a; } } \
transform Copies from A[n] to B[n] { to (B.cell(i) b) from (A.cell(i) a) where n >= 2 { b = a; } \
secondary to (B b) from () { } }";

// A name, and the number of the transform of `PROGRAM` that has it.
const NAMES: [(&str, Option<u32>); 6] = [
    ("Copy", Some(0)),
    ("Copies", Some(1)),
    ("Cop", None),
    ("copy", None),
    ("A", None),
    ("", None),
];

fn shown(bytes: &[u8]) -> &str {
    match str::from_utf8(bytes) {
        Ok(name) => name,
        Err(_) => "",
    }
}

// What a refusal of the text, of its names or of its types carries.
fn told(alloc: Global, refusal: &Refusal) -> Result<String, AllocError> {
    match refusal {
        Refusal::TooLong => format!(in alloc; "too long"),
        Refusal::BadToken { at } => format!(in alloc; "bad token at {at}"),
        Refusal::BadSyntax { at } => format!(in alloc; "bad syntax at {at}"),
        Refusal::OverLimit { what, at } => {
            let what = word(*what);
            format!(in alloc; "over limit: {what} at {at}")
        }
        Refusal::DuplicateName { name, at } => {
            let name = shown(name.bytes());
            format!(in alloc; "duplicate {name} at {at}")
        }
        Refusal::UnknownName { name, at } => {
            let name = shown(name.bytes());
            format!(in alloc; "unknown {name} at {at}")
        }
        Refusal::SizeNotBound { name, at } => {
            let name = shown(name.bytes());
            format!(in alloc; "not bound {name} at {at}")
        }
        Refusal::BadOutput { at } => format!(in alloc; "bad output at {at}"),
        Refusal::BadType { at } => format!(in alloc; "bad type at {at}"),
        _ => format!(in alloc; "another refusal"),
    }
}

// What a refusal of bounds carries.
fn told_bounds(alloc: Global, refusal: &Refusal) -> Result<String, AllocError> {
    match refusal {
        Refusal::NegativeDim {
            transform,
            matrix,
            axis,
            sizes,
        } => {
            let (first, second) = (sizes.of[0], sizes.of[1]);
            format!(in alloc; "negative {transform}.{matrix} axis {axis} at {first},{second}")
        }
        Refusal::NotABox {
            transform,
            rule,
            condition,
        } => format!(in alloc; "no box {transform} rule {rule} condition {condition}"),
        Refusal::OverlapOutputs {
            transform,
            rule,
            first,
            second,
        } => format!(in alloc; "overlap {transform} rule {rule} outputs {first} and {second}"),
        _ => told(alloc, refusal),
    }
}

// Numbers, each with a blank after it.
fn add_numbers(alloc: Global, text: &mut Vec<u8>, numbers: &[u32]) -> Result<(), AllocError> {
    for number in numbers {
        let shown = format!(in alloc; "{number} ")?;
        text.extend_from_slice(shown.as_bytes())?;
    }
    Ok(())
}

// What any refusal carries.
fn carried(alloc: Global, refusal: &Refusal) -> Result<Vec<u8>, AllocError> {
    match refusal {
        Refusal::Crossing {
            transform,
            matrix,
            axis,
            first,
            second,
            over,
            under,
        } => {
            let (a, b, c, d) = (over.of[0], over.of[1], under.of[0], under.of[1]);
            let shown = format!(in alloc;
                "crossing {transform}.{matrix} axis {axis} at {a},{b} {c},{d}: "
            )?;
            let mut text = shown.into_bytes();
            add_form(alloc, &mut text, first)?;
            add_form(alloc, &mut text, second)?;
            Ok(text)
        }
        Refusal::Uncovered {
            transform,
            matrix,
            area,
        } => {
            let mut text = format!(in alloc; "uncovered {transform}.{matrix}: ")?.into_bytes();
            add_form(alloc, &mut text, &area.x0)?;
            add_form(alloc, &mut text, &area.x1)?;
            add_form(alloc, &mut text, &area.y0)?;
            add_form(alloc, &mut text, &area.y1)?;
            Ok(text)
        }
        Refusal::TooManySegments { transform, matrix } => {
            let shown = format!(in alloc; "too many segments {transform}.{matrix}")?;
            Ok(shown.into_bytes())
        }
        Refusal::NoOrder {
            transform,
            segments,
        } => {
            let mut text = format!(in alloc; "no order {transform}: ")?.into_bytes();
            add_numbers(alloc, &mut text, &segments.numbers)?;
            Ok(text)
        }
        _ => Ok(told_bounds(alloc, refusal)?.into_bytes()),
    }
}

// What is said of a text.
fn said(alloc: Global, text: &[u8]) -> Result<Vec<u8>, AllocError> {
    match accept(alloc, text) {
        Ok(accepted) => {
            let count = accepted.prog().transforms.len();
            let shown = format!(in alloc; "accepted with {count}")?;
            Ok(shown.into_bytes())
        }
        Err(refusal) => carried(alloc, &refusal),
    }
}

fn accepted(alloc: Global) -> Result<Accepted, Refusal> {
    accept(alloc, PROGRAM.as_bytes())
}

#[test]
fn each_phase_refuses_with_what_is_wrong(rt: HostRuntime) -> Result<(), Fail> {
    for (text, expected) in &REFUSED {
        let found = said(rt.alloc(), text.as_bytes())?;
        assert!(rt;
            found.as_slice() == expected.as_bytes(),
            "{text}: {found:?}"
        );
    }
    Ok(())
}

#[test]
fn a_text_that_is_too_long_is_refused(rt: HostRuntime) -> Result<(), Fail> {
    let blanks = Vec::from_elem(rt.alloc(), b' ', 1_048_577)?;
    let found = said(rt.alloc(), &blanks)?;
    assert_eq!(rt; found.as_slice(), b"too long".as_slice());
    Ok(())
}

#[test]
fn transforms_of_an_accepted_text_are_found_by_their_names(rt: HostRuntime) -> Result<(), Fail> {
    let found = said(rt.alloc(), PROGRAM.as_bytes())?;
    assert_eq!(rt; found.as_slice(), b"accepted with 2".as_slice());
    let Ok(accepted) = accepted(rt.alloc()) else {
        assert!(rt; false, "the program is refused");
        return Ok(());
    };
    for (name, number) in &NAMES {
        assert_eq!(rt; accepted.find(name.as_bytes()), *number, "{name}");
    }
    Ok(())
}
