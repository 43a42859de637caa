//! Entering a run: the number of a name, the sizes of matrices, and why there are none.
use crate::programs::accepted;
use pb_check::Accepted;
use pb_entry::{RunRefusal, bind_sizes, enter};
use pb_linear::Sizes;
use pb_matrix::Matrix;
use pb_values::Shape;
use std::alloc::{AllocError, Global};
use std::test::Fail;

const PROGRAM: &str = "transform S from A[k] to B[k] { to (B b) from () { } } \
transform T where n >= 2 from A[n], C[m, 2*n], D[n, m] to B[n] { to (B b) from () { } }";

// A name, the dimensions, the width and the height of each matrix that is given, and what is told.
const ROWS: [(&str, &[(u8, u64, u64)], &str); 16] = [
    ("T", &[(1, 3, 1), (2, 5, 6), (2, 3, 5)], "1: 3 5"),
    (
        "T",
        &[(1, 1_048_576, 1), (2, 1, 2_097_152), (2, 1_048_576, 1)],
        "1: 1048576 1",
    ),
    ("S", &[(1, 7, 1)], "0: 7 0"),
    ("U", &[(1, 7, 1)], "unknown"),
    ("s", &[], "unknown"),
    ("T", &[(1, 3, 1), (2, 5, 6)], "wanted 3, given 2"),
    ("S", &[(1, 3, 1), (1, 3, 1)], "wanted 1, given 2"),
    (
        "T",
        &[(2, 3, 1), (1, 5, 1), (2, 3, 5)],
        "matrix 0 axis 2: wanted 1, found 2",
    ),
    // Dimensions come before sizes,
    (
        "T",
        &[(1, 1, 1), (2, 5, 2), (1, 1, 1)],
        "matrix 2 axis 2: wanted 2, found 1",
    ),
    // sizes before sides,
    ("T", &[(1, 1, 1), (2, 5, 7), (2, 9, 5)], "size 0: 1"),
    ("T", &[(1, 3, 1), (2, 0, 7), (2, 9, 5)], "size 1: 0"),
    (
        "T",
        &[(1, 3, 1), (2, 1_048_577, 6), (2, 3, 5)],
        "size 1: 1048577",
    ),
    ("T", &[(1, 1, 1), (2, 0, 2), (2, 1, 0)], "size 0: 1"),
    // and of two sides the width before the height.
    (
        "T",
        &[(1, 3, 1), (2, 5, 5), (2, 4, 4)],
        "matrix 1 axis 1: wanted 6, found 5",
    ),
    (
        "T",
        &[(1, 3, 1), (2, 5, 6), (2, 4, 4)],
        "matrix 2 axis 0: wanted 3, found 4",
    ),
    (
        "T",
        &[(1, 3, 1), (2, 5, 6), (2, 3, 4)],
        "matrix 2 axis 1: wanted 5, found 4",
    ),
];

fn matrices(alloc: Global, shapes: &[(u8, u64, u64)]) -> Result<Vec<Matrix>, AllocError> {
    let mut found = Vec::new(alloc);
    for (dims, w, h) in shapes {
        found.push(Matrix {
            shape: Shape {
                dims: *dims,
                w: *w,
                h: *h,
            },
            cells: Vec::new(alloc),
        })?;
    }
    Ok(found)
}

// The number of the transform and its sizes. There are few matrices.
fn entered(a: &Accepted, name: &[u8], inputs: &[Matrix]) -> Result<(u32, Sizes), RunRefusal> {
    if inputs.len() > 100 {
        return Err(RunRefusal::Memory);
    }
    let t = enter(a, name, inputs.len() as u32)?;
    Ok((t, bind_sizes(a, t, inputs)?))
}

fn said(
    alloc: Global,
    a: &Accepted,
    name: &str,
    shapes: &[(u8, u64, u64)],
) -> Result<String, AllocError> {
    let inputs = matrices(alloc, shapes)?;
    match entered(a, name.as_bytes(), &inputs) {
        Ok((t, sizes)) => {
            let (first, second) = (sizes.of[0], sizes.of[1]);
            format!(in alloc; "{t}: {first} {second}")
        }
        Err(RunRefusal::UnknownTransform) => format!(in alloc; "unknown"),
        Err(RunRefusal::WrongCount { wanted, given }) => format!(in alloc;
            "wanted {wanted}, given {given}"
        ),
        Err(
            RunRefusal::BadShape {
                matrix,
                axis,
                wanted,
                found,
            },
        ) => format!(in alloc; "matrix {matrix} axis {axis}: wanted {wanted}, found {found}"),
        Err(RunRefusal::SizeOutOfRange { size, value }) => format!(in alloc;
            "size {size}: {value}"
        ),
        Err(_) => Err(AllocError),
    }
}

#[test]
fn runs_are_entered_or_refused_for_the_first_reason(rt: HostRuntime) -> Result<(), Fail> {
    let alloc = rt.alloc();
    let Some(program) = accepted(alloc, PROGRAM)? else {
        assert!(rt; false, "the program is refused");
        return Ok(());
    };
    for (name, shapes, expected) in &ROWS {
        let found = said(alloc, &program, name, shapes)?;
        assert!(rt; found.as_str() == *expected, "{expected}: {found}");
    }
    Ok(())
}
