//! Matrix texts: what they read as, and what is written.
use pb_matrix::{read_matrix, write_matrix};
use pb_values::Shape;
use std::alloc::{AllocError, Global};
use std::test::Fail;

// What a text reads as: dimensions, sides and cells, or the refusal.
fn said(alloc: Global, text: &[u8]) -> Result<String, AllocError> {
    match read_matrix(alloc, text) {
        Ok(matrix) => {
            let shape = matrix.shape;
            let cells = matrix.cells.as_slice();
            format!(in alloc; "{} {} {} {cells:?}", shape.dims, shape.w, shape.h)
        }
        Err(refusal) => format!(in alloc; "{refusal}"),
    }
}

const NO_HEADER: &str = "no header, or a faulty one";

const READ: [(&[u8], &str); 34] = [
    (b"matrix 3\n1 2 3\n", "1 3 1 [1, 2, 3]"),
    (b"matrix 2 2\n1 2\n3 4\n", "2 2 2 [1, 2, 3, 4]"),
    (b"matrix 2 2\n1\n2 3 4", "2 2 2 [1, 2, 3, 4]"),
    (
        b"matrix 1\n9223372036854775807",
        "1 1 1 [9223372036854775807]",
    ),
    (
        b"matrix 1\n-9223372036854775808",
        "1 1 1 [-9223372036854775808]",
    ),
    (b"matrix 2\n-0 0007", "1 2 1 [0, 7]"),
    (
        b"matrix 1\n000000000000000000000000000000000000000005",
        "1 1 1 [5]",
    ),
    (b"\tmatrix \t2\t1 \r\n\t1\r\n\r2 ", "2 2 1 [1, 2]"),
    (b"\n \t\r\n\nmatrix 1\n4", "1 1 1 [4]"),
    (b"matrix 0", "1 0 1 []"),
    (b"matrix 0\r\n\r\n", "1 0 1 []"),
    (b"matrix 0 5", "2 0 5 []"),
    (b"matrix 4194304 0", "2 4194304 0 []"),
    (b"", NO_HEADER),
    (b" \n\t\n", NO_HEADER),
    (b"\r", NO_HEADER),
    (b"\rmatrix 1\n4", NO_HEADER),
    (b"matrix 0\r", NO_HEADER),
    (b"matrix", NO_HEADER),
    (b"matrix 1 1 1\n4", NO_HEADER),
    (b"matrices 1\n4", NO_HEADER),
    (b"matrix 01\n4", NO_HEADER),
    (b"matrix -1\n4", NO_HEADER),
    (b"matrix\n1\n4", NO_HEADER),
    (b"matrix 4194305", NO_HEADER),
    (b"matrix 2097153 2", NO_HEADER),
    (b"matrix 4194304", "4194304 numbers wanted, 0 found"),
    (b"matrix 3\n1 2", "3 numbers wanted, 2 found"),
    (b"matrix 3\n1 2 3 4", "more than the 3 numbers wanted"),
    (b"matrix 0 5\nx", "more than the 0 numbers wanted"),
    (
        b"matrix 1\n9223372036854775808",
        "word 0 is no number of 64 bits",
    ),
    (
        b"matrix 2\n1 -9223372036854775809 3",
        "word 1 is no number of 64 bits",
    ),
    (b"matrix 3\n1 2: +3", "word 1 is no number of 64 bits"),
    (b"matrix 2\n1 -", "word 1 is no number of 64 bits"),
];

#[test]
fn texts_read_as_their_matrices(rt: HostRuntime) -> Result<(), Fail> {
    for (text, expected) in &READ {
        let found = said(rt.alloc(), text)?;
        assert_eq!(rt; found.as_str(), *expected);
    }
    Ok(())
}

#[test]
fn a_matrix_is_written_row_by_row(rt: HostRuntime) -> Result<(), Fail> {
    let shape = Shape {
        dims: 2,
        w: 2,
        h: 2,
    };
    let text = write_matrix(rt.alloc(), &shape, &[1, -20, 0, i64::MIN])?;
    assert_eq!(rt;
        text.as_slice(),
        b"matrix 2 2\n1 -20\n0 -9223372036854775808\n".as_slice()
    );
    let line = Shape {
        dims: 1,
        w: 0,
        h: 1,
    };
    let empty = write_matrix(rt.alloc(), &line, &[])?;
    assert_eq!(rt; empty.as_slice(), b"matrix 0\n".as_slice());
    Ok(())
}
