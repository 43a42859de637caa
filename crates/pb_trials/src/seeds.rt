//! The matrices of the demonstration, compared with those of a program in Python for PCG XSH RR 64/32.
use pb_gen::{example, text};
use pb_matrix::Matrix;
use std::alloc::{AllocError, Global};
use std::test::Fail;

fn said(alloc: Global, matrices: &[Matrix]) -> Result<String, AllocError> {
    let mut text = String::new(alloc);
    for matrix in matrices {
        let shape = matrix.shape;
        let cells = matrix.cells.as_slice();
        let line = format!(in alloc; "{} {} {} {cells:?};", shape.dims, shape.w, shape.h)?;
        text.push_str(line.as_str())?;
    }
    Ok(text)
}

const SEEDS: [u64; 4] = [0, 1, 4_294_967_295, u64::MAX];

// For each seed the factors of size 1, of size 2, and the lines of these sizes.
const DRAWN: [[&str; 4]; 4] = [
    [
        "2 1 1 [-5];2 1 1 [8];",
        "2 2 2 [-5, 8, -6, -9];2 2 2 [-3, 3, -6, 1];",
        "1 1 1 [-6];",
        "1 2 1 [-2, -9];",
    ],
    [
        "2 1 1 [3];2 1 1 [-3];",
        "2 2 2 [3, -3, -3, -6];2 2 2 [0, 0, 8, 0];",
        "1 1 1 [-3];",
        "1 2 1 [-6, 4];",
    ],
    [
        "2 1 1 [-9];2 1 1 [6];",
        "2 2 2 [-9, 6, 4, -3];2 2 2 [1, -2, 1, 9];",
        "1 1 1 [4];",
        "1 2 1 [-3, -7];",
    ],
    [
        "2 1 1 [-4];2 1 1 [-1];",
        "2 2 2 [-4, -1, -5, -8];2 2 2 [-4, -4, -3, -2];",
        "1 1 1 [-5];",
        "1 2 1 [5, -3];",
    ],
];

#[test]
fn small_examples_are_drawn_from_their_seed(rt: HostRuntime) -> Result<(), Fail> {
    for (seed, expected) in SEEDS.iter().zip(&DRAWN) {
        let [ones, twos, one, two] = expected;
        assert_eq!(rt;
            said(rt.alloc(), &example(rt.alloc(), 0, *seed, 1)?)?.as_str(),
            *ones
        );
        assert_eq!(rt;
            said(rt.alloc(), &example(rt.alloc(), 0, *seed, 2)?)?.as_str(),
            *twos
        );
        assert_eq!(rt;
            said(rt.alloc(), &example(rt.alloc(), 1, *seed, 1)?)?.as_str(),
            *one
        );
        assert_eq!(rt;
            said(rt.alloc(), &example(rt.alloc(), 1, *seed, 2)?)?.as_str(),
            *two
        );
    }
    Ok(())
}

// The sum of the cells of each matrix, and its last cell.
fn summary(alloc: Global, matrices: &[Matrix]) -> Result<String, AllocError> {
    let mut text = String::new(alloc);
    for matrix in matrices {
        let mut sum: i64 = 0;
        let mut last: i64 = 0;
        for cell in &matrix.cells {
            sum = sum.wrapping_add(*cell);
            last = *cell;
        }
        text.push_str(format!(in alloc; "{sum} {last};")?.as_str())?;
    }
    Ok(text)
}

#[test]
fn the_greatest_examples_are_drawn_to_their_last_cell(rt: HostRuntime) -> Result<(), Fail> {
    let factors = example(rt.alloc(), 0, 7, 256)?;
    assert_eq!(rt; summary(rt.alloc(), &factors)?.as_str(), "-2939 5;-606 8;");
    let lines = example(rt.alloc(), 1, 7, 256)?;
    assert_eq!(rt; summary(rt.alloc(), &lines)?.as_str(), "-20 -9;");
    Ok(())
}

#[test]
fn the_texts_are_as_long_as_their_files(rt: HostRuntime) {
    assert_eq!(rt; text(0).len(), 929);
    assert_eq!(rt; text(1).len(), 188);
}
