ghost use Rattle.std.specs.Prelude.{◌≡◌, IfOk, IfSome, flat_map, map};
ghost use Rattle.std.specs.List.{All};
ghost use Rattle.pb_unroll.specs.ShownCells.{IsWritable, cells_in, matrix_in, text_in};
ghost use Rattle.pb_model.specs.Equations.{number_in};

use pb_matrix::{Matrix, write_matrix};
use pb_taskgraph::Outcomes;
use pb_values::{Outcome, View};
use std::alloc::{AllocError, Global};

/// The number of an outcome; 0 for a trap.
fn number_in(outcome: &Outcome) -> i64
    ensures { result ≡ number_in outcome.now }
{
    match outcome {
        Outcome::Value(value) => *value,
        Outcome::Trapped(_) => 0,
    }
}

/// The numbers of the cells of a matrix, row by row; 0 for a trap.
fn numbers_in(alloc: Global, view: &View, outcomes: &Outcomes) -> Result<Vec<i64>, AllocError>
    requires { IsWritable outcomes.now view.now }
    ensures { IfOk result (λ numbers. numbers.items ≡ map number_in (cells_in outcomes.now view.now)) }
{
    let cells = view.shape.w * view.shape.h;
    let mut numbers = Vec::with_capacity(alloc, cells as usize)?;
    for k in 0..cells {
        numbers.push(number_in(&outcomes.get(view.first + k)))?;
    }
    Ok(numbers)
}

/// The numbers of the cells of a matrix as they are held, unless it has no cell or a trapped one.
fn numbers_there<'a>(view: &View, outcomes: &'a Outcomes) -> Option<&'a [i64]>
    requires { IsWritable outcomes.now view.now }
    ensures { IfSome result (λ numbers. numbers.now ≡ map number_in (cells_in outcomes.now view.now)) }
{
    let cells = view.shape.w * view.shape.h;
    if cells == 0 {
        return None;
    }
    match outcomes.numbers(view.first as usize, (view.first + cells) as usize) {
        Some(numbers) => Some(numbers),
        None => None,
    }
}

/// The text of a matrix.
fn text_in(alloc: Global, view: &View, outcomes: &Outcomes) -> Result<Vec<u8>, AllocError>
    requires { IsWritable outcomes.now view.now }
    ensures { IfOk result (λ text. text.items ≡ text_in outcomes.now view.now) }
{
    if let Some(numbers) = numbers_there(view, outcomes) {
        return write_matrix(alloc, &view.shape, numbers);
    }
    let numbers = numbers_in(alloc, view, outcomes)?;
    write_matrix(alloc, &view.shape, &numbers)
}

/// The texts of matrices, one after the other.
pub(crate) fn texts_in(
    alloc: Global,
    views: &[View],
    outcomes: &Outcomes,
) -> Result<Vec<u8>, AllocError>
    requires { All (IsWritable outcomes.now) views.now }
    ensures { IfOk result (λ text. text.items ≡ flat_map (text_in outcomes.now) views.now) }
{
    let mut text = Vec::new(alloc);
    for view in views {
        let next = text_in(alloc, view, outcomes)?;
        if text.is_empty() {
            text = next;
        } else {
            text.extend_from_slice(&next)?;
        }
    }
    Ok(text)
}

/// A matrix with its numbers.
fn matrix_in(alloc: Global, view: &View, outcomes: &Outcomes) -> Result<Matrix, AllocError>
    requires { IsWritable outcomes.now view.now }
    ensures { IfOk result (λ matrix. matrix ≡ matrix_in outcomes.now view.now) }
{
    let cells = numbers_in(alloc, view, outcomes)?;
    Ok(Matrix {
        shape: view.shape,
        cells,
    })
}

/// Matrices with their numbers, in order.
pub(crate) fn matrices_in(
    alloc: Global,
    views: &[View],
    outcomes: &Outcomes,
) -> Result<Vec<Matrix>, AllocError>
    requires { All (IsWritable outcomes.now) views.now }
    ensures { IfOk result (λ matrices. matrices.items ≡ map (matrix_in outcomes.now) views.now) }
{
    let mut matrices = Vec::with_capacity(alloc, views.len())?;
    for view in views {
        matrices.push(matrix_in(alloc, view, outcomes)?)?;
    }
    Ok(matrices)
}
