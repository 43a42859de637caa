ghost use Rattle.std.specs.Prelude.{◌≡◌, ◌++◌, IfOk, OnOk, map, slice_get};
ghost use Rattle.pb_program.specs.Trees.{bare_transform};
ghost use Rattle.pb_run_lines.specs.RunLines as lines;

use crate::names::{write_matrix_name, write_size_name};
use crate::text::{write_numbered, write_pair};
use pb_entry::{Count, RunRefusal};
use pb_program::Transform;
use pb_taskgraph::{MOST_CELLS, MOST_LINKS, MOST_TASKS};
use pb_values::MOST_SIDE;
use std::alloc::{AllocError, Global};

/// The most calls of a run.
const MOST_CALLS: u64 = 16_384;

/// The word for what is wrong with a shape.
fn axis_word(axis: u8) -> &'static [u8]
    ensures { result.now ≡ lines.axis_word axis }
{
    match axis {
        0 => b"width",
        1 => b"height",
        _ => b"dimensions",
    }
}

/// The word for what is counted of a run.
fn count_word(what: Count) -> &'static [u8]
    ensures { result.now ≡ lines.count_word what }
{
    match what {
        Count::Calls => b"calls",
        Count::Side => b"side",
        Count::Cells => b"cells",
        Count::Tasks => b"tasks",
        Count::Links => b"links",
    }
}

/// The most that a run may have of it.
fn limit_of(what: Count) -> u64
    ensures { result ≡ lines.limit_of what }
{
    match what {
        Count::Calls => MOST_CALLS,
        Count::Side => MOST_SIDE,
        Count::Cells => MOST_CELLS,
        Count::Tasks => MOST_TASKS as u64,
        Count::Links => MOST_LINKS,
    }
}

/// A matrix of another shape, and the line's end.
fn write_shape(
    text: &mut Vec<u8>,
    program: &[Transform],
    t: u32,
    matrix: u32,
    axis: u8,
    wanted: u64,
    found: u64,
) -> Result<(), AllocError>
    ensures { OnOk result (text.new.items ≡ text.old.items ++ lines.shape_text (slice_get (map bare_transform program.now) t) matrix axis wanted found) }
{
    write_matrix_name(text, program, t, matrix)?;
    text.extend_from_slice(b" ")?;
    text.extend_from_slice(axis_word(axis))?;
    write_pair(text, b" wanted ", wanted, b" found ", found)
}

/// A size out of range, and the line's end.
fn write_size(
    text: &mut Vec<u8>,
    program: &[Transform],
    t: u32,
    size: u32,
    value: u64,
) -> Result<(), AllocError>
    ensures { OnOk result (text.new.items ≡ text.old.items ++ lines.size_text (slice_get (map bare_transform program.now) t) size value) }
{
    write_size_name(text, program, t, size)?;
    write_numbered(text, b" is ", value)?;
    text.extend_from_slice(b"\n")
}

/// A count that passes its limit, and the line's end.
fn write_count(text: &mut Vec<u8>, what: Count) -> Result<(), AllocError>
    ensures { OnOk result (text.new.items ≡ text.old.items ++ lines.count_text what) }
{
    text.extend_from_slice(count_word(what))?;
    write_numbered(text, b" over ", limit_of(what))?;
    text.extend_from_slice(b"\n")
}

/// What is wrong, and the line's end.
fn write_cause(
    text: &mut Vec<u8>,
    program: &[Transform],
    t: u32,
    name: &[u8],
    refusal: &RunRefusal,
) -> Result<(), AllocError>
    ensures { OnOk result (text.new.items ≡ text.old.items ++ lines.cause_text (map bare_transform program.now) t name.now refusal.now) }
{
    match refusal {
        RunRefusal::UnknownTransform => {
            text.extend_from_slice(name)?;
            text.extend_from_slice(b"\n")
        }
        RunRefusal::WrongCount { wanted, given } => {
            let (wanted, given) = (u64::from(*wanted), u64::from(*given));
            write_pair(text, b"wanted ", wanted, b" given ", given)
        }
        RunRefusal::BadShape {
            matrix,
            axis,
            wanted,
            found,
        } => write_shape(text, program, t, *matrix, *axis, *wanted, *found),
        RunRefusal::SizeOutOfRange { size, value } => write_size(text, program, t, *size, *value),
        RunRefusal::TooLarge { what } => write_count(text, *what),
        RunRefusal::Memory => Ok(()),
    }
}

/// The code and the name of a refusal.
fn code(refusal: &RunRefusal) -> &'static [u8]
    ensures { result.now ≡ lines.code_text refusal.now }
{
    match refusal {
        RunRefusal::UnknownTransform => b"B1 UnknownTransform: ",
        RunRefusal::WrongCount { .. } => b"B2 WrongCount: ",
        RunRefusal::BadShape { .. } => b"B3 BadShape: ",
        RunRefusal::SizeOutOfRange { .. } => b"B4 SizeOutOfRange: ",
        RunRefusal::TooLarge { .. } => b"X1 TooLarge: ",
        RunRefusal::Memory => b"",
    }
}

/// The line for `err` of a refused run of transform `t` of the program, for which `name` was asked, with the line's end. A matrix
/// or a size that the program lacks is told without its name. Nothing for memory that ran out.
pub fn run_line(
    alloc: Global,
    program: &[Transform],
    t: u32,
    name: &[u8],
    refusal: &RunRefusal,
) -> Result<Vec<u8>, AllocError>
    ensures { IfOk result (λ text. text.items ≡ lines.run_line (map bare_transform program.now) t name.now refusal.now) }
{
    let mut text = code(refusal).to_vec(alloc)?;
    write_cause(&mut text, program, t, name, refusal)?;
    Ok(text)
}
