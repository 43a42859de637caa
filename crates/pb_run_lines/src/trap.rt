ghost use Rattle.std.specs.Prelude.{◌≡◌, ◌++◌, IfOk, OnOk, map};
ghost use Rattle.pb_program.specs.Trees.{bare_transform};
ghost use Rattle.pb_run_lines.specs.RunLines as lines;

use crate::text::write_numbered;
use pb_lines::{write_matrix, write_rule, write_transform};
use pb_program::Transform;
use pb_values::{Kind, Trap};
use std::alloc::{AllocError, Global};

/// The word for what went wrong in a cell.
fn kind_word(kind: Kind) -> &'static [u8]
    ensures { result.now ≡ lines.kind_word kind }
{
    match kind {
        Kind::Overflow => b"Overflow",
        Kind::DivideByZero => b"DivideByZero",
        Kind::OutOfView => b"OutOfView",
        Kind::LoopLimit => b"LoopLimit",
        Kind::BadShape => b"BadShape",
        Kind::DepthEnded => b"DepthEnded",
    }
}

/// A place, after a blank.
fn write_place(text: &mut Vec<u8>, x: u64, y: u64) -> Result<(), AllocError>
    ensures { OnOk result (text.new.items ≡ text.old.items ++ lines.place_text x y) }
{
    write_numbered(text, b" (", x)?;
    write_numbered(text, b",", y)?;
    text.extend_from_slice(b")")
}

/// The line for `err` of a trapped run of transform `t` of the program, with the line's end: the trapped cell, by its matrix and
/// its place, and the rule that made its trap, with the trap's place. What the program lacks is told without its name.
pub fn trap_line(
    alloc: Global,
    program: &[Transform],
    t: u32,
    matrix: u32,
    x: u64,
    y: u64,
    trap: &Trap,
) -> Result<Vec<u8>, AllocError>
    ensures { IfOk result (λ text. text.items ≡ lines.trap_line (map bare_transform program.now) t (record { cell = record { matrix = matrix; x = x; y = y }; trap = trap.now })) }
{
    let mut text = b"T ".to_vec(alloc)?;
    text.extend_from_slice(kind_word(trap.kind))?;
    text.extend_from_slice(b": ")?;
    write_transform(&mut text, program, t)?;
    write_matrix(&mut text, program, t, matrix)?;
    write_place(&mut text, x, y)?;
    text.extend_from_slice(b", by ")?;
    write_rule(&mut text, program, trap.transform, trap.rule)?;
    write_place(&mut text, trap.x, trap.y)?;
    text.extend_from_slice(b"\n")?;
    Ok(text)
}
