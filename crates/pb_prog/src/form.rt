ghost use Rattle.std.specs.Prelude.{◌≡◌, ◌++◌, ◌≤◌, ◌<◌, length, codes, decimal, IfOk, OnOk};
ghost use Rattle.pb_prog.specs.FormText.{sign_text, multiple_text, part_text, share_text, parts_text, coefficient_at, variable_text, variables_text, constant_text, tidied, form_text};

use itoa::Buffer;
use pb_linear::Form;
use pb_values::Name;
use std::alloc::{AllocError, Global};

fn write_number(text: &mut Vec<u8>, value: u64) -> Result<(), AllocError>
    ensures { OnOk result (text.new.items ≡ text.old.items ++ decimal value) }
{
    let mut buffer = Buffer::new();
    text.extend_from_slice(buffer.format(value).as_bytes())
}

fn write_sign(text: &mut Vec<u8>, factor: &i64) -> Result<(), AllocError>
    ensures { OnOk result (text.new.items ≡ text.old.items ++ sign_text factor.now) }
{
    if *factor < 0 {
        text.extend_from_slice(b"-")
    } else {
        text.extend_from_slice(b"+")
    }
}

fn write_multiple(
    text: &mut Vec<u8>,
    factor: u64,
    alone: &[u8],
    grouped: &[u8],
) -> Result<(), AllocError>
    ensures { OnOk result (text.new.items ≡ text.old.items ++ multiple_text factor alone.now grouped.now) }
{
    if factor == 1 {
        return text.extend_from_slice(alone);
    }
    write_number(text, factor)?;
    text.extend_from_slice(b"*")?;
    text.extend_from_slice(grouped)
}

// A part with its sign, unless it is 0.
#[tactic(auto, unfolding(crate::specs::FormText::part_text))]
fn write_part(
    text: &mut Vec<u8>,
    factor: &i64,
    alone: &[u8],
    grouped: &[u8],
) -> Result<(), AllocError>
    ensures { OnOk result (text.new.items ≡ text.old.items ++ part_text factor.now alone.now grouped.now) }
{
    if *factor == 0 {
        return Ok(());
    }
    write_sign(text, factor)?;
    write_multiple(text, factor.unsigned_abs(), alone, grouped)
}

// A part of a variable's half, third or quarter.
#[tactic(auto, unfolding(crate::specs::FormText::share_text))]
fn write_share(
    alloc: Global,
    text: &mut Vec<u8>,
    factor: &i64,
    name: &[u8],
    share: &[u8],
) -> Result<(), AllocError>
    ensures { OnOk result (text.new.items ≡ text.old.items ++ share_text factor.now name.now share.now) }
{
    let mut alone = Vec::new(alloc);
    alone.extend_from_slice(name)?;
    alone.extend_from_slice(share)?;
    let mut grouped = Vec::new(alloc);
    grouped.extend_from_slice(b"(")?;
    grouped.extend_from_slice(&alone)?;
    grouped.extend_from_slice(b")")?;
    write_part(text, factor, &alone, &grouped)
}

// The parts of a variable.
fn write_parts(
    alloc: Global,
    text: &mut Vec<u8>,
    whole: &i64,
    half: &i64,
    third: &i64,
    quarter: &i64,
    name: &[u8],
) -> Result<(), AllocError>
    ensures { OnOk result (text.new.items ≡ text.old.items ++ parts_text whole.now half.now third.now quarter.now name.now) }
{
    write_part(text, whole, name, name)?;
    write_share(alloc, text, half, name, b"/2")?;
    write_share(alloc, text, third, name, b"/3")?;
    write_share(alloc, text, quarter, name, b"/4")
}

fn coefficient(row: &[i64; 8], i: usize) -> &i64
    requires { i < 8 }
    ensures { result.now ≡ coefficient_at row.now i }
{
    &row[i]
}

// The parts of the variable `i`.
#[tactic(auto, unfolding(crate::specs::FormText::variable_text))]
fn write_variable(
    alloc: Global,
    text: &mut Vec<u8>,
    form: &Form,
    i: usize,
    name: &[u8],
) -> Result<(), AllocError>
    requires { i < 8 }
    ensures { OnOk result (text.new.items ≡ text.old.items ++ variable_text form.now i name.now) }
{
    let whole = coefficient(&form.whole, i);
    let half = coefficient(&form.half, i);
    let third = coefficient(&form.third, i);
    let quarter = coefficient(&form.quarter, i);
    write_parts(alloc, text, whole, half, third, quarter, name)
}

#[tactic(auto, using(crate::proofs::FormLemmas::variable_more))]
fn write_variables(
    alloc: Global,
    text: &mut Vec<u8>,
    form: &Form,
    names: &[Name],
) -> Result<(), AllocError>
    requires { length names.now ≤ 8 }
    ensures { OnOk result (text.new.items ≡ text.old.items ++ variables_text form.now 0 names.now) }
{
    for (i, name) in names.iter().enumerate() {
        write_variable(alloc, text, form, i, name.bytes())?;
    }
    Ok(())
}

fn write_constant(text: &mut Vec<u8>, constant: &i64) -> Result<(), AllocError>
    ensures { OnOk result (text.new.items ≡ text.old.items ++ constant_text constant.now) }
{
    if *constant == 0 {
        return Ok(());
    }
    write_sign(text, constant)?;
    write_number(text, constant.unsigned_abs())
}

// The text without a `+` at its front; `0` where nothing was written.
fn tidy(alloc: Global, text: &[u8]) -> Result<Vec<u8>, AllocError>
    ensures { IfOk result (λ tidy. tidy.items ≡ tidied text.now) }
{
    match text {
        [] => b"0".as_slice().to_vec(alloc),
        [b'+', rest @ ..] => rest.to_vec(alloc),
        _ => text.to_vec(alloc),
    }
}

/// The text of a form over size variables of these names, at most 8, without blanks: `n-1`, `2*(n/2)+m`, `0`.
pub fn print_form(alloc: Global, form: &Form, names: &[Name]) -> Result<Vec<u8>, AllocError>
    requires { length names.now ≤ 8 }
    ensures { IfOk result (λ text. text.items ≡ form_text form.now names.now) }
{
    let mut text = Vec::new(alloc);
    write_variables(alloc, &mut text, form, names)?;
    write_constant(&mut text, &form.constant)?;
    tidy(alloc, &text)
}
