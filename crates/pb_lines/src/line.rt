ghost use Rattle.std.specs.Prelude.{◌≡◌, ◌++◌, IfOk, OnOk, map};
ghost use Rattle.pb_program.specs.Trees.{bare_transform};
ghost use Rattle.pb_lines.specs.Lines as lines;

use crate::names::{write_axis, write_matrix, write_named, write_sizes_of, write_transform};
use crate::segments::{write_crossing, write_crowded, write_uncovered, write_unordered};
use crate::text::{write_numbered, write_place};
use pb_graph::Node;
use pb_linear::Sizes;
use pb_program::Transform;
use pb_syntax::{Item, Refusal};
use std::alloc::{AllocError, Global};

/// The word for what is too many.
fn item_word(item: Item) -> &'static [u8]
    ensures { result.now ≡ lines.item_word item }
{
    match item {
        Item::Transforms => b"transforms",
        Item::Rules => b"rules",
        Item::Matrices => b"matrices",
        Item::Sizes => b"sizes",
        Item::Outputs => b"outputs",
        Item::Reads => b"reads",
        Item::Conditions => b"conditions",
        Item::Minimums => b"minimums",
        Item::Targets => b"targets",
        Item::Arguments => b"arguments",
        Item::Terms => b"terms",
        Item::Number => b"number",
        Item::Statements => b"statements",
        Item::Nesting => b"nesting",
    }
}

/// A dimension that is negative, and the sizes at which it is.
fn write_negative(
    text: &mut Vec<u8>,
    program: &[Transform],
    t: u32,
    matrix: u32,
    axis: u8,
    sizes: &Sizes,
) -> Result<(), AllocError>
    ensures { OnOk result (text.new.items ≡ text.old.items ++ lines.negative_text (map bare_transform program.now) t matrix axis sizes.now) }
{
    write_transform(text, program, t)?;
    write_matrix(text, program, t, matrix)?;
    text.extend_from_slice(b" ")?;
    write_axis(text, axis)?;
    text.extend_from_slice(b" at ")?;
    write_sizes_of(text, program, t, sizes)?;
    text.extend_from_slice(b"\n")
}

/// Adds a rule of a transform as refusals and traps name it: `T rule 0`.
pub fn write_rule(
    text: &mut Vec<u8>,
    program: &[Transform],
    t: u32,
    rule: u32,
) -> Result<(), AllocError>
    ensures { OnOk result (text.new.items ≡ text.old.items ++ lines.rule_text (map bare_transform program.now) t rule) }
{
    write_transform(text, program, t)?;
    write_numbered(text, b" rule ", rule)
}

/// Two outputs of a rule, and the line's end.
fn write_outputs(text: &mut Vec<u8>, first: u32, second: u32) -> Result<(), AllocError>
    ensures { OnOk result (text.new.items ≡ text.old.items ++ lines.outputs_text first second) }
{
    write_numbered(text, b" outputs ", first)?;
    write_numbered(text, b" and ", second)?;
    text.extend_from_slice(b"\n")
}

/// A condition of a rule, and the line's end.
fn write_condition(text: &mut Vec<u8>, condition: u32) -> Result<(), AllocError>
    ensures { OnOk result (text.new.items ≡ text.old.items ++ lines.condition_text condition) }
{
    write_numbered(text, b" condition ", condition)?;
    text.extend_from_slice(b"\n")
}

/// What is told of the segments of a transform.
fn write_segments_cause(
    alloc: Global,
    text: &mut Vec<u8>,
    program: &[Transform],
    nodes: &[Node],
    refusal: &Refusal,
) -> Result<(), AllocError>
    requires { lines.HaveFewSizes (map bare_transform program.now) }
    ensures { OnOk result (text.new.items ≡ text.old.items ++ lines.segments_cause (map bare_transform program.now) nodes.now refusal.now) }
{
    match refusal {
        Refusal::Crossing {
            transform,
            matrix,
            axis,
            first,
            second,
            over,
            under,
        } => write_crossing(
            alloc, text, program, *transform, *matrix, *axis, first, second, over, under,
        ),
        Refusal::Uncovered {
            transform,
            matrix,
            area,
        } => write_uncovered(alloc, text, program, *transform, *matrix, area),
        Refusal::TooManySegments { transform, matrix } => {
            write_crowded(text, program, *transform, *matrix)
        }
        Refusal::NoOrder {
            transform,
            segments,
        } => write_unordered(alloc, text, program, nodes, *transform, segments),
        _ => Ok(()),
    }
}

/// What is told of a transform: of its sides, its rules and its segments.
fn write_transform_cause(
    alloc: Global,
    text: &mut Vec<u8>,
    program: &[Transform],
    nodes: &[Node],
    refusal: &Refusal,
) -> Result<(), AllocError>
    requires { lines.HaveFewSizes (map bare_transform program.now) }
    ensures { OnOk result (text.new.items ≡ text.old.items ++ lines.transform_cause (map bare_transform program.now) nodes.now refusal.now) }
{
    match refusal {
        Refusal::NegativeDim {
            transform,
            matrix,
            axis,
            sizes,
        } => write_negative(text, program, *transform, *matrix, *axis, sizes),
        Refusal::OverlapOutputs {
            transform,
            rule,
            first,
            second,
        } => {
            write_rule(text, program, *transform, *rule)?;
            write_outputs(text, *first, *second)
        }
        Refusal::NotABox {
            transform,
            rule,
            condition,
        } => {
            write_rule(text, program, *transform, *rule)?;
            write_condition(text, *condition)
        }
        _ => write_segments_cause(alloc, text, program, nodes, refusal),
    }
}

/// What follows a refusal's code and name.
fn write_cause(
    alloc: Global,
    text: &mut Vec<u8>,
    program: &[Transform],
    nodes: &[Node],
    refusal: &Refusal,
) -> Result<(), AllocError>
    requires { lines.HaveFewSizes (map bare_transform program.now) }
    ensures { OnOk result (text.new.items ≡ text.old.items ++ lines.cause_text (map bare_transform program.now) nodes.now refusal.now) }
{
    match refusal {
        Refusal::TooLong => text.extend_from_slice(b"\n"),
        Refusal::BadToken { at } => write_place(text, *at),
        Refusal::BadSyntax { at } => write_place(text, *at),
        Refusal::OverLimit { what, at } => write_named(text, item_word(*what), *at),
        Refusal::DuplicateName { name, at } => write_named(text, name.bytes(), *at),
        Refusal::UnknownName { name, at } => write_named(text, name.bytes(), *at),
        Refusal::SizeNotBound { name, at } => write_named(text, name.bytes(), *at),
        Refusal::BadOutput { at } => write_place(text, *at),
        Refusal::BadType { at } => write_place(text, *at),
        _ => write_transform_cause(alloc, text, program, nodes, refusal),
    }
}

/// The code and the name of a refusal.
fn code(refusal: &Refusal) -> &'static [u8]
    requires { lines.HasLine refusal.now }
    ensures { result.now ≡ lines.code_text refusal.now }
{
    match refusal {
        Refusal::TooLong => b"P1 TooLong",
        Refusal::BadToken { .. } => b"P2 BadToken: ",
        Refusal::BadSyntax { .. } => b"P3 BadSyntax: ",
        Refusal::OverLimit { .. } => b"P4 OverLimit: ",
        Refusal::DuplicateName { .. } => b"P5 DuplicateName: ",
        Refusal::UnknownName { .. } => b"P6 UnknownName: ",
        Refusal::SizeNotBound { .. } => b"P7 SizeNotBound: ",
        Refusal::NegativeDim { .. } => b"P8 NegativeDim: ",
        Refusal::BadOutput { .. } => b"P9 BadOutput: ",
        Refusal::OverlapOutputs { .. } => b"P10 OverlapOutputs: ",
        Refusal::BadType { .. } => b"P11 BadType: ",
        Refusal::NotABox { .. } => b"P12 NotABox: ",
        Refusal::Crossing { .. } => b"P13 Crossing: ",
        Refusal::Uncovered { .. } => b"P14 Uncovered: ",
        Refusal::TooManySegments { .. } => b"P15 TooManySegments: ",
        Refusal::NoOrder { .. } => b"P16 NoOrder: ",
        Refusal::Memory => unreachable!(),
    }
}

/// The line for `err` of a refusal of a program with these transforms, none where the refusal comes before their names are
/// resolved. `nodes` are the segments of the transform that has no order, none for other refusals. No transform has more than 8
/// size variables. Not for memory that ran out.
pub fn refusal_line(
    alloc: Global,
    program: &[Transform],
    nodes: &[Node],
    refusal: &Refusal,
) -> Result<Vec<u8>, AllocError>
    requires line { lines.HasLine refusal.now }
    requires few { lines.HaveFewSizes (map bare_transform program.now) }
    ensures { IfOk result (λ line. line.items ≡ lines.refusal_line (map bare_transform program.now) nodes.now refusal.now) }
{
    let mut text = code(refusal).to_vec(alloc)?;
    write_cause(alloc, &mut text, program, nodes, refusal)?;
    Ok(text)
}
