ghost use Rattle.std.specs.Prelude.{◌≡◌, ◌++◌, IfNone, IfSome, None, OnOk, Some, map, slice_get};
ghost use Rattle.pb_program.specs.Trees.{bare_transform};
ghost use Rattle.pb_lines.specs.Lines.{area_in, both_text, crossing_text, crowded_text, form_in, HaveFewSizes, over_text, segment_in, segments_text, uncovered_text, unordered_text};

use crate::area::{matrix_at, names_of, write_area_on, write_form, write_segment};
use crate::names::{write_axis, write_matrix, write_sizes_of, write_transform};
use pb_graph::Node;
use pb_linear::{Form, Sizes, SymBox};
use pb_program::Transform;
use pb_syntax::Segments;
use std::alloc::{AllocError, Global};

/// The transform with this number.
#[tactic(auto, using(crate::proofs::PlaceLemmas::held_at, crate::proofs::PlaceLemmas::held_past))]
fn transform_at(program: &[Transform], t: u32) -> Option<&Transform>
    ensures found { IfSome result (λ x. slice_get (map bare_transform program.now) t ≡ Some (bare_transform x.now)) }
    ensures none { IfNone result (slice_get (map bare_transform program.now) t ≡ None) }
{
    program.get(t as usize)
}

/// A form over the sizes of a transform, if there is one with this number.
#[tactic(auto, using(crate::proofs::PlaceLemmas::few_at))]
fn write_form_of(
    alloc: Global,
    text: &mut Vec<u8>,
    program: &[Transform],
    t: u32,
    form: &Form,
) -> Result<(), AllocError>
    requires { HaveFewSizes (map bare_transform program.now) }
    ensures { OnOk result (text.new.items ≡ text.old.items ++ form_in (slice_get (map bare_transform program.now) t) form.now) }
{
    match transform_at(program, t) {
        Some(t) => write_form(alloc, text, form, names_of(t)),
        None => Ok(()),
    }
}

/// Two forms, and sizes at which the first is above the second.
fn write_over(
    alloc: Global,
    text: &mut Vec<u8>,
    program: &[Transform],
    t: u32,
    first: &Form,
    second: &Form,
    sizes: &Sizes,
) -> Result<(), AllocError>
    requires { HaveFewSizes (map bare_transform program.now) }
    ensures { OnOk result (text.new.items ≡ text.old.items ++ over_text (slice_get (map bare_transform program.now) t) first.now second.now sizes.now) }
{
    write_form_of(alloc, text, program, t, first)?;
    text.extend_from_slice(b" over ")?;
    write_form_of(alloc, text, program, t, second)?;
    text.extend_from_slice(b" at ")?;
    write_sizes_of(text, program, t, sizes)
}

/// Two forms that cross, and the sizes that show it.
fn write_both(
    alloc: Global,
    text: &mut Vec<u8>,
    program: &[Transform],
    t: u32,
    first: &Form,
    second: &Form,
    over: &Sizes,
    under: &Sizes,
) -> Result<(), AllocError>
    requires { HaveFewSizes (map bare_transform program.now) }
    ensures { OnOk result (text.new.items ≡ text.old.items ++ both_text (slice_get (map bare_transform program.now) t) first.now second.now over.now under.now) }
{
    write_over(alloc, text, program, t, first, second, over)?;
    text.extend_from_slice(b"; ")?;
    write_over(alloc, text, program, t, second, first, under)?;
    text.extend_from_slice(b"\n")
}

/// Two cuts of a matrix that cross, and the sizes that show it.
pub(crate) fn write_crossing(
    alloc: Global,
    text: &mut Vec<u8>,
    program: &[Transform],
    t: u32,
    matrix: u32,
    axis: u8,
    first: &Form,
    second: &Form,
    over: &Sizes,
    under: &Sizes,
) -> Result<(), AllocError>
    requires { HaveFewSizes (map bare_transform program.now) }
    ensures { OnOk result (text.new.items ≡ text.old.items ++ crossing_text (map bare_transform program.now) t matrix axis first.now second.now over.now under.now) }
{
    write_transform(text, program, t)?;
    write_matrix(text, program, t, matrix)?;
    text.extend_from_slice(b" ")?;
    write_axis(text, axis)?;
    text.extend_from_slice(b": ")?;
    write_both(alloc, text, program, t, first, second, over, under)
}

/// An area of a matrix, if there is one with this number.
#[tactic(auto, using(crate::proofs::PlaceLemmas::few_at))]
fn write_area_of(
    alloc: Global,
    text: &mut Vec<u8>,
    program: &[Transform],
    t: u32,
    matrix: u32,
    area: &SymBox,
) -> Result<(), AllocError>
    requires { HaveFewSizes (map bare_transform program.now) }
    ensures { OnOk result (text.new.items ≡ text.old.items ++ area_in (slice_get (map bare_transform program.now) t) matrix area.now) }
{
    let Some(t) = transform_at(program, t) else {
        return Ok(());
    };
    match matrix_at(t, matrix) {
        Some(matrix) => write_area_on(alloc, text, names_of(t), matrix, area),
        None => Ok(()),
    }
}

/// A segment of a matrix that no rule makes everywhere.
pub(crate) fn write_uncovered(
    alloc: Global,
    text: &mut Vec<u8>,
    program: &[Transform],
    t: u32,
    matrix: u32,
    area: &SymBox,
) -> Result<(), AllocError>
    requires { HaveFewSizes (map bare_transform program.now) }
    ensures { OnOk result (text.new.items ≡ text.old.items ++ uncovered_text (map bare_transform program.now) t matrix area.now) }
{
    write_transform(text, program, t)?;
    write_matrix(text, program, t, matrix)?;
    text.extend_from_slice(b" ")?;
    write_area_of(alloc, text, program, t, matrix, area)?;
    text.extend_from_slice(b"\n")
}

/// A matrix that would have too many segments.
pub(crate) fn write_crowded(
    text: &mut Vec<u8>,
    program: &[Transform],
    t: u32,
    matrix: u32,
) -> Result<(), AllocError>
    ensures { OnOk result (text.new.items ≡ text.old.items ++ crowded_text (map bare_transform program.now) t matrix) }
{
    write_transform(text, program, t)?;
    write_matrix(text, program, t, matrix)?;
    text.extend_from_slice(b"\n")
}

/// The segment of this number, if there is one, of a transform, if there is one with its number.
#[tactic(auto, using(crate::proofs::PlaceLemmas::few_at))]
fn write_segment_of(
    alloc: Global,
    text: &mut Vec<u8>,
    program: &[Transform],
    nodes: &[Node],
    t: u32,
    segment: u32,
) -> Result<(), AllocError>
    requires { HaveFewSizes (map bare_transform program.now) }
    ensures { OnOk result (text.new.items ≡ text.old.items ++ segment_in (slice_get (map bare_transform program.now) t) (slice_get nodes.now segment)) }
{
    let Some(t) = transform_at(program, t) else {
        return Ok(());
    };
    match nodes.get(segment as usize) {
        Some(node) => write_segment(alloc, text, t, node),
        None => Ok(()),
    }
}

/// Segments of a transform, each after a blank.
fn write_segments(
    alloc: Global,
    text: &mut Vec<u8>,
    program: &[Transform],
    nodes: &[Node],
    t: u32,
    segments: &Segments,
) -> Result<(), AllocError>
    requires { HaveFewSizes (map bare_transform program.now) }
    ensures { OnOk result (text.new.items ≡ text.old.items ++ segments_text (slice_get (map bare_transform program.now) t) nodes.now segments.now) }
{
    for segment in &segments.numbers {
        text.extend_from_slice(b" ")?;
        write_segment_of(alloc, text, program, nodes, t, *segment)?;
    }
    Ok(())
}

/// Segments of a transform that have no order.
pub(crate) fn write_unordered(
    alloc: Global,
    text: &mut Vec<u8>,
    program: &[Transform],
    nodes: &[Node],
    t: u32,
    segments: &Segments,
) -> Result<(), AllocError>
    requires { HaveFewSizes (map bare_transform program.now) }
    ensures { OnOk result (text.new.items ≡ text.old.items ++ unordered_text (map bare_transform program.now) nodes.now t segments.now) }
{
    write_transform(text, program, t)?;
    write_segments(alloc, text, program, nodes, t, segments)?;
    text.extend_from_slice(b"\n")
}
