ghost use Rattle.std.specs.Prelude.{◌≡◌, ◌<◌, ◌++◌, IfOk, OnOk, length, map};
ghost use Rattle.std.specs.Int.{div_ceil};
ghost use Rattle.std.specs.List.{list_any};
ghost use Rattle.pb_program.specs.Trees.{bare_transform};
ghost use Rattle.pb_frame.specs.Frames.{block_at, block_job, block_parts, block_side, blocks, cut_by, cut_spans, greatest, has_block, is_block_part, is_cell_rule, number_by, spans, square, squares};
ghost use Rattle.pb_frame.specs.declared.part.FramePart.{FramePart};

use crate::job::Job;
use crate::lists::greater;
use crate::part::FramePart;
use crate::parts::has_place;
use crate::wides::is_wide;
use pb_graph::Layer;
use pb_linear::Sign;
use pb_program::Transform;
use pb_values::Rect;
use std::alloc::{AllocError, Global};

/// Whether the rule with this number is one for single cells.
fn is_cell_rule(transform: &Transform, k: u32) -> bool
    ensures { result ≡ is_cell_rule (bare_transform transform.now) k }
{
    match transform.rules.get(k as usize) {
        Some(rule) => !is_wide(rule),
        None => false,
    }
}

/// The places that two rectangles have in common.
pub fn cut_by(square: &Rect, r: &Rect) -> Rect
    ensures { result ≡ cut_by square.now r.now }
{
    Rect {
        x0: r.x0.max(square.x0),
        y0: r.y0.max(square.y0),
        x1: r.x1.min(square.x1),
        y1: r.y1.min(square.y1),
    }
}

/// The greatest end on the x axis, 0 where there is none.
#[tactic(auto, using(crate::proofs::SizeLemmas::greatest_step))]
fn top_x(parts: &[FramePart]) -> u64
    ensures { result ≡ greatest (map (λ (part : FramePart). part.rect.x1) parts.now) }
{
    let mut top = 0u64;
    for part in parts {
        top = greater(top, part.rect.x1);
    }
    top
}

/// The greatest end on the y axis, 0 where there is none.
#[tactic(auto, using(crate::proofs::SizeLemmas::greatest_step))]
fn top_y(parts: &[FramePart]) -> u64
    ensures { result ≡ greatest (map (λ (part : FramePart). part.rect.y1) parts.now) }
{
    let mut top = 0u64;
    for part in parts {
        top = greater(top, part.rect.y1);
    }
    top
}

/// The side of the blocks of an axis on which a layer's parts end before `top`: the grain, or the least side by which at most
/// 16 blocks reach `top`, where that is greater; and 1 at least.
fn block_side(grain: u64, top: u64) -> u64
    ensures { result ≡ block_side grain top }
{
    grain.max(top.div_ceil(16)).max(1)
}

/// The block with number `k`, of as many as reach `top`: its first place, and its end.
fn block_at(side: u64, top: u64, k: u64) -> (u64, u64)
    requires side { 0 < side }
    requires k { k < div_ceil top side }
    ensures { result ≡ block_at side top k }
{
    let start = k * side;
    (start, start + side.min(top - start))
}

/// The number of the block that comes at a place among `count`, by the axis's sign.
fn number_by(sign: Sign, count: u64, place: u64) -> u64
    requires { place < count }
    ensures value { result ≡ number_by sign count place }
    ensures below { result < count }
{
    match sign {
        Sign::Plus => place,
        Sign::Minus => count - 1 - place,
    }
}

/// As many blocks as reach `top`, by the axis's sign.
#[tactic(auto, using(crate::proofs::ListLemmas::map_next))]
fn cut_spans(alloc: Global, sign: Sign, side: u64, top: u64) -> Result<Vec<(u64, u64)>, AllocError>
    requires { 0 < side }
    ensures { IfOk result (λ found. found.items ≡ cut_spans sign side top) }
{
    let count = top.div_ceil(side);
    let mut found = Vec::new(alloc);
    for place in 0..count {
        found.push(block_at(side, top, number_by(sign, count, place)))?;
    }
    Ok(found)
}

/// The blocks of an axis on which a layer's parts end before `top`, in their order: one, where it can't be cut.
#[tactic(auto, unfolding(crate::specs::Frames::spans))]
fn spans(
    alloc: Global,
    cut: Option<Sign>,
    grain: u64,
    top: u64,
) -> Result<Vec<(u64, u64)>, AllocError>
    ensures { IfOk result (λ found. found.items ≡ spans cut grain top) }
{
    let Some(sign) = cut else {
        let mut found = Vec::new(alloc);
        found.push((0, top))?;
        return Ok(found);
    };
    cut_spans(alloc, sign, block_side(grain, top), top)
}

fn add_column(squares: &mut Vec<Rect>, x: &(u64, u64), ys: &[(u64, u64)]) -> Result<(), AllocError>
    ensures { OnOk result (squares.new.items ≡ squares.old.items ++ map (square x.now) ys.now) }
{
    for y in ys {
        squares.push(Rect {
            x0: x.0,
            y0: y.0,
            x1: x.1,
            y1: y.1,
        })?;
    }
    Ok(())
}

/// The blocks of a layer, by x and then by y.
fn squares(
    alloc: Global,
    layer: &Layer,
    grain: u64,
    parts: &[FramePart],
) -> Result<Vec<Rect>, AllocError>
    ensures { IfOk result (λ found. found.items ≡ squares layer.now grain parts.now) }
{
    let xs = spans(alloc, layer.cut_x, grain, top_x(parts))?;
    let ys = spans(alloc, layer.cut_y, grain, top_y(parts))?;
    let mut found = Vec::new(alloc);
    for x in xs.as_slice() {
        add_column(&mut found, x, &ys)?;
    }
    Ok(found)
}

fn is_block_part(transform: &Transform, square: &Rect, part: &FramePart) -> bool
    ensures { result ≡ is_block_part (bare_transform transform.now) square.now part.now }
{
    is_cell_rule(transform, part.rule) && has_place(&cut_by(square, &part.rect))
}

/// What a block has of parts that are made cell by cell.
fn block_parts(
    alloc: Global,
    transform: &Transform,
    parts: &[FramePart],
    square: &Rect,
) -> Result<Vec<FramePart>, AllocError>
    ensures { IfOk result (λ found. found.items ≡ block_parts (bare_transform transform.now) parts.now square.now) }
{
    let mut found = Vec::new(alloc);
    for part in parts {
        if is_block_part(transform, square, part) {
            found.push(FramePart {
                node: part.node,
                rect: cut_by(square, &part.rect),
                rule: part.rule,
            })?;
        }
    }
    Ok(found)
}

fn has_block(transform: &Transform, parts: &[FramePart], square: &Rect) -> bool
    ensures { result ≡ has_block (bare_transform transform.now) parts.now square.now }
{
    parts
        .iter()
        .any(|part| is_block_part(transform, square, part))
}

/// The blocks with a cell whose rule is one for single cells.
fn blocks(
    alloc: Global,
    transform: &Transform,
    layer: &Layer,
    grain: u64,
    parts: &[FramePart],
) -> Result<Vec<Rect>, AllocError>
    ensures { IfOk result (λ found. found.items ≡ blocks (bare_transform transform.now) layer.now grain parts.now) }
{
    let all = squares(alloc, layer, grain, parts)?;
    let mut found = Vec::new(alloc);
    for square in all.as_slice() {
        if has_block(transform, parts, square) {
            found.push(*square)?;
        }
    }
    Ok(found)
}

fn list_blocks(listed: &mut Vec<(u32, Rect)>, layer: u32, found: &[Rect]) -> Result<(), AllocError>
    ensures { OnOk result (listed.new.items ≡ listed.old.items ++ map (λ b. (layer, b)) found.now) }
{
    for square in found {
        listed.push((layer, *square))?;
    }
    Ok(())
}

fn add_jobs(
    alloc: Global,
    jobs: &mut Vec<Job>,
    transform: &Transform,
    layer: u32,
    parts: &[FramePart],
    found: &[Rect],
) -> Result<(), AllocError>
    ensures { OnOk result (jobs.new.items ≡ jobs.old.items ++ map (block_job (bare_transform transform.now) layer parts.now) found.now) }
{
    for square in found {
        jobs.push(Job {
            layer,
            rule: None,
            parts: block_parts(alloc, transform, parts, square)?,
        })?;
    }
    Ok(())
}

/// Adds the jobs of a layer's blocks, and the blocks.
pub(crate) fn add_blocks(
    alloc: Global,
    listed: &mut Vec<(u32, Rect)>,
    jobs: &mut Vec<Job>,
    transform: &Transform,
    number: u32,
    layer: &Layer,
    grain: u64,
    parts: &[FramePart],
) -> Result<(), AllocError>
    ensures listed { OnOk result (listed.new.items ≡ listed.old.items ++ map (λ b. (number, b)) (blocks (bare_transform transform.now) layer.now grain parts.now)) }
    ensures jobs { OnOk result (jobs.new.items ≡ jobs.old.items ++ map (block_job (bare_transform transform.now) number parts.now) (blocks (bare_transform transform.now) layer.now grain parts.now)) }
{
    let found = blocks(alloc, transform, layer, grain, parts)?;
    list_blocks(listed, number, &found)?;
    add_jobs(alloc, jobs, transform, number, parts, &found)
}
