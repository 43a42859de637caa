ghost use Rattle.std.specs.Prelude.{◌≡◌, ◌<◌, ◌++◌, ◌&&◌, false, IfErr, IfOk, OnOk, None, ◌⊎◌, length, map, slice_index_or};
ghost use Rattle.std.specs.List.{All, flat_map};
ghost use Rattle.pb_grid.specs.declared.refusal.GridRefusal.TheVariants.{Memory};

use crate::gaps::Gap;
use crate::refusal::GridRefusal;
use pb_linear::{RuleBox, SymBox};
use std::alloc::Global;
use std::marker::Model;

/// A part of a matrix between neighbouring cuts, with the numbers of the rules that may make its cells: those with a box
/// that holds it and the least priority of the unguarded ones, or a smaller one, in the order of the boxes.
#[derive(Drop)]
pub struct Segment {
    pub area: SymBox,
    pub rules: Vec<u32>,
}

impl Model for Segment {
    ghost use Rattle.pb_grid.specs.Segments.{SegmentValue};

    ghost Value = { SegmentValue };

    ghost view = { λ s. record {
      area = s.area;
      rules = s.rules.items;
    } };
}

/// A rule with a box that holds a segment.
#[derive(Clone, Copy)]
pub(crate) struct Holder {
    pub(crate) rule: u32,
    pub(crate) priority: u32,
    pub(crate) guarded: bool,
}

/// A segment's area with the rules that have a box that holds it.
#[derive(Drop)]
pub(crate) struct Held {
    pub(crate) area: SymBox,
    pub(crate) holders: Vec<Holder>,
}

impl Model for Held {
    ghost use Rattle.pb_grid.specs.Gaps.{HeldValue};

    ghost Value = { HeldValue };

    ghost view = { λ h. record {
      area = h.area;
      holders = h.holders.items;
    } };
}

ghost use Rattle.pb_grid.specs.Gaps.{GapValue, both_held, bare_area, held_by, is_bare, IsBareRefused, made};
ghost use Rattle.pb_grid.specs.Segments.{best, holder_of, is_best};

/// Whether a box holds what lies in both gaps.
fn are_held(x: &Gap, y: &Gap, place: usize) -> bool
    requires x { place < length x.now.held }
    requires y { place < length y.now.held }
    ensures { result ≡ (slice_index_or x.now.held place false && slice_index_or y.now.held place false) }
{
    x.held[place] && y.held[place]
}

/// The rules with a box that holds what lies in both gaps.
fn holders(alloc: Global, boxes: &[RuleBox], x: &Gap, y: &Gap) -> Result<Vec<Holder>, GridRefusal>
    requires x { length x.now.held ≡ length boxes.now }
    requires y { length y.now.held ≡ length boxes.now }
    ensures found { IfOk result (λ hs. hs.items ≡ map holder_of (both_held x.now.held y.now.held boxes.now)) }
    ensures refused { IfErr result (λ e. e ≡ Memory) }
{
    let mut holders = Vec::new(alloc);
    for (place, rule_box) in boxes.iter().enumerate() {
        if !are_held(x, y, place) {
            continue;
        }
        holders.push(Holder {
            rule: rule_box.rule,
            priority: rule_box.priority,
            guarded: rule_box.guarded,
        })?;
    }
    Ok(holders)
}

/// Adds the segments of a row at the end of a list.
fn push_row(
    alloc: Global,
    segments: &mut Vec<Held>,
    boxes: &[RuleBox],
    xs: &[Gap],
    y: &Gap,
) -> Result<(), GridRefusal>
    requires xs { All (λ (x : GapValue). length x.held ≡ length boxes.now) xs.now }
    requires y { length y.now.held ≡ length boxes.now }
    ensures found { OnOk result (segments.new.items ≡ segments.old.items ++ map (λ x. held_by boxes.now x y.now) xs.now) }
    ensures refused { IfErr result (λ e. e ≡ Memory) }
{
    for x in xs {
        segments.push(Held {
            area: SymBox {
                x0: x.low,
                x1: x.high,
                y0: y.low,
                y1: y.high,
            },
            holders: holders(alloc, boxes, x, y)?,
        })?;
    }
    Ok(())
}

/// The segments by y and then by x, each with the rules that have a box that holds it.
pub(crate) fn segments_held(
    alloc: Global,
    boxes: &[RuleBox],
    xs: &[Gap],
    ys: &[Gap],
) -> Result<Vec<Held>, GridRefusal>
    requires xs { All (λ (x : GapValue). length x.held ≡ length boxes.now) xs.now }
    requires ys { All (λ (y : GapValue). length y.held ≡ length boxes.now) ys.now }
    ensures found { IfOk result (λ hs. hs.items ≡ flat_map (λ y. map (λ x. held_by boxes.now x y) xs.now) ys.now) }
    ensures refused { IfErr result (λ e. e ≡ Memory) }
{
    let mut segments = Vec::new(alloc);
    for y in ys {
        push_row(alloc, &mut segments, boxes, xs, y)?;
    }
    Ok(segments)
}

/// Whether no unguarded rule has a box that holds the segment.
fn is_bare(segment: &Held) -> bool
    ensures { result ≡ is_bare segment.now }
{
    segment.holders.iter().all(|holder| holder.guarded)
}

/// The area of the first segment that no unguarded rule has a box for.
fn uncovered(segments: &[Held]) -> Option<SymBox>
    ensures { result ≡ bare_area segments.now }
{
    for segment in segments {
        if is_bare(segment) {
            return Some(segment.area);
        }
    }
    None
}

/// Whether no unguarded rule has a smaller priority.
fn is_best(holders: &[Holder], holder: &Holder) -> bool
    ensures { result ≡ is_best holders.now holder.now }
{
    holders
        .iter()
        .all(|other| other.guarded || holder.priority <= other.priority)
}

/// The numbers of the best rules, each once.
#[tactic(auto, unfolding(crate::specs::Segments::best))]
fn best(alloc: Global, holders: &[Holder]) -> Result<Vec<u32>, GridRefusal>
    ensures found { IfOk result (λ rs. rs.items ≡ best holders.now) }
    ensures refused { IfErr result (λ e. e ≡ Memory) }
{
    let mut rules = Vec::new(alloc);
    for holder in holders {
        if !is_best(holders, holder) {
            continue;
        }
        if rules.contains(&holder.rule) {
            continue;
        }
        rules.push(holder.rule)?;
    }
    Ok(rules)
}

/// The segments with the rules that may make their cells.
fn segments(alloc: Global, held: &[Held]) -> Result<Vec<Segment>, GridRefusal>
    ensures found { IfOk result (λ ss. ss.items ≡ map made held.now) }
    ensures refused { IfErr result (λ e. e ≡ Memory) }
{
    let mut segments = Vec::new(alloc);
    for segment in held {
        segments.push(Segment {
            area: segment.area,
            rules: best(alloc, &segment.holders)?,
        })?;
    }
    Ok(segments)
}

/// The segments, unless one is uncovered.
pub(crate) fn covered_segments(alloc: Global, held: &[Held]) -> Result<Vec<Segment>, GridRefusal>
    ensures found { IfOk result (λ ss. (bare_area held.now ≡ None) × (ss.items ≡ map made held.now)) }
    ensures refused { IfErr result (λ e. (e ≡ Memory) ⊎ IsBareRefused held.now e) }
{
    match uncovered(held) {
        Some(area) => Err(GridRefusal::Uncovered { area }),
        None => segments(alloc, held),
    }
}
