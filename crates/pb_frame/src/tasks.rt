ghost use Rattle.std.specs.Prelude.{◌≡◌, ◌<◌, ◌≤◌, ◌^◌, ◌++◌, IfOk, OnOk, Some, length, map, slice_get};
ghost use Rattle.std.specs.List.{enumerate_from, flat_map, range_with_len};
ghost use Rattle.pb_graph.specs.Layerings.{LayerValue};
ghost use Rattle.pb_linear.specs.Sizes.{InRange, leasts_of, sizes_of};
ghost use Rattle.pb_syntax.specs.declared.limits.TheConstants.{MOST_RULES};
ghost use Rattle.pb_program.specs.Configs.{IsValid};
ghost use Rattle.pb_program.specs.Trees.{bare_prog, bare_transform};
ghost use Rattle.pb_check.specs.Ranked.{OfTransform};
ghost use Rattle.pb_frame.specs.Choices.{IsInstance};
ghost use Rattle.pb_frame.specs.Frames.{IsFrame, blocks, chosen_wides, in_layer, layer_jobs};

use crate::blocks::add_blocks;
use crate::job::Job;
use crate::layers::{LayerParts, by_layer};
use crate::part::FramePart;
use crate::parts::parts_of;
use crate::wides::add_wides;
use pb_check::{Accepted, Analysis};
use pb_graph::{Layer, Layering};
use pb_linear::Sizes;
use pb_program::{Config, Transform};
use pb_values::Rect;
use std::alloc::{AllocError, Global};
use std::marker::Model;

/// What one instance of a transform makes at its sizes: each segment that has a cell, with its chosen rule; the blocks with
/// cells that are made one by one, each with its layer; the chosen rules that make more than a cell, each with its layer; and
/// the jobs, in the order of the tasks.
#[derive(Drop)]
pub struct FrameTasks {
    pub sizes: Sizes,
    pub parts: Vec<FramePart>,
    pub blocks: Vec<(u32, Rect)>,
    pub wides: Vec<(u32, u32)>,
    pub jobs: Vec<Job>,
}

impl Model for FrameTasks {
    ghost use Rattle.pb_frame.specs.Frames.{FrameValue};

    ghost Value = { FrameValue };

    ghost view = { λ f. record {
      sizes = f.sizes;
      parts = f.parts.items;
      blocks = f.blocks.items;
      wides = f.wides.items;
      jobs = f.jobs.items;
    } };
}

/// Adds what a layer makes.
fn add_layer(
    alloc: Global,
    f: &mut FrameTasks,
    transform: &Transform,
    number: u32,
    layer: &Layer,
    grain: u64,
    parts: &[FramePart],
) -> Result<(), AllocError>
    requires { length transform.now.rules ≤ MOST_RULES }
    ensures sizes { f.new.sizes ≡ f.old.sizes }
    ensures parts { f.new.parts ≡ f.old.parts }
    ensures blocks { OnOk result (f.new.blocks ≡ f.old.blocks ++ map (λ b. (number, b)) (blocks (bare_transform transform.now) layer.now grain parts.now)) }
    ensures wides { OnOk result (f.new.wides ≡ f.old.wides ++ map (λ k. (number, k)) (chosen_wides (bare_transform transform.now) parts.now)) }
    ensures jobs { OnOk result (f.new.jobs ≡ f.old.jobs ++ layer_jobs (bare_transform transform.now) grain parts.now (number, layer.now)) }
{
    add_wides(alloc, &mut f.wides, &mut f.jobs, transform, number, parts)?;
    add_blocks(
        alloc,
        &mut f.blocks,
        &mut f.jobs,
        transform,
        number,
        layer,
        grain,
        parts,
    )
}

/// Adds what the layer with this number makes.
fn add_at(
    alloc: Global,
    f: &mut FrameTasks,
    transform: &Transform,
    order: &Layering,
    l: u32,
    grain: u64,
    layers: &[LayerParts],
) -> Result<(), AllocError>
    requires few { length transform.now.rules ≤ MOST_RULES }
    requires there { l < length order.now.layers }
    requires layers { layers.now ≡ map (in_layer order.now f.old.parts) (range_with_len 0 (length order.now.layers)) }
    ensures sizes { f.new.sizes ≡ f.old.sizes }
    ensures parts { f.new.parts ≡ f.old.parts }
    ensures blocks { OnOk result ((layer : LayerValue) → slice_get order.now.layers l ≡ Some layer
        → f.new.blocks ≡ f.old.blocks ++ map (λ b. (l, b)) (blocks (bare_transform transform.now) layer grain (in_layer order.now f.old.parts l))) }
    ensures wides { OnOk result (f.new.wides ≡ f.old.wides ++ map (λ k. (l, k)) (chosen_wides (bare_transform transform.now) (in_layer order.now f.old.parts l))) }
    ensures jobs { OnOk result ((layer : LayerValue) → slice_get order.now.layers l ≡ Some layer
        → f.new.jobs ≡ f.old.jobs ++ layer_jobs (bare_transform transform.now) grain (in_layer order.now f.old.parts l) (l, layer)) }
{
    add_layer(
        alloc,
        f,
        transform,
        l,
        &order.layers[l as usize],
        grain,
        layers[l as usize].parts(),
    )
}

/// Adds what all layers make.
fn add_layers(
    alloc: Global,
    f: &mut FrameTasks,
    transform: &Transform,
    order: &Layering,
    grain: u64,
    layers: &[LayerParts],
) -> Result<(), AllocError>
    requires few { length transform.now.rules ≤ MOST_RULES }
    requires short { length order.now.layers < 2 ^ 32 }
    requires layers { layers.now ≡ map (in_layer order.now f.old.parts) (range_with_len 0 (length order.now.layers)) }
    ensures sizes { f.new.sizes ≡ f.old.sizes }
    ensures parts { f.new.parts ≡ f.old.parts }
    ensures blocks { OnOk result (f.new.blocks ≡ f.old.blocks ++ flat_map (λ l. map (λ b. (l.0, b)) (blocks (bare_transform transform.now) l.1 grain (in_layer order.now f.old.parts l.0))) (enumerate_from 0 order.now.layers)) }
    ensures wides { OnOk result (f.new.wides ≡ f.old.wides ++ flat_map (λ l. map (λ k. (l.0, k)) (chosen_wides (bare_transform transform.now) (in_layer order.now f.old.parts l.0))) (enumerate_from 0 order.now.layers)) }
    ensures jobs { OnOk result (f.new.jobs ≡ f.old.jobs ++ flat_map (λ l. layer_jobs (bare_transform transform.now) grain (in_layer order.now f.old.parts l.0) l) (enumerate_from 0 order.now.layers)) }
{
    for l in 0..order.layers.len() as u32 {
        add_at(alloc, f, transform, order, l, grain, layers)?;
    }
    Ok(())
}

/// What an instance of a transform makes, of which this was found.
fn frame_of(
    alloc: Global,
    c: &Config,
    t: u32,
    transform: &Transform,
    found: &Analysis,
    s: &Sizes,
    grain: u64,
) -> Result<FrameTasks, AllocError>
    requires instance { IsInstance t (bare_transform transform.now) found.now (sizes_of s.now) }
    ensures sizes { IfOk result (λ f. f.sizes ≡ s.now) }
    ensures frame { IfOk result (IsFrame c.now t (bare_transform transform.now) found.now grain) }
{
    let parts = parts_of(alloc, c, t, transform, found, s)?;
    let order = found.order();
    let layers = by_layer(alloc, order, &parts)?;
    let mut f = FrameTasks {
        sizes: *s,
        parts,
        blocks: Vec::new(alloc),
        wides: Vec::new(alloc),
        jobs: Vec::new(alloc),
    };
    add_layers(alloc, &mut f, transform, order, grain, &layers)?;
    Ok(f)
}

/// What an instance of transform `t` makes at sizes in range, where a valid configuration chooses. There is such a
/// transform. `grain` is the least side of the blocks, but for one
/// that the end of its axis cuts short.
pub fn frame(
    alloc: Global,
    a: &Accepted,
    c: &Config,
    t: u32,
    s: &Sizes,
    grain: u64,
) -> Result<FrameTasks, AllocError>
    requires valid { IsValid (bare_prog a.now.program) c.now }
    requires sizes { OfTransform a.now t (λ transform found. InRange (leasts_of transform.ranges) (sizes_of s.now)) }
    ensures sizes { IfOk result (λ f. f.sizes ≡ s.now) }
    ensures frame { IfOk result (λ f. OfTransform a.now t (λ transform found. IsFrame c.now t transform found grain f)) }
{
    frame_of(
        alloc,
        c,
        t,
        &a.prog().transforms[t as usize],
        &a.analyses()[t as usize],
        s,
        grain,
    )
}
