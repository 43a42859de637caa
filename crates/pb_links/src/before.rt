ghost use Rattle.std.specs.Prelude.{◌≡◌, ◌++◌, ◌<◌, ℕ, IfOk, OnOk, length};
ghost use Rattle.std.specs.List.{flat_map};
ghost use Rattle.pb_links.specs.Links.{predecessors};
ghost use Rattle.pb_links.specs.Owners.{IsSortedOut, IsTable, box_hits, hits, is_hit, on};
ghost use Rattle.pb_links.specs.Spots.{meets};

use crate::index::Index;
use crate::owners::Owned;
use crate::places::{Places, Spot};
use pb_values::Rect;
use std::alloc::{AllocError, Global};

/// Whether two rectangles have a place in common.
#[tactic(auto, unfolding(crate::specs::Spots::meets))]
fn is_met(a: &Rect, b: &Rect) -> bool
    ensures { result ≡ meets a.now b.now }
{
    a.x0.max(b.x0) < a.x1.min(b.x1) && a.y0.max(b.y0) < a.y1.min(b.y1)
}

/// Whether a part is of another task and meets a rectangle.
#[tactic(auto, unfolding(crate::specs::Owners::is_hit))]
fn is_hit(owned: &Owned, rect: &Rect, task: u32) -> bool
    ensures { result ≡ is_hit task rect.now owned.now }
{
    owned.task != task && is_met(&owned.rect, rect)
}

/// Finds the other tasks that make a part of a rectangle.
fn find(found: &mut Vec<u32>, owners: &[Owned], rect: &Rect, task: u32) -> Result<(), AllocError>
    ensures { OnOk result (found.new.items ≡ found.old.items ++ hits task rect.now owners.now) }
{
    for owned in owners {
        if is_hit(owned, rect, task) {
            found.push(owned.task)?;
        }
    }
    Ok(())
}

/// The parts on a matrix that can meet a rectangle.
fn near<'a>(table: &'a [Index], base: u32, rect: &Rect) -> &'a [Owned]
    ensures { (task : ℕ) → hits task rect.now result.now ≡ hits task rect.now (on table.now base) }
{
    match table.get(base as usize) {
        Some(index) => index.near(rect),
        None => &[],
    }
}

/// Finds the other tasks that make a part of one of these boxes, some of them several times.
fn find_all(
    alloc: Global,
    table: &[Index],
    task: u32,
    boxes: &[Spot],
) -> Result<Vec<u32>, AllocError>
    ensures { IfOk result (λ found. found.items ≡ flat_map (box_hits table.now task) boxes.now) }
{
    let mut found = Vec::new(alloc);
    for spot in boxes {
        find(
            &mut found,
            near(table, spot.base, &spot.rect),
            &spot.rect,
            task,
        )?;
    }
    Ok(found)
}

/// Puts numbers in rising order, each once.
fn sort_out(found: &mut Vec<u32>)
    ensures { IsSortedOut found.old.items found.new.items }
{
    found.sort_unstable();
    found.dedup();
}

/// The predecessors of a task.
pub(crate) fn predecessors_of(
    alloc: Global,
    table: &[Index],
    tasks: &[Places],
    task: u32,
) -> Result<Vec<u32>, AllocError>
    requires table { IsTable tasks.now (length tasks.now) (length table.now) table.now }
    requires task { task < length tasks.now }
    ensures { IfOk result (λ found. found.items ≡ predecessors tasks.now task) }
{
    let places = &tasks[task as usize];
    let mut found = find_all(alloc, table, task, &places.boxes)?;
    sort_out(&mut found);
    Ok(found)
}
