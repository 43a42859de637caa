ghost use Rattle.std.specs.Prelude.{◌≡◌, ◌⊎◌, ◌≤◌, ◌<◌, ℕ, IfOk, length, slice_index};
ghost use Rattle.std.specs.List.{AllZip};
ghost use Rattle.std.specs.List.Sorted.{IsPermutation};
ghost use Rattle.pb_links.specs.Indexed.{EndBy, StartFrom, end, start};
ghost use Rattle.pb_links.specs.Owners.{hits};

use crate::owners::{Owned, Owners};
use pb_values::Rect;
use std::alloc::{AllocError, Global};
use std::marker::Model;

/// One of the two axes of a matrix.
#[derive(Clone, Copy, Debug)]
pub(crate) enum Axis {
    X,
    Y,
}

impl Axis {
    /// Where a rectangle begins along the axis.
    #[tactic(auto, unfolding(crate::specs::Indexed::start))]
    fn start(self, rect: &Rect) -> u64
        ensures { result ≡ start self rect.now }
    {
        match self {
            Axis::X => rect.x0,
            Axis::Y => rect.y0,
        }
    }

    /// Where it ends.
    #[tactic(auto, unfolding(crate::specs::Indexed::end))]
    fn end(self, rect: &Rect) -> u64
        ensures { result ≡ end self rect.now }
    {
        match self {
            Axis::X => rect.x1,
            Axis::Y => rect.y1,
        }
    }
}

/// The rectangles of one matrix, each with its task, in the order of their starts along an axis.
#[derive(Drop)]
pub(crate) struct Index {
    axis: Axis,
    list: Vec<Owned>,
    // By a number of the first ones, where the last of these ends; by a place in the list, where the first of those from there on begins.
    ends: Vec<u64>,
    starts: Vec<u64>,
}

impl Model for Index {
    ghost use Rattle.std.specs.Prelude.{List};
    ghost use Rattle.pb_links.specs.declared.owners.Owned.{Owned};
    ghost use Rattle.pb_links.specs.Indexed.{EndBy, StartFrom};

    ghost Value = { List Owned };

    ghost view = { λ i. i.list.items };

    ghost invariant = { λ i. EndBy i.axis i.list.items i.ends.items × StartFrom i.axis i.list.items i.starts.items };
}

/// The axis along which parts are told apart best: that on which more of them begin elsewhere than the first.
fn axis_of(list: &[Owned]) -> Axis {
    let Some(first) = list.first() else {
        return Axis::X;
    };
    let x = first.rect.x0;
    let y = first.rect.y0;
    let along_x = list.iter().filter(|owned| owned.rect.x0 != x).count();
    let along_y = list.iter().filter(|owned| owned.rect.y0 != y).count();
    if along_x < along_y { Axis::Y } else { Axis::X }
}

/// How many of the first all end at this place or before it.
fn ended_by(ends: &[u64], place: u64) -> usize
    ensures { (result ≡ 0) ⊎ ((result < length ends.now) × (slice_index ends.now result ≤ place)) }
{
    let past = ends.partition_point(|end| *end <= place);
    if past > 0 && ends[past - 1] <= place {
        past - 1
    } else {
        0
    }
}

/// From where on all begin at this place or after it; `count` if there is no such place in the list.
fn started_from(starts: &[u64], place: u64, count: usize) -> usize
    ensures { (result ≡ count) ⊎ ((result < length starts.now) × (place ≤ slice_index starts.now result)) }
{
    let first = starts.partition_point(|start| *start < place);
    if first < starts.len() && place <= starts[first] {
        first
    } else {
        count
    }
}

/// Where the last of the first ones ends, by their number.
fn ends_of(alloc: Global, axis: Axis, list: &[Owned]) -> Result<Vec<u64>, AllocError>
    ensures { IfOk result (λ ends. EndBy axis list.now ends.items) }
{
    let mut ends = Vec::new(alloc);
    let mut most = 0;
    for owned in list {
        ends.push(most)?;
        most = axis.end(&owned.rect).max(most);
    }
    Ok(ends)
}

/// Where the first of those begins that stand from a place on.
fn starts_of(alloc: Global, axis: Axis, list: &[Owned]) -> Result<Vec<u64>, AllocError>
    ensures { IfOk result (λ starts. StartFrom axis list.now starts.items) }
{
    let mut starts = vec![in alloc; u64::MAX; list.len()]?;
    let mut least = u64::MAX;
    let mut left = list.len();
    while left > 0 {
        left -= 1;
        least = axis.start(&list[left].rect).min(least);
        starts[left] = least;
    }
    Ok(starts)
}

impl Index {
    fn of(alloc: Global, owners: Owners) -> Result<Index, AllocError>
        ensures { IfOk result (λ index. IsPermutation owners index) }
    {
        let mut list = owners.into_list();
        let axis = axis_of(&list);
        list.sort_unstable_by_key(|owned| axis.start(&owned.rect));
        let ends = ends_of(alloc, axis, &list)?;
        let starts = starts_of(alloc, axis, &list)?;
        Ok(Index {
            axis,
            list,
            ends,
            starts,
        })
    }

    /// All that can meet a rectangle: the others end before it, or begin after it.
    pub(crate) fn near(&self, rect: &Rect) -> &[Owned]
        ensures { (task : ℕ) → hits task rect.now result.now ≡ hits task rect.now self.now }
    {
        let count = self.list.len();
        let first = ended_by(&self.ends, self.axis.start(rect)).min(count);
        let last = started_from(&self.starts, self.axis.end(rect), count)
            .min(count)
            .max(first);
        &self.list[first..last]
    }
}

/// The parts of each matrix, found by their places.
pub(crate) fn indexed(alloc: Global, table: Vec<Owners>) -> Result<Vec<Index>, AllocError>
    ensures { IfOk result (λ found. AllZip IsPermutation table.items found.items) }
{
    let mut found = Vec::new(alloc);
    for owners in table {
        found.push(Index::of(alloc, owners)?)?;
    }
    Ok(found)
}
