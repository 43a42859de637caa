ghost use Rattle.std.specs.Prelude.{◌≡◌, false, slice_get};
ghost use Rattle.std.specs.List.{flat_map};
ghost use Rattle.std.specs.Option.{option_and_then, option_map_or};
ghost use Rattle.pb_types.specs.Least.{least_of};
ghost use Rattle.pb_types.specs.Views.{view_dims, is_cell, view_broken};

use crate::least::{least, unless};
use pb_program::{Decl, Meaning, Named, Read, ReadView};
use std::marker::Model;

/// The outputs and the reads of a rule.
#[derive(Drop)]
pub(crate) struct Bound<'a> {
    pub(crate) outs: &'a [Read],
    pub(crate) reads: &'a [Read],
}

impl<'a> Model for Bound<'a> {
    ghost use Rattle.pb_types.specs.Views.{Bound};

    ghost Value = { Bound };

    ghost view = { λ b. record { outs = b.outs.now; reads = b.reads.now } };
}

/// The number of dimensions of what a view shows; none for a cell.
pub(crate) fn view_dims(r: &Read) -> Option<usize>
    ensures { result ≡ view_dims r.now }
{
    match r.view {
        ReadView::Cell => None,
        ReadView::Row | ReadView::Column => Some(1),
        ReadView::Region | ReadView::Whole => Some(usize::from(r.dims)),
    }
}

pub(crate) fn is_cell(view: ReadView) -> bool
    ensures { result ≡ is_cell view }
{
    matches!(view, ReadView::Cell)
}

/// The number of dimensions of the view with this number, if it isn't a cell.
pub(crate) fn dims_at(views: &[Read], number: u32) -> Option<usize>
    ensures { result ≡ option_and_then view_dims (slice_get views.now number) }
{
    view_dims(views.get(number as usize)?)
}

fn is_cell_at(views: &[Read], number: u32) -> bool
    ensures { result ≡ option_map_or (λ r. is_cell r.view) (slice_get views.now number) false }
{
    match views.get(number as usize) {
        Some(r) => is_cell(r.view),
        None => false,
    }
}

/// The least place of a view that hasn't the dimensions of its matrix.
#[tactic(auto, using(crate::proofs::LeastLemmas::least_next, crate::proofs::LeastLemmas::least_end))]
pub(crate) fn views(matrices: &[Decl], views: &[Read]) -> Option<u32>
    ensures { result ≡ least_of (flat_map (view_broken matrices.now) views.now) }
{
    let mut found = None;
    for next in views {
        found = least(found, view(matrices, next));
    }
    found
}

#[tactic(auto, unfolding(crate::specs::Views::view_broken))]
fn view(matrices: &[Decl], r: &Read) -> Option<u32>
    ensures { result ≡ least_of (view_broken matrices.now r.now) }
{
    let fits = match matrices.get(r.matrix as usize) {
        Some(matrix) => matrix.dims == r.dims,
        None => false,
    };
    unless(fits, r.at)
}

impl<'a> Bound<'a> {
    ghost use Rattle.pb_types.specs.Views.{dims_of, is_bound_cell, is_number, number_broken, matrix_broken, cell_broken, are_dims};

    /// The number of dimensions of the bound view that is named, if it isn't a cell.
    pub(crate) fn dims(&self, named: Meaning) -> Option<usize>
        ensures { result ≡ dims_of self.now named }
    {
        match named {
            Meaning::Output(k) => dims_at(self.outs, k),
            Meaning::Read(k) => dims_at(self.reads, k),
            _ => None,
        }
    }

    pub(crate) fn is_cell(&self, named: Meaning) -> bool
        ensures { result ≡ is_bound_cell self.now named }
    {
        match named {
            Meaning::Output(k) => is_cell_at(self.outs, k),
            Meaning::Read(k) => is_cell_at(self.reads, k),
            _ => false,
        }
    }

    fn is_number(&self, named: Meaning) -> bool
        ensures { result ≡ is_number self.now named }
    {
        match named {
            Meaning::Size(_) | Meaning::RuleX | Meaning::RuleY | Meaning::Number(_) => true,
            Meaning::Output(_) | Meaning::Read(_) | Meaning::Matrix(_) => self.is_cell(named),
        }
    }

    /// The place of a name that is no number.
    pub(crate) fn number(&self, name: Named) -> Option<u32>
        ensures { result ≡ least_of (number_broken self.now name) }
    {
        unless(self.is_number(name.what), name.at)
    }

    /// The place of a name that is no bound view, or a cell.
    pub(crate) fn matrix(&self, name: Named) -> Option<u32>
        ensures { result ≡ least_of (matrix_broken self.now name) }
    {
        unless(self.dims(name.what).is_some(), name.at)
    }

    /// Whether what is named has so many dimensions.
    pub(crate) fn has_dims(&self, named: Meaning, count: usize) -> bool
        ensures { result ≡ are_dims (dims_of self.now named) count }
    {
        match self.dims(named) {
            Some(dims) => dims == count,
            None => false,
        }
    }

    /// The place of a name of which no cell has so many coordinates.
    pub(crate) fn cell(&self, name: Named, coordinates: usize) -> Option<u32>
        ensures { result ≡ least_of (cell_broken self.now name coordinates) }
    {
        unless(self.has_dims(name.what, coordinates), name.at)
    }
}
