ghost use Rattle.std.specs.Prelude.{◌≡◌, ◌+◌, ◌^◌, ◌<◌, IfOk, length, slice_index};
ghost use Rattle.std.specs.List.{All, flat_map};
ghost use Rattle.pb_values.specs.Views.{row_cells, view_cells};
ghost use Rattle.pb_taskgraph.specs.Plans.{IsPlan};
ghost use Rattle.pb_locked.specs.Places.{HasPlaces, numbered};

use pb_taskgraph::{NamesWork, Part, TaskGraph};
use pb_values::View;
use std::alloc::{AllocError, Global};
use std::marker::{Model, PhantomData};

fn number_row(places: &mut Vec<u32>, view: &View, y: u64, first: u32)
    requires row { y < view.now.shape.h }
    requires inside { All (λ c. c < length places.old.items) (row_cells view.now y) }
    requires few { first + view.now.shape.w < 2 ^ 32 }
    ensures { places.new.items ≡ numbered places.old.items (row_cells view.now y) first }
{
    for x in 0..view.shape.w {
        places[view.place(x, y) as usize] = first + x as u32;
    }
}

fn number_view(places: &mut Vec<u32>, view: &View, first: u32) -> u32
    requires inside { All (λ c. c < length places.old.items) (view_cells view.now) }
    requires few { first + length (view_cells view.now) < 2 ^ 32 }
    ensures places { places.new.items ≡ numbered places.old.items (view_cells view.now) first }
    ensures next { result ≡ first + length (view_cells view.now) }
{
    // A view without columns may have any number of rows.
    if view.shape.w == 0 {
        return first;
    }
    let mut next = first;
    for y in 0..view.shape.h {
        number_row(places, view, y, next);
        next += view.shape.w as u32;
    }
    next
}

/// Numbers the cells of these parts, and tells how many there are.
fn number_parts(places: &mut Vec<u32>, parts: &[Part]) -> u32
    requires inside { All (λ c. c < length places.old.items) (flat_map (λ part. view_cells part.view) parts.now) }
    requires few { length (flat_map (λ part. view_cells part.view) parts.now) < 2 ^ 32 }
    ensures places { places.new.items ≡ numbered places.old.items (flat_map (λ part. view_cells part.view) parts.now) 0 }
    ensures count { result ≡ length (flat_map (λ part. view_cells part.view) parts.now) }
{
    let mut next = 0;
    for part in parts {
        next = number_view(places, &part.view, next);
    }
    next
}

/// For each cell its place among the cells of its task, part by part, each row by row; and for each task how many cells it has.
#[derive(Drop)]
pub(crate) struct Places<'w, N: NamesWork> {
    graph: &'w TaskGraph,
    places: Vec<u32>,
    counts: Vec<u32>,
    of: PhantomData<N>,
}

impl<'w, N: NamesWork> Model for Places<'w, N> {
    ghost use Rattle.std.specs.Prelude.{◌≡◌, length};
    ghost use Rattle.pb_taskgraph.specs.Plans.{IsPlan};
    ghost use Rattle.pb_locked.specs.Places.{HasPlaces, PlacesValue};

    ghost Value = { PlacesValue };

    ghost view = { λ s. record { places = s.places.items; counts = s.counts.items } };

    ghost invariant = { λ s. IsPlan N.plan × (s.graph.now ≡ N.plan.graph)
        × HasPlaces N.plan.graph (length N.plan.graph.tasks) (record { places = s.places.items; counts = s.counts.items }) };
}

impl<'w, N: NamesWork> Places<'w, N> {
    /// The places of the cells of a graph, in one pass over the parts and the cells.
    pub(crate) fn new(alloc: Global, graph: &'w TaskGraph) -> Result<Places<'w, N>, AllocError>
        requires name { graph.now ≡ N.plan.graph }
        requires plan { IsPlan N.plan }
    {
        let tasks = graph.tasks();
        let mut places = vec![in alloc; 0u32; graph.cells() as usize]?;
        let mut counts = Vec::new(alloc);
        for task in 0..tasks.len() {
            let links = &tasks[task];
            counts.push(number_parts(&mut places, &links.parts))?;
        }
        Ok(Places {
            graph,
            places,
            counts,
            of: PhantomData,
        })
    }

    /// The graph.
    pub(crate) fn graph(&self) -> &'w TaskGraph
        ensures graph { result.now ≡ N.plan.graph }
        ensures plan { IsPlan N.plan }
        ensures places { HasPlaces N.plan.graph (length N.plan.graph.tasks) self.now }
    {
        self.graph
    }

    /// The place of a cell among the cells of its task.
    pub(crate) fn place(&self, cell: u64) -> usize
        requires { cell < N.plan.graph.cells }
        ensures { result ≡ slice_index self.now.places cell }
    {
        self.places[cell as usize] as usize
    }

    /// How many cells a task has.
    pub(crate) fn count(&self, task: u32) -> usize
        requires { task < length N.plan.graph.tasks }
        ensures { result ≡ slice_index self.now.counts task }
    {
        self.counts[task as usize] as usize
    }
}
