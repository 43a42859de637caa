ghost use Rattle.std.specs.Prelude.{◌≡◌, ◌+◌, ◌<◌, Some, drop, length, slice_get};
ghost use Rattle.pb_run_work.specs.Running.{IsRunning};

use crate::drawn::{Pieces, Sight};
use pb_check::Accepted;
use pb_jobs::Rooms;
use pb_linear::Sizes;
use pb_matrix::Matrix;
use pb_program::{Config, Prog, Transform};
use pb_steps::Unrolled;
use pb_taskgraph::TaskGraph;
use pb_values::View;
use std::marker::Model;

/// A run of a transform of an accepted program, with all calls of its plans: a work whose tasks make the cells of the matrices of its
/// calls.
#[derive(Drop)]
pub struct Run<'a> {
    pub(crate) accepted: &'a Accepted,
    pub(crate) config: &'a Config,
    pub(crate) grain: u64,
    pub(crate) depth: u32,
    pub(crate) number: u32,
    pub(crate) transform: &'a Transform,
    pub(crate) sizes: Sizes,
    pub(crate) inputs: Vec<Matrix>,
    pub(crate) views: Vec<View>,
    pub(crate) unrolled: Unrolled,
    pub(crate) graph: TaskGraph,
    pub(crate) sights: Vec<Sight>,
    pub(crate) pieces: Vec<Pieces>,
    pub(crate) rooms: Rooms,
}

impl<'a> Model for Run<'a> {
    ghost use Rattle.std.specs.Coded.{codes};
    ghost use Rattle.pb_program.specs.contracts.statement.Stmt as statement;
    ghost use Rattle.pb_run_work.specs.Running.{IsRunning, RunValue};

    ghost Value = { RunValue };

    ghost coded = { Prim.hlevel (codes, statement.the_row.coded) };

    ghost view = { λ r. record {
      accepted = r.accepted.now;
      config = r.config.now;
      grain = r.grain;
      depth = r.depth;
      number = r.number;
      transform = r.transform.now;
      sizes = r.sizes;
      inputs = r.inputs.items;
      views = r.views.items;
      unrolled = r.unrolled;
      graph = r.graph;
      sights = r.sights.items;
      pieces = r.pieces.items;
      rooms = r.rooms;
    } };

    ghost invariant = { λ r. IsRunning (record {
      accepted = r.accepted.now;
      config = r.config.now;
      grain = r.grain;
      depth = r.depth;
      number = r.number;
      transform = r.transform.now;
      sizes = r.sizes;
      inputs = r.inputs.items;
      views = r.views.items;
      unrolled = r.unrolled;
      graph = r.graph;
      sights = r.sights.items;
      pieces = r.pieces.items;
      rooms = r.rooms;
    }) };
}

impl<'a> Run<'a> {
    /// The program that is run.
    pub fn program(&self) -> &Prog
        ensures { result.now ≡ self.now.accepted.program }
    {
        self.accepted.prog()
    }

    /// The transform that is run.
    pub fn transform(&self) -> &Transform
        ensures { result.now ≡ self.now.transform }
    {
        self.transform
    }

    /// The number of the transform that is run.
    pub fn transform_number(&self) -> u32
        ensures { result ≡ self.now.number }
    {
        self.number
    }

    /// The graph of the tasks.
    pub fn task_graph(&self) -> &TaskGraph
        ensures graph { result.now ≡ self.now.graph }
        ensures running { IsRunning self.now }
    {
        &self.graph
    }

    /// The matrices of the transform as views of cells, those that are given first.
    fn matrices(&self) -> &[View]
        ensures views { result.now ≡ self.now.views }
        ensures running { IsRunning self.now }
    {
        &self.views
    }

    /// The matrices after `through` and then those after `to`, in declared order, as views of cells.
    pub fn watched(&self) -> &[View]
        ensures views { result.now ≡ drop self.now.transform.inputs self.now.views }
        ensures running { IsRunning self.now }
    {
        let transform = self.transform;
        let views = self.matrices();
        &views[transform.inputs as usize..]
    }

    /// The matrices after `to`, in declared order, as views of cells.
    pub fn outputs(&self) -> &[View]
        ensures views { result.now ≡ drop (self.now.transform.inputs + self.now.transform.middles) self.now.views }
        ensures running { IsRunning self.now }
    {
        let transform = self.transform;
        let views = self.matrices();
        &views[transform.inputs as usize + transform.middles as usize..]
    }
}
