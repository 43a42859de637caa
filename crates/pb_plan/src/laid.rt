ghost use Rattle.std.specs.Prelude.{◌≡◌, IfOk};
ghost use Rattle.pb_linear.specs.Sizes.{InRange, leasts_of, sizes_of};
ghost use Rattle.pb_program.specs.Configs.{IsValid};
ghost use Rattle.pb_program.specs.Trees.{bare_prog};
ghost use Rattle.pb_check.specs.Ranked.{OfTransform};
ghost use Rattle.pb_plan.specs.Laid.{HasRoom, IsLaid};

use crate::jobs::places;
use pb_check::Accepted;
use pb_frame::{FrameTasks, frame};
use pb_linear::Sizes;
use pb_links::Places;
use pb_program::Config;
use pb_values::View;
use pb_views::lay_out;
use std::alloc::{AllocError, Global};
use std::marker::Model;

/// An instance of a transform: what it makes at its sizes, its matrices as views of cells, one after the other from cell 0 on,
/// and the rectangles that each job of the frame makes and reads.
#[derive(Drop)]
pub struct Laid {
    pub frame: FrameTasks,
    pub views: Vec<View>,
    pub places: Vec<Places>,
}

impl Model for Laid {
    ghost use Rattle.pb_plan.specs.Laid.{LaidValue};

    ghost Value = { LaidValue };

    ghost view = { λ l. record { frame = l.frame; views = l.views.items; places = l.places.items } };
}

/// Lays out an instance of transform `t` at sizes in range, where a valid configuration chooses. There is such a transform, no
/// side of its matrices is above `MOST_SIDE`, and they have no more than `MOST_CELLS` cells. `grain` is the least side of a
/// block.
#[tactic(auto, using(crate::proofs::LaidLemmas::laid, crate::proofs::LaidLemmas::can_be_boxed, crate::proofs::LaidLemmas::have_their_nodes))]
pub fn instance(
    alloc: Global,
    a: &Accepted,
    c: &Config,
    t: u32,
    s: &Sizes,
    grain: u64,
) -> Result<Laid, AllocError>
    requires valid { IsValid (bare_prog a.now.program) c.now }
    requires sizes { OfTransform a.now t (λ transform found. InRange (leasts_of transform.ranges) (sizes_of s.now)) }
    requires room { OfTransform a.now t (λ transform found. HasRoom (sizes_of s.now) transform) }
    ensures { IfOk result (λ laid. OfTransform a.now t (λ transform found. IsLaid c.now t s.now grain transform found laid)) }
{
    let frame = frame(alloc, a, c, t, s, grain)?;
    let transform = &a.prog().transforms[t as usize];
    let nodes = a.analyses()[t as usize].nodes();
    let views = lay_out(alloc, &transform.matrices, s, 0)?;
    let places = places(alloc, transform, nodes, &views, s, &frame.jobs)?;
    Ok(Laid {
        frame,
        views,
        places,
    })
}
