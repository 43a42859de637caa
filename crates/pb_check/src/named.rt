ghost use Rattle.std.specs.Prelude.{◌≡◌, IfErr, IfOk, slice_get};
ghost use Rattle.pb_syntax.specs.declared.refusal.Refusal.TheVariants.{Memory};
ghost use Rattle.pb_program.specs.Trees.{bare_prog};
ghost use Rattle.pb_program.specs.WellFormed.{IsWellFormed};
ghost use Rattle.std.specs.List.{All};
ghost use Rattle.pb_check.specs.Cuts.{AreCut};
ghost use Rattle.pb_check.specs.Orders.{AreNamed, AreNodesIn};
ghost use Rattle.pb_check.specs.Phases.{IsBounded, IsRefused};

use crate::cuts::transform_nodes;
use pb_graph::Node;
use pb_program::Prog;
use pb_syntax::Refusal;
use std::alloc::Global;

/// The segments of a transform that can be cut; none where there is no such transform.
fn nodes_at(alloc: Global, p: &Prog, t: u32) -> Result<Vec<Node>, Refusal>
    requires well_formed { IsWellFormed (bare_prog p.now) }
    requires bounded { All IsBounded (bare_prog p.now) }
    requires cut { All AreCut (bare_prog p.now) }
    ensures found { IfOk result (λ ns. AreNodesIn (slice_get (bare_prog p.now) t) ns.items) }
    ensures refused { IfErr result (λ e. e ≡ Memory) }
{
    match p.transforms.get(t as usize) {
        Some(transform) => transform_nodes(alloc, p, t, transform),
        None => Ok(Vec::new(alloc)),
    }
}

/// The segments of the transform that a refusal for want of an order names; none for any other refusal. The program is well
/// formed, and `judge` refuses it so.
pub fn named_segments(alloc: Global, p: &Prog, refusal: &Refusal) -> Result<Vec<Node>, Refusal>
    requires well_formed { IsWellFormed (bare_prog p.now) }
    requires refused { IsRefused (bare_prog p.now) refusal.now }
    ensures found { IfOk result (λ ns. AreNamed (bare_prog p.now) refusal.now ns.items) }
    ensures refused { IfErr result (λ e. e ≡ Memory) }
{
    match refusal {
        Refusal::NoOrder { transform, .. } => nodes_at(alloc, p, *transform),
        _ => Ok(Vec::new(alloc)),
    }
}
