ghost use Rattle.std.specs.Prelude.{◌≡◌, ◌⊎◌, IfErr, IfOk, OnOk};
ghost use Rattle.pb_syntax.specs.declared.refusal.Refusal.TheVariants.{Memory};
ghost use Rattle.pb_program.specs.Trees.{bare_prog};
ghost use Rattle.pb_program.specs.WellFormed.{IsWellFormed};
ghost use Rattle.pb_check.specs.Orders.{AreFound};
ghost use Rattle.pb_check.specs.Phases.{IsSound, IsRefused};

use crate::bounds::bounds;
use crate::cuts::cut_all;
use crate::orders::{Analysis, order_all};
use pb_program::Prog;
use pb_syntax::Refusal;
use pb_types::check_types;
use std::alloc::Global;

/// What every phase after that of names finds of the transforms of a program. Refused by the first phase that finds a
/// fault: by the least place at which its types are wrong, as `pb_types::check_types` says; then, transform by transform,
/// by the first side that is negative at some sizes and the first rule that has no boxes, as `pb_region::check_dims` and
/// `pb_region::conditions` say; then by the first matrix that can't be cut, as `pb_grid::grid` says; then by the first
/// transform whose segments have no order, as `pb_graph::order` says.
#[tactic(auto, using(crate::proofs::PhaseLemmas::by_types, crate::proofs::PhaseLemmas::by_bounds, crate::proofs::PhaseLemmas::by_cuts, crate::proofs::PhaseLemmas::by_order, crate::proofs::PhaseLemmas::sound_is))]
pub fn judge(alloc: Global, p: &Prog) -> Result<Vec<Analysis>, Refusal>
    requires { IsWellFormed (bare_prog p.now) }
    ensures sound { OnOk result (IsSound (bare_prog p.now)) }
    ensures found { IfOk result (λ found. AreFound (bare_prog p.now) found.items) }
    ensures refused { IfErr result (λ e. (e ≡ Memory) ⊎ IsRefused (bare_prog p.now) e) }
{
    check_types(alloc, p)?;
    bounds(alloc, p)?;
    let cuts = cut_all(alloc, p)?;
    order_all(alloc, p, cuts)
}
