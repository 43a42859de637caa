ghost use Rattle.std.specs.Prelude.{◌≡◌, map, IfOk};
ghost use Rattle.pb_program.specs.Exprs.{bare};
ghost use Rattle.pb_program.specs.Plans.{all_some, argument_slot, call_by, calls_of, slot_of, target_slots, transform_call};
ghost use Rattle.pb_program.specs.Stmts.{bare_stmt};
ghost use Rattle.pb_names.specs.Slots.{arg_slots_in, call_in, called_in, calls_in, is_call_in, item_slots_in, slots_in};

use pb_program::{Called, Callee, Expr, Meaning, Named, PlanCall, Slot, Stmt};
use std::alloc::{AllocError, Global};

/// The matrix that a name names.
fn slot(what: Meaning) -> Option<Slot>
    ensures { result ≡ slot_of what }
{
    match what {
        Meaning::Output(k) => Some(Slot::Out(k)),
        Meaning::Read(k) => Some(Slot::Read(k)),
        Meaning::Matrix(k) => Some(Slot::Local(k)),
        _ => None,
    }
}

/// The matrix that an argument names, if it is a name.
fn argument(e: &Expr) -> Option<Slot>
    ensures { result ≡ argument_slot (bare e.now) }
{
    match e {
        Expr::Name(name) => slot(name.what),
        _ => None,
    }
}

#[tactic(auto, using(crate::proofs::PlanLemmas::some_next, crate::proofs::PlanLemmas::some_none, crate::proofs::PlanLemmas::some_end))]
/// The matrices that targets name, if each names one.
fn targets(alloc: Global, names: &[Named]) -> Result<Option<Vec<Slot>>, AllocError>
    ensures { IfOk result (λ found. slots_in found ≡ all_some (λ n. slot_of n.what) names.now) }
{
    let mut found = Vec::new(alloc);
    for next in names {
        match slot(next.what) {
            Some(slot) => found.push(slot)?,
            None => return Ok(None),
        }
    }
    Ok(Some(found))
}

#[tactic(auto, using(crate::proofs::PlanLemmas::some_next, crate::proofs::PlanLemmas::arguments_none, crate::proofs::PlanLemmas::arguments_end, crate::proofs::PlanLemmas::items_none, crate::proofs::PlanLemmas::items_end))]
/// The matrices that arguments name, if each is a name of one.
fn arguments(alloc: Global, xs: &[Expr]) -> Result<Option<Vec<Slot>>, AllocError>
    ensures listed { IfOk result (λ found. slots_in found ≡ arg_slots_in xs.now) }
    ensures items { IfOk result (λ found. slots_in found ≡ item_slots_in xs.now) }
{
    let mut found = Vec::new(alloc);
    for next in xs {
        match argument(next) {
            Some(slot) => found.push(slot)?,
            None => return Ok(None),
        }
    }
    Ok(Some(found))
}

fn call_by(
    transform: u32,
    targets: Option<Vec<Slot>>,
    arguments: Option<Vec<Slot>>,
) -> Option<PlanCall>
    ensures { result ≡ call_by transform (slots_in targets) (slots_in arguments) }
{
    match (targets, arguments) {
        (Some(targets), Some(arguments)) => Some(PlanCall {
            transform,
            targets,
            arguments,
        }),
        _ => None,
    }
}

fn transform_call(
    alloc: Global,
    called: &Called,
    names: &[Named],
    xs: &[Expr],
) -> Result<Option<PlanCall>, AllocError>
    ensures listed { IfOk result (λ c. c ≡ transform_call called.now.what (target_slots names.now) (arg_slots_in xs.now)) }
    ensures items { IfOk result (λ c. c ≡ transform_call called.now.what (target_slots names.now) (item_slots_in xs.now)) }
{
    match called.what {
        Callee::Function(_) => Ok(None),
        Callee::Transform(transform) => {
            let found = targets(alloc, names)?;
            Ok(call_by(transform, found, arguments(alloc, xs)?))
        }
    }
}

/// The call that an assigned expression is.
#[tactic(auto, unfolding(crate::specs::Slots::called_in, crate::specs::Slots::item_slots_in))]
fn assigned(alloc: Global, target: Named, value: &Expr) -> Result<Option<PlanCall>, AllocError>
    ensures { IfOk result (λ c. c ≡ called_in target value.now) }
{
    match value {
        Expr::Call { called, arguments } => transform_call(alloc, called, &[target], arguments),
        _ => Ok(None),
    }
}

/// The call that a statement is.
#[tactic(auto, unfolding(crate::specs::Slots::call_in, crate::specs::Slots::called_in, crate::specs::Slots::arg_slots_in))]
fn call_of(alloc: Global, s: &Stmt) -> Result<Option<PlanCall>, AllocError>
    ensures { IfOk result (λ c. c ≡ call_in s.now) }
{
    match s {
        Stmt::Assign { target, value } => assigned(alloc, *target, value),
        Stmt::Call {
            targets,
            called,
            arguments,
        } => transform_call(alloc, called, targets, arguments),
        _ => Ok(None),
    }
}

/// Whether a statement can be a call: whether it declares no matrix.
#[tactic(auto, unfolding(crate::specs::Slots::is_call_in))]
fn is_call(s: &Stmt) -> bool
    ensures { result ≡ is_call_in s.now }
{
    match s {
        Stmt::LetMatrix { .. } => false,
        _ => true,
    }
}

/// The calls of a plan, if each statement is a call of a transform or declares a matrix.
#[tactic(auto, using(crate::proofs::PlanLemmas::call_next, crate::proofs::PlanLemmas::call_skipped, crate::proofs::PlanLemmas::call_none, crate::proofs::PlanLemmas::calls_end))]
pub fn calls(alloc: Global, ss: &[Stmt]) -> Result<Option<Vec<PlanCall>>, AllocError>
    ensures { IfOk result (λ found. calls_in found ≡ calls_of (map bare_stmt ss.now)) }
{
    let mut found = Vec::new(alloc);
    for next in ss {
        if is_call(next) {
            match call_of(alloc, next)? {
                Some(call) => found.push(call)?,
                None => return Ok(None),
            }
        }
    }
    Ok(Some(found))
}
