ghost use Rattle.std.specs.Prelude.{◌≡◌, ◌≤◌, ◌⊎◌, [], map, IfOk, IfErr, OnOk, length};
ghost use Rattle.std.specs.List.{AllByRecursion};
ghost use Rattle.pb_program.specs.Trees.{bare_prog, bare_transform as resolved_transform};
ghost use Rattle.pb_program.specs.WellFormed.{IsWellFormed};
ghost use Rattle.pb_syntax.specs.declared.limits.TheConstants.{MOST_TRANSFORMS};
ghost use Rattle.pb_syntax.specs.Trees.{bare_text, bare_transform};
ghost use Rattle.pb_names.specs.Faults.{Fails};
ghost use Rattle.pb_names.specs.declared.fault.Fault.TheVariants.{Memory};
ghost use Rattle.pb_resolve.specs.Programs.{IsTransformWithin, first_in, named_faults_in, next_in, transform_in};
ghost use Rattle.pb_names.specs.Transforms.{IsRefused, IsResolved, faults_of, first_names, refusal_of};
ghost use Rattle.pb_syntax.specs.declared.refusal.Refusal.TheVariants as refused;
ghost use Rattle.pb_syntax.specs.WithinLimits.{IsWithinLimits};
ghost use Rattle.pb_names.specs.Turns.{turns, turn_faults};

use crate::transform::transform;
use pb_names::{Fault, Names, copy_name, function_of, refusal};
use pb_program::{Prog, Transform};
use pb_syntax::{Refusal, Text, TransformText};
use std::alloc::Global;

/// Adds a transform's name with its number, if no earlier transform has it.
#[tactic(auto, unfolding(crate::specs::Programs::first_in))]
fn put_first<'t>(names: &mut Names<'t, u32>, k: u32, t: &'t TransformText) -> Result<(), Fault>
    ensures left { OnOk result (names.new ≡ first_in k names.old t.now) }
    ensures refused { IfErr result (λ f. f ≡ Memory) }
{
    if names.find(t.name.bytes()).is_none() {
        names.add(t.name.bytes(), k)?;
    }
    Ok(())
}

/// The numbers of transforms by their names.
#[tactic(auto, using(crate::proofs::ProgramLemmas::first_next, crate::proofs::ProgramLemmas::first_end))]
fn all_names<'t>(alloc: Global, ts: &'t [TransformText]) -> Result<Names<'t, u32>, Fault>
    requires { length ts.now ≤ MOST_TRANSFORMS }
    ensures found { IfOk result (λ names. names ≡ first_names 0 [] (map bare_transform ts.now)) }
    ensures refused { IfErr result (λ f. f ≡ Memory) }
{
    let mut names = Names::new(alloc);
    for (k, t) in ts.iter().enumerate() {
        put_first(&mut names, k as u32, t)?;
    }
    Ok(names)
}

/// Resolves a transform whose name isn't an earlier one's or a function's.
#[tactic(auto, using(crate::proofs::FaultLemmas::fails_left, crate::proofs::FaultLemmas::fails_right, crate::proofs::FaultLemmas::fails_memory), unfolding(crate::specs::Programs::named_faults_in, crate::specs::Programs::next_in, crate::specs::Programs::transform_in, crate::specs::Programs::IsTransformWithin))]
fn named<'t>(
    alloc: Global,
    all: &Names<'t, u32>,
    known: &mut Names<'t, u32>,
    t: &'t TransformText,
) -> Result<Transform, Fault>
    requires { IsTransformWithin t.now }
    ensures found { IfOk result (λ x. resolved_transform x ≡ transform_in all.now t.now) }
    ensures left { OnOk result (known.new ≡ next_in known.old t.now) }
    ensures faultless { OnOk result (named_faults_in all.now known.old t.now ≡ []) }
    ensures refused { IfErr result (λ f. Fails f (named_faults_in all.now known.old t.now)) }
{
    if function_of(t.name.bytes()).is_some() || known.find(t.name.bytes()).is_some() {
        return Err(Fault::Duplicate(copy_name(alloc, &t.name)?));
    }
    let found = transform(alloc, all, t)?;
    known.add(t.name.bytes(), 0)?;
    Ok(found)
}

#[tactic(auto, using(crate::proofs::FaultLemmas::fails_memory, crate::proofs::TurnLemmas::none_turned, crate::proofs::TurnLemmas::turned, crate::proofs::TurnLemmas::all_clean, crate::proofs::TurnLemmas::all_built))]
fn transforms<'t>(
    alloc: Global,
    all: &Names<'t, u32>,
    ts: &'t [TransformText],
) -> Result<Vec<Transform>, Fault>
    requires { AllByRecursion IsTransformWithin ts.now }
    ensures found { IfOk result (λ xs. map resolved_transform xs.items ≡ turns next_in (λ _ t. transform_in all.now t) [] ts.now) }
    ensures faultless { OnOk result (turn_faults next_in (named_faults_in all.now) [] ts.now ≡ []) }
    ensures refused { IfErr result (λ f. Fails f (turn_faults next_in (named_faults_in all.now) [] ts.now)) }
{
    let mut known = Names::new(alloc);
    let mut found = Vec::new(alloc);
    for next in ts {
        found.push(named(alloc, all, &mut known, next)?)?;
    }
    Ok(found)
}

#[tactic(auto, using(crate::proofs::FaultLemmas::fails_memory, crate::proofs::ProgramLemmas::all_within, crate::proofs::ProgramLemmas::resolved, crate::proofs::ProgramLemmas::faults_told))]
fn resolved(alloc: Global, ts: &[TransformText]) -> Result<Vec<Transform>, Fault>
    requires { IsWithinLimits (map bare_transform ts.now) }
    ensures found { IfOk result (λ xs. IsResolved (map bare_transform ts.now) (map resolved_transform xs.items)) }
    ensures refused { IfErr result (λ f. Fails f (faults_of (map bare_transform ts.now))) }
{
    let all = all_names(alloc, ts)?;
    let found = transforms(alloc, &all, ts)?;
    Ok(found)
}

/// The program that a tree within the limits is, with each name resolved; refused for the first of its faults, in the order
/// of the text: a name that is there already, that isn't there or that is no size variable, or an output that a rule can't
/// have.
#[tactic(auto, using(crate::proofs::ProgramLemmas::refused))]
pub fn resolve(alloc: Global, text: &Text) -> Result<Prog, Refusal>
    requires { IsWithinLimits (bare_text text.now) }
    ensures found { IfOk result (λ p. IsResolved (bare_text text.now) (bare_prog p)) }
    ensures well_formed { IfOk result (λ p. IsWellFormed (bare_prog p)) }
    ensures refused { IfErr result (λ e. (e ≡ refused.Memory) ⊎ IsRefused (bare_text text.now) e) }
{
    match resolved(alloc, text.transforms.as_slice()) {
        Ok(transforms) => Ok(Prog { transforms }),
        Err(fault) => Err(refusal(fault)),
    }
}
