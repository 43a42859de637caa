ghost use Rattle.std.specs.Prelude.{◌≡◌, ◌∷◌, [], ◌++◌, false, map, length, IfOk, IfErr, OnOk, slice_get};
ghost use Rattle.std.specs.List.{flat_map};
ghost use Rattle.std.specs.Option.{option_and_then, option_map_or};
ghost use Rattle.pb_syntax.specs.declared.refusal.Refusal.TheVariants.{Memory};
ghost use Rattle.pb_types.specs.Least.{least_of};
ghost use Rattle.pb_types.specs.Plans.{made_at, out_target, unmade};

use crate::least::{least, unless};
use crate::views::{dims_at, view_dims};
use pb_program::{Meaning, Named, Read};
use pb_syntax::Refusal;
use std::alloc::Global;
use std::marker::Model;

/// An output or a local of a plan: the place of its name in its view or its `let`; its number of dimensions, if it is a
/// matrix; and whether it was the target of a call. Nothing has to make a number, so it is made from the start.
#[derive(Clone, Copy)]
pub(crate) struct Target {
    pub(crate) at: u32,
    pub(crate) dims: Option<usize>,
    pub(crate) made: bool,
}

/// What a plan knows before a statement: its reads, and its outputs and the locals so far by their numbers.
#[derive(Drop)]
pub(crate) struct Known<'a> {
    reads: &'a [Read],
    outs: Vec<Target>,
    locals: Vec<Target>,
}

impl<'a> Model for Known<'a> {
    ghost use Rattle.pb_types.specs.Plans.{Known};

    ghost Value = { Known };

    ghost view = { λ k. record { reads = k.reads.now; outs = k.outs.items; locals = k.locals.items } };
}

fn is_made_at(targets: &[Target], number: u32) -> bool
    ensures { result ≡ option_map_or (λ t. t.made) (slice_get targets.now number) false }
{
    match targets.get(number as usize) {
        Some(target) => target.made,
        None => false,
    }
}

/// Says that a call has made the target with this number.
#[tactic(auto, using(crate::proofs::PlanLemmas::made_within, crate::proofs::PlanLemmas::made_past))]
fn make_at(targets: &mut Vec<Target>, number: u32)
    ensures { targets.new.items ≡ made_at targets.old.items number }
{
    let number = number as usize;
    if number < targets.len() {
        let old = targets[number];
        targets[number] = Target {
            at: old.at,
            dims: old.dims,
            made: true,
        };
    }
}

/// The least place of what no call has made.
#[tactic(auto, using(crate::proofs::LeastLemmas::least_at, crate::proofs::LeastLemmas::least_end))]
pub(crate) fn unmade(targets: &[Target]) -> Option<u32>
    ensures { result ≡ least_of (flat_map unmade targets.now) }
{
    let mut found = None;
    for next in targets {
        found = least(found, unmade_one(next));
    }
    found
}

#[tactic(auto, unfolding(crate::specs::Plans::unmade))]
fn unmade_one(t: &Target) -> Option<u32>
    ensures { result ≡ least_of (unmade t.now) }
{
    unless(t.made, t.at)
}

impl<'a> Known<'a> {
    ghost use Rattle.pb_types.specs.Plans.{target_of, known_dims, is_given, is_free, make, make_all, declare, targets_broken, never_made};

    /// What is known before the first statement.
    pub(crate) fn new(alloc: Global, outs: &[Read], reads: &'a [Read]) -> Result<Self, Refusal>
        ensures found { IfOk result (λ k. k ≡ record { reads = reads.now; outs = map out_target outs.now; locals = [] }) }
        ensures refused { IfErr result (λ e. e ≡ Memory) }
    {
        Ok(Known {
            reads,
            outs: out_targets(alloc, outs)?,
            locals: Vec::new(alloc),
        })
    }

    fn target(&self, named: Meaning) -> Option<Target>
        ensures { result ≡ target_of self.now named }
    {
        match named {
            Meaning::Output(k) => self.outs.get(k as usize).copied(),
            Meaning::Matrix(k) => self.locals.get(k as usize).copied(),
            _ => None,
        }
    }

    /// The number of dimensions of the matrix that is named.
    pub(crate) fn dims(&self, named: Meaning) -> Option<usize>
        ensures { result ≡ known_dims self.now named }
    {
        match named {
            Meaning::Read(k) => dims_at(self.reads, k),
            _ => self.target(named)?.dims,
        }
    }

    /// Whether what is named may be passed on.
    pub(crate) fn is_given(&self, named: Meaning) -> bool
        ensures { result ≡ is_given self.now named }
    {
        match named {
            Meaning::Read(_) => true,
            Meaning::Matrix(k) => is_made_at(&self.locals, k),
            _ => false,
        }
    }

    fn is_free(&self, named: Meaning) -> bool
        ensures { result ≡ is_free self.now named }
    {
        match self.target(named) {
            Some(target) => !target.made,
            None => false,
        }
    }

    fn make(&mut self, named: Meaning)
        ensures { self.new ≡ make self.old named }
    {
        match named {
            Meaning::Output(k) => make_at(&mut self.outs, k),
            Meaning::Matrix(k) => make_at(&mut self.locals, k),
            _ => {}
        }
    }

    /// Adds a local.
    pub(crate) fn declare(&mut self, local: Target) -> Result<(), Refusal>
        ensures declared { OnOk result (self.new ≡ declare self.old local) }
        ensures refused { IfErr result (λ e. e ≡ Memory) }
    {
        self.locals.push(local)?;
        Ok(())
    }

    /// Makes the targets of a call. The least place of one that is no output and no local, or was a target before.
    #[tactic(auto, using(crate::proofs::PlanLemmas::targets_next, crate::proofs::PlanLemmas::targets_end, crate::proofs::PlanLemmas::made_next, crate::proofs::PlanLemmas::made_end))]
    pub(crate) fn make_all(&mut self, targets: &[Named]) -> Option<u32>
        ensures found { result ≡ least_of (targets_broken self.old targets.now) }
        ensures left { self.new ≡ make_all self.old targets.now }
    {
        let mut found = None;
        for next in targets {
            found = least(found, unless(self.is_free(next.what), next.at));
            self.make(next.what);
        }
        found
    }

    /// The least place of an output or a local that no call has made.
    #[tactic(auto, using(crate::proofs::LeastLemmas::least_append))]
    pub(crate) fn never_made(&self) -> Option<u32>
        ensures { result ≡ least_of (never_made self.now) }
    {
        least(unmade(&self.outs), unmade(&self.locals))
    }
}

#[tactic(auto, using(crate::proofs::PlanLemmas::mapped_next))]
fn out_targets(alloc: Global, outs: &[Read]) -> Result<Vec<Target>, Refusal>
    ensures found { IfOk result (λ ts. ts.items ≡ map out_target outs.now) }
    ensures refused { IfErr result (λ e. e ≡ Memory) }
{
    let mut found = Vec::new(alloc);
    for next in outs {
        found.push(Target {
            at: next.at,
            dims: view_dims(next),
            made: false,
        })?;
    }
    Ok(found)
}
