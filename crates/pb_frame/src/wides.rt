ghost use Rattle.std.specs.Prelude.{◌≡◌, ◌≤◌, ◌++◌, ◌&&◌, ◌==◌, IfOk, OnOk, length, map};
ghost use Rattle.std.specs.List.{list_any};
ghost use Rattle.pb_frame.specs.declared.part.FramePart.{FramePart};
ghost use Rattle.pb_syntax.specs.declared.limits.TheConstants.{MOST_RULES};
ghost use Rattle.pb_program.specs.Trees.{bare_rule, bare_transform};
ghost use Rattle.pb_region.specs.Boxes.{is_wide};
ghost use Rattle.pb_frame.specs.Frames.{chosen_wides, is_wide_rule, of_rule, wide_job};

use crate::job::Job;
use crate::lists::push_if;
use crate::part::FramePart;
use pb_program::{Rule, RuleKind, Transform};
use std::alloc::{AllocError, Global};

/// Whether a rule isn't for single cells.
pub(crate) fn is_wide(rule: &Rule) -> bool
    ensures { result ≡ is_wide (bare_rule rule.now).kind }
{
    match rule.kind {
        RuleKind::Cell => false,
        RuleKind::Wide => true,
        RuleKind::Plan => true,
    }
}

fn has_rule(parts: &[FramePart], k: u32) -> bool
    ensures { result ≡ list_any (λ (part : FramePart). part.rule == k) parts.now }
{
    parts.iter().any(|part| part.rule == k)
}

/// Whether the rule with this number isn't for single cells.
fn is_wide_rule(transform: &Transform, k: u32) -> bool
    ensures { result ≡ is_wide_rule (bare_transform transform.now) k }
{
    match transform.rules.get(k as usize) {
        Some(rule) => is_wide(rule),
        None => false,
    }
}

fn is_chosen_wide(transform: &Transform, parts: &[FramePart], k: u32) -> bool
    ensures { result ≡ (is_wide_rule (bare_transform transform.now) k && list_any (λ (part : FramePart). part.rule == k) parts.now) }
{
    is_wide_rule(transform, k) && has_rule(parts, k)
}

/// The rules that aren't for single cells and are chosen for some of these parts, by number.
#[tactic(auto, using(crate::proofs::ListLemmas::filter_next))]
fn chosen_wides(
    alloc: Global,
    transform: &Transform,
    parts: &[FramePart],
) -> Result<Vec<u32>, AllocError>
    requires { length transform.now.rules ≤ MOST_RULES }
    ensures { IfOk result (λ rules. rules.items ≡ chosen_wides (bare_transform transform.now) parts.now) }
{
    let mut rules = Vec::new(alloc);
    for k in 0..transform.rules.len() as u32 {
        push_if(&mut rules, k, is_chosen_wide(transform, parts, k))?;
    }
    Ok(rules)
}

/// Those of some parts for which this rule is chosen.
fn of_rule(alloc: Global, k: u32, parts: &[FramePart]) -> Result<Vec<FramePart>, AllocError>
    ensures { IfOk result (λ found. found.items ≡ of_rule k parts.now) }
{
    let mut found = Vec::new(alloc);
    for part in parts {
        if part.rule == k {
            found.push(*part)?;
        }
    }
    Ok(found)
}

fn list_wides(wides: &mut Vec<(u32, u32)>, layer: u32, rules: &[u32]) -> Result<(), AllocError>
    ensures { OnOk result (wides.new.items ≡ wides.old.items ++ map (λ k. (layer, k)) rules.now) }
{
    for k in rules {
        wides.push((layer, *k))?;
    }
    Ok(())
}

fn add_jobs(
    alloc: Global,
    jobs: &mut Vec<Job>,
    layer: u32,
    parts: &[FramePart],
    rules: &[u32],
) -> Result<(), AllocError>
    ensures { OnOk result (jobs.new.items ≡ jobs.old.items ++ map (wide_job layer parts.now) rules.now) }
{
    for k in rules {
        jobs.push(Job {
            layer,
            rule: Some(*k),
            parts: of_rule(alloc, *k, parts)?,
        })?;
    }
    Ok(())
}

/// Adds the jobs of a layer's rules that aren't for single cells, by number.
pub(crate) fn add_wides(
    alloc: Global,
    wides: &mut Vec<(u32, u32)>,
    jobs: &mut Vec<Job>,
    transform: &Transform,
    layer: u32,
    parts: &[FramePart],
) -> Result<(), AllocError>
    requires { length transform.now.rules ≤ MOST_RULES }
    ensures wides { OnOk result (wides.new.items ≡ wides.old.items ++ map (λ k. (layer, k)) (chosen_wides (bare_transform transform.now) parts.now)) }
    ensures jobs { OnOk result (jobs.new.items ≡ jobs.old.items ++ map (wide_job layer parts.now) (chosen_wides (bare_transform transform.now) parts.now)) }
{
    let rules = chosen_wides(alloc, transform, parts)?;
    list_wides(wides, layer, &rules)?;
    add_jobs(alloc, jobs, layer, parts, &rules)
}
