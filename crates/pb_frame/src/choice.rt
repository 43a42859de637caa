ghost use Rattle.std.specs.Prelude.{◌≡◌, ◌<◌, ◌≤◌, IfOk, filter, length};
ghost use Rattle.std.specs.List.{All};
ghost use Rattle.pb_linear.specs.Sizes.{sizes_of};
ghost use Rattle.pb_syntax.specs.declared.limits.TheConstants.{MOST_RULES};
ghost use Rattle.pb_program.specs.Configs.{is_in};
ghost use Rattle.pb_program.specs.Trees.{bare_rule, bare_transform};
ghost use Rattle.pb_region.specs.Small.{IsSmallRule};
ghost use Rattle.pb_check.specs.Sites.{is_least, least_of, priority};
ghost use Rattle.pb_frame.specs.Choices.{meets_at, met_of};

use crate::guard::meets;
use crate::lists::push_if;
use pb_linear::{SIZE_TOP, Sizes};
use pb_program::Transform;
use std::alloc::{AllocError, Global};

/// Whether the conditions of the rule with this number hold as far as no rule variable plays a part.
#[tactic(auto, using(crate::proofs::ChoiceLemmas::met_there))]
fn meets_at(transform: &Transform, s: &Sizes, k: u32) -> bool
    requires sizes { All (λ size. size ≤ SIZE_TOP) s.now.of }
    requires small { All IsSmallRule (bare_transform transform.now).rules }
    ensures { result ≡ meets_at (bare_transform transform.now) (sizes_of s.now) k }
{
    match transform.rules.get(k as usize) {
        Some(rule) => meets(&transform.matrices, rule, s),
        None => false,
    }
}

/// The numbers of the rules whose conditions hold so, rising.
#[tactic(auto, unfolding(crate::specs::Choices::met_of), using(crate::proofs::ListLemmas::filter_next))]
pub(crate) fn met_of(
    alloc: Global,
    transform: &Transform,
    s: &Sizes,
) -> Result<Vec<u32>, AllocError>
    requires sizes { All (λ size. size ≤ SIZE_TOP) s.now.of }
    requires few { length transform.now.rules ≤ MOST_RULES }
    requires small { All IsSmallRule (bare_transform transform.now).rules }
    ensures { IfOk result (λ met. met.items ≡ met_of (bare_transform transform.now) (sizes_of s.now)) }
{
    let mut met = Vec::new(alloc);
    for k in 0..transform.rules.len() as u32 {
        push_if(&mut met, k, meets_at(transform, s, k))?;
    }
    Ok(met)
}

/// Whether a rule is among these.
fn is_among(rules: &[u32], rule: u32) -> bool
    ensures { result ≡ is_in rules.now rule }
{
    rules.iter().any(|other| *other == rule)
}

/// Those of some rules that are among a segment's.
fn kept(alloc: Global, met: &[u32], rules: &[u32]) -> Result<Vec<u32>, AllocError>
    ensures { IfOk result (λ able. able.items ≡ filter (is_in rules.now) met.now) }
{
    let mut able = Vec::new(alloc);
    for rule in met {
        if is_among(rules, *rule) {
            able.push(*rule)?;
        }
    }
    Ok(able)
}

/// The priority of the rule with this number, 0 where there is no such rule.
fn priority(transform: &Transform, rule: u32) -> u32
    ensures { result ≡ priority (bare_transform transform.now) rule }
{
    match transform.rules.get(rule as usize) {
        Some(rule) => rule.priority,
        None => 0,
    }
}

/// Whether none of these rules has a smaller priority.
fn is_least(transform: &Transform, rules: &[u32], rule: u32) -> bool
    ensures { result ≡ is_least (bare_transform transform.now) rules.now rule }
{
    rules.iter().all(|other| priority(transform, rule) <= priority(transform, *other))
}

/// Those rules whose priority is the least among them.
#[tactic(auto, unfolding(pb_check::specs::Sites::least_of))]
fn least_of(alloc: Global, transform: &Transform, rules: &[u32]) -> Result<Vec<u32>, AllocError>
    ensures { IfOk result (λ set. set.items ≡ least_of (bare_transform transform.now) rules.now) }
{
    let mut set = Vec::new(alloc);
    for rule in rules {
        if is_least(transform, rules, *rule) {
            set.push(*rule)?;
        }
    }
    Ok(set)
}

/// Those of some rules that are among a segment's and have the least priority: the rules that may make the segment's cells.
pub(crate) fn lawful_of(
    alloc: Global,
    transform: &Transform,
    met: &[u32],
    rules: &[u32],
) -> Result<Vec<u32>, AllocError>
    ensures { IfOk result (λ set. set.items ≡ least_of (bare_transform transform.now) (filter (is_in rules.now) met.now)) }
{
    let able = kept(alloc, met, rules)?;
    least_of(alloc, transform, &able)
}
