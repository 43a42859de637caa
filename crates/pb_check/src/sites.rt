ghost use Rattle.std.specs.Prelude.{◌≡◌, ◌≤◌, IfOk, length};
ghost use Rattle.pb_syntax.specs.declared.limits.TheConstants.{MOST_TRANSFORMS};
ghost use Rattle.std.specs.List.{list_any};
ghost use Rattle.pb_program.specs.Configs.{same_site};
ghost use Rattle.pb_program.specs.Trees.{bare_prog, bare_transform};
ghost use Rattle.pb_check.specs.Sites.{all_sites, is_least, least_of, priority, sites_of};
ghost use Rattle.pb_check.specs.Orders.{AreFound};

use crate::orders::Analysis;
use pb_graph::Node;
use pb_program::{Prog, Site, Transform};
use std::alloc::{AllocError, Global};

/// The priority of the rule with this number, 0 where there is no such rule.
fn priority(transform: &Transform, rule: u32) -> u32
    ensures { result ≡ priority (bare_transform transform.now) rule }
{
    match transform.rules.get(rule as usize) {
        Some(rule) => rule.priority,
        None => 0,
    }
}

/// Whether none of these rules has a smaller priority.
fn is_least(transform: &Transform, rules: &[u32], rule: u32) -> bool
    ensures { result ≡ is_least (bare_transform transform.now) rules.now rule }
{
    rules.iter().all(|other| priority(transform, rule) <= priority(transform, *other))
}

/// Those rules whose priority is the least among them.
#[tactic(auto, unfolding(crate::specs::Sites::least_of))]
fn least_of(alloc: Global, transform: &Transform, rules: &[u32]) -> Result<Vec<u32>, AllocError>
    ensures { IfOk result (λ set. set.items ≡ least_of (bare_transform transform.now) rules.now) }
{
    let mut set = Vec::new(alloc);
    for rule in rules {
        if is_least(transform, rules, *rule) {
            set.push(*rule)?;
        }
    }
    Ok(set)
}

fn is_at(site: &Site, t: u32, matrix: u32, set: &[u32]) -> bool
    ensures { result ≡ same_site site.now (record { transform = t; matrix = matrix; set = set.now }) }
{
    site.transform == t && site.matrix == matrix && site.set.as_slice() == set
}

/// Whether the site of this set is among these.
fn is_listed(sites: &[Site], t: u32, matrix: u32, set: &[u32]) -> bool
    ensures { result ≡ list_any (λ site. same_site site (record { transform = t; matrix = matrix; set = set.now })) sites.now }
{
    sites.iter().any(|site| is_at(site, t, matrix, set))
}

/// The sites of a transform with this number: of each of its segments, in their order, the rules of least priority, if there
/// are two or more and the same set of the same matrix wasn't listed before.
pub fn sites_of(
    alloc: Global,
    t: u32,
    transform: &Transform,
    nodes: &[Node],
) -> Result<Vec<Site>, AllocError>
    ensures { IfOk result (λ sites. sites.items ≡ sites_of t (bare_transform transform.now) nodes.now) }
{
    let mut sites = Vec::new(alloc);
    for node in nodes {
        let set = least_of(alloc, transform, &node.rules)?;
        if set.len() < 2 || is_listed(&sites, t, node.matrix, &set) {
            continue;
        }
        sites.push(Site {
            transform: t,
            matrix: node.matrix,
            set,
        })?;
    }
    Ok(sites)
}

/// The sites of all transforms, one after the other.
pub(crate) fn all_sites(
    alloc: Global,
    p: &Prog,
    found: &[Analysis],
) -> Result<Vec<Site>, AllocError>
    requires few { length (bare_prog p.now) ≤ MOST_TRANSFORMS }
    requires found { AreFound (bare_prog p.now) found.now }
    ensures { IfOk result (λ sites. sites.items ≡ all_sites (bare_prog p.now) found.now) }
{
    let mut sites = Vec::new(alloc);
    for (t, transform) in p.transforms.iter().enumerate() {
        let mut more = sites_of(alloc, t as u32, transform, found[t].nodes())?;
        sites.append(&mut more)?;
    }
    Ok(sites)
}
