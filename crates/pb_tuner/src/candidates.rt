ghost use Rattle.std.specs.Prelude.{◌≡◌, ◌++◌, IfOk, IsTrue, OnOk};
ghost use Rattle.std.specs.List.{AllByRecursion, flat_map};
ghost use Rattle.pb_program.specs.Configs.{is_cutoff};
ghost use Rattle.pb_tuner.specs.Tuned.{candidates, extensions};

use crate::copies::copy_config;
use pb_config::extend;
use pb_program::{Config, Site};
use std::alloc::{AllocError, Global};

// Puts the extensions by a site, one for each of its rules that says something new, after the others.
fn add_of_site(
    alloc: Global,
    c: &Config,
    site: &Site,
    size: u64,
    all: &mut Vec<Config>,
) -> Result<(), AllocError>
    requires { IsTrue (is_cutoff size) }
    ensures { OnOk result (all.new.items ≡ all.old.items ++ extensions size c.now site.now) }
{
    for rule in &site.set {
        if let Some(extended) = extend(alloc, c, site, size, *rule)? {
            all.push(extended)?;
        }
    }
    Ok(())
}

// Puts the extensions by all sites after the others.
fn add_of_sites(
    alloc: Global,
    c: &Config,
    sites: &[Site],
    size: u64,
    all: &mut Vec<Config>,
) -> Result<(), AllocError>
    requires { IsTrue (is_cutoff size) }
    ensures { OnOk result (all.new.items ≡ all.old.items ++ flat_map (extensions size c.now) sites.now) }
{
    for site in sites {
        add_of_site(alloc, c, site, size, all)?;
    }
    Ok(())
}

fn copy_configs(alloc: Global, configs: &[Config]) -> Result<Vec<Config>, AllocError>
    ensures { IfOk result (λ copy. copy.items ≡ configs.now) }
{
    let mut copy = Vec::with_capacity(alloc, configs.len())?;
    for config in configs {
        copy.push(copy_config(alloc, config)?)?;
    }
    Ok(copy)
}

/// The candidates at a size: the population, and the extensions of each member.
pub(crate) fn candidates(
    alloc: Global,
    sites: &[Site],
    size: u64,
    population: &[Config],
) -> Result<Vec<Config>, AllocError>
    requires { IsTrue (is_cutoff size) }
    ensures { IfOk result (λ all. all.items ≡ candidates sites.now size population.now) }
{
    let mut all = copy_configs(alloc, population)?;
    for member in population {
        add_of_sites(alloc, member, sites, size, &mut all)?;
    }
    Ok(all)
}
