ghost use Rattle.std.specs.Prelude.{◌≡◌, IfOk};

use pb_program::{Config, Entry, Selector, Site};
use std::alloc::{AllocError, Global};

fn copy_site(alloc: Global, site: &Site) -> Result<Site, AllocError>
    ensures { IfOk result (λ copy. copy ≡ site.now) }
{
    Ok(Site {
        transform: site.transform,
        matrix: site.matrix,
        set: Vec::from_slice(alloc, &site.set)?,
    })
}

fn copy_selector(alloc: Global, selector: &Selector) -> Result<Selector, AllocError>
    ensures { IfOk result (λ copy. copy ≡ selector.now) }
{
    Ok(Selector {
        first: selector.first,
        levels: Vec::from_slice(alloc, &selector.levels)?,
    })
}

pub(crate) fn copy_config(alloc: Global, config: &Config) -> Result<Config, AllocError>
    ensures { IfOk result (λ copy. copy ≡ config.now) }
{
    let mut entries = Vec::with_capacity(alloc, config.entries.len())?;
    for entry in &config.entries {
        entries.push(Entry {
            site: copy_site(alloc, &entry.site)?,
            selector: copy_selector(alloc, &entry.selector)?,
        })?;
    }
    Ok(Config { entries })
}
