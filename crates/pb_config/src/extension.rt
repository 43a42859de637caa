ghost use Rattle.std.specs.Prelude.{◌≡◌, ◌↔◌, ◌<◌, IfOk, IfSome, IsTrue, List, None, length};
ghost use Rattle.std.specs.List.{position_or_len};
ghost use Rattle.pb_program.specs.Configs.{IsSite, IsValid, is_cutoff, is_in, same_site};
ghost use Rattle.pb_program.specs.Trees.{ProgTransform};
ghost use Rattle.pb_config.specs.Extension.{extended, is_nothing_new, selector_at, with_entry, with_selector};

use crate::choice::MOST_CUTOFFS;
use crate::chosen::is_at;
use pb_program::{Config, Entry, Selector, Site};
use std::alloc::{AllocError, Global};

fn copy_site(alloc: Global, site: &Site) -> Result<Site, AllocError>
    ensures { IfOk result (λ copy. copy ≡ site.now) }
{
    Ok(Site {
        transform: site.transform,
        matrix: site.matrix,
        set: Vec::from_slice(alloc, &site.set)?,
    })
}

fn copy_selector(alloc: Global, selector: &Selector) -> Result<Selector, AllocError>
    ensures { IfOk result (λ copy. copy ≡ selector.now) }
{
    Ok(Selector {
        first: selector.first,
        levels: Vec::from_slice(alloc, &selector.levels)?,
    })
}

fn copy_entries(alloc: Global, entries: &[Entry]) -> Result<Vec<Entry>, AllocError>
    ensures { IfOk result (λ copy. copy.items ≡ entries.now) }
{
    let mut copy = Vec::with_capacity(alloc, entries.len())?;
    for entry in entries {
        copy.push(Entry {
            site: copy_site(alloc, &entry.site)?,
            selector: copy_selector(alloc, &entry.selector)?,
        })?;
    }
    Ok(copy)
}

// The levels at a site: those of its entry, or else the first rule of its set alone.
fn selector_at(alloc: Global, c: &Config, site: &Site) -> Result<Selector, AllocError>
    requires some { 0 < length site.now.set }
    ensures { IfOk result (λ s. s ≡ selector_at c.now site.now) }
{
    for entry in &c.entries {
        if is_at(&entry.site, site.transform, site.matrix, &site.set) {
            return copy_selector(alloc, &entry.selector);
        }
    }
    Ok(Selector {
        first: site.set[0],
        levels: Vec::new(alloc),
    })
}

// Whether the last level has this rule, 8 levels are there, or the last cutoff is at least the size.
fn is_nothing_new(selector: &Selector, size: u64, rule: u32) -> bool
    ensures { result ≡ is_nothing_new selector.now size rule }
{
    if selector.levels.len() >= MOST_CUTOFFS {
        return true;
    }
    match selector.levels.last() {
        Some((cutoff, last)) => *last == rule || *cutoff >= size,
        None => selector.first == rule,
    }
}

// The place of the entry of a site, or the number of entries where it has none.
fn place_of(entries: &[Entry], site: &Site) -> usize
    ensures { result ≡ position_or_len (λ e. same_site site.now e.site) entries.now }
{
    for (k, entry) in entries.iter().enumerate() {
        if is_at(&entry.site, site.transform, site.matrix, &site.set) {
            return k;
        }
    }
    entries.len()
}

// The entries with these levels for a site, in the place of its entry or after all others.
fn with_entry(
    alloc: Global,
    entries: &[Entry],
    site: &Site,
    selector: Selector,
) -> Result<Vec<Entry>, AllocError>
    ensures { IfOk result (λ all. all.items ≡ with_entry (record { site = site.now; selector = selector }) entries.now) }
{
    let place = place_of(entries, site);
    let site = copy_site(alloc, site)?;
    let mut all = copy_entries(alloc, entries)?;
    if place < entries.len() {
        all[place] = Entry { site, selector };
        return Ok(all);
    }
    all.push(Entry { site, selector })?;
    Ok(all)
}

// The configuration with these levels at a site.
fn with_selector(
    alloc: Global,
    c: &Config,
    site: &Site,
    selector: Selector,
) -> Result<Config, AllocError>
    ensures { IfOk result (λ e. e ≡ with_selector c.now site.now selector) }
{
    Ok(Config {
        entries: with_entry(alloc, &c.entries, site, selector)?,
    })
}

/// The configuration with one more level at a site: the rule from the size on. A site without an entry gets one after all
/// others, which has the first rule of the set below the size.
///
/// Answers `None` where that says nothing new: the last level has this rule, 8 levels are there, or the last cutoff is at
/// least the size.
pub fn extend(
    alloc: Global,
    c: &Config,
    site: &Site,
    size: u64,
    rule: u32,
) -> Result<Option<Config>, AllocError>
    requires rule { IsTrue (is_in site.now.set rule) }
    requires size { IsTrue (is_cutoff size) }
    ensures found { IfOk result (λ o. o ≡ extended c.now site.now size rule) }
    ensures none { IfOk result (λ o. (o ≡ None) ↔ IsTrue (is_nothing_new (selector_at c.now site.now) size rule)) }

    // It stays valid for a program of which this is a site.
    ensures valid { IfOk result (λ o. IfSome o (λ e. (p : List ProgTransform) → IsValid p c.now → IsSite p site.now → IsValid p e)) }
{
    let mut selector = selector_at(alloc, c, site)?;
    if is_nothing_new(&selector, size, rule) {
        return Ok(None);
    }
    selector.levels.push((size, rule))?;
    Ok(Some(with_selector(alloc, c, site, selector)?))
}
