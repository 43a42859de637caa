ghost use Rattle.std.specs.Prelude.{◌≡◌, ◌<◌, IfOk, MatchResult, Ok, false, map};
ghost use Rattle.pb_program.specs.Configs.{IsValid, has_site};
ghost use Rattle.pb_program.specs.Trees.{bare_prog, bare_transform};
ghost use Rattle.pb_program.specs.WellFormed.{IsWellFormed};
ghost use Rattle.pb_config.specs.Keys.{entry, site};
ghost use Rattle.pb_config.specs.Reading.{Fails, config_read, cutoffs_rise, entry_at, entry_of, rules_are_in};

use crate::choice::read_choice;
use crate::entries::{Entries, Key};
use crate::lines::{is_passed, split_line};
use crate::refusal::ConfigRefusal;
use crate::site::find_site;
use pb_program::{Config, Prog, Selector, Transform};
use std::alloc::Global;

fn rules_are_in(set: &[u32], selector: &Selector) -> bool
    ensures { result ≡ rules_are_in set.now selector.now }
{
    if !set.contains(&selector.first) {
        return false;
    }
    for level in &selector.levels {
        if !set.contains(&level.1) {
            return false;
        }
    }
    true
}

fn cutoffs_rise(selector: &Selector) -> bool
    ensures { result ≡ cutoffs_rise selector.now }
{
    let mut rest = selector.levels.as_slice();
    while let [(cutoff, _), after @ ..] = rest {
        if let [(next, _), ..] = after {
            if next <= cutoff {
                return false;
            }
        }
        rest = after;
    }
    true
}

// The entry of a site after others, in this line.
fn judge(
    before: &Entries,
    line: u64,
    key: Key,
    selector: Selector,
) -> Result<(Key, Selector), ConfigRefusal>
    ensures entry { MatchResult result (λ r. entry_at before.now line selector (site key) ≡ Ok (entry r)) (λ e. Fails e (entry_at before.now line selector (site key))) }
    ensures new { IfOk result (λ r. has_site (site r.0) before.now ≡ false) }
{
    if !rules_are_in(&key.2, &selector) {
        return Err(ConfigRefusal::NotInSet { line });
    }
    if !cutoffs_rise(&selector) {
        return Err(ConfigRefusal::CutoffsNotRising { line });
    }
    if before.has(&key) {
        return Err(ConfigRefusal::Twice { line });
    }
    Ok((key, selector))
}

// The entry that a line says after others.
fn read_entry(
    alloc: Global,
    p: &[Transform],
    before: &Entries,
    line: u64,
    text: &[u8],
) -> Result<(Key, Selector), ConfigRefusal>
    requires well_formed { IsWellFormed (map bare_transform p.now) }
    ensures entry { MatchResult result (λ r. entry_of (map bare_transform p.now) before.now line text.now ≡ Ok (entry r))
        (λ e. Fails e (entry_of (map bare_transform p.now) before.now line text.now)) }
    ensures new { IfOk result (λ r. has_site (site r.0) before.now ≡ false) }
{
    let choice = read_choice(alloc, line, text)?;
    let Some((t, matrix)) = find_site(p, choice.transform, choice.matrix, &choice.set) else {
        return Err(ConfigRefusal::UnknownPlace { line });
    };
    judge(before, line, (t, matrix, choice.set), choice.selector)
}

fn read_lines(alloc: Global, bytes: &[u8], p: &[Transform]) -> Result<Config, ConfigRefusal>
    requires well_formed { IsWellFormed (map bare_transform p.now) }
    ensures reads { MatchResult result (λ c. config_read (map bare_transform p.now) bytes.now ≡ Ok c) (λ e. Fails e (config_read (map bare_transform p.now) bytes.now)) }
    ensures valid { IfOk result (IsValid (map bare_transform p.now)) }
{
    let mut entries = Entries::new(alloc);
    let mut rest = bytes;
    let mut line: u64 = 0;
    while !rest.is_empty() {
        let (text, after) = split_line(rest);
        line += 1;
        rest = after;
        if is_passed(text) {
            continue;
        }
        let (key, selector) = read_entry(alloc, p, &entries, line, text)?;
        entries.add(key, selector)?;
    }
    Ok(Config {
        entries: entries.into_list(alloc)?,
    })
}

/// The configuration that a text says for a program. Each line is blank, or has a `#` first, or is of the form
/// `choose T.M {0,1} = 0 until 4 then 1`.
///
/// Refuses with the first faulty line, by the first of its faults: it isn't of the form; the place isn't there; a rule
/// isn't in the set; cutoffs don't rise; an earlier line has the same site.
pub fn read_config(alloc: Global, bytes: &[u8], p: &Prog) -> Result<Config, ConfigRefusal>
    requires well_formed { IsWellFormed (bare_prog p.now) }
    ensures reads { MatchResult result (λ c. config_read (bare_prog p.now) bytes.now ≡ Ok c) (λ e. Fails e (config_read (bare_prog p.now) bytes.now)) }

    // What is accepted is valid.
    ensures valid { IfOk result (IsValid (bare_prog p.now)) }
{
    read_lines(alloc, bytes, &p.transforms)
}
