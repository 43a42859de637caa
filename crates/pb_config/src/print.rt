ghost use Rattle.std.specs.Prelude.{◌≡◌, ◌++◌, IfOk, OnOk, decimal, map};
ghost use Rattle.std.specs.List.{flat_map, join_with_byte};
ghost use Rattle.pb_program.specs.Trees.{bare_prog, bare_transform};
ghost use Rattle.pb_config.specs.Texts.{config_text, entry_text, level_text, names_text, selector_text, site_text};

use itoa::Buffer;
use pb_program::{Config, Entry, Prog, Selector, Site, Transform};
use std::alloc::{AllocError, Global};

fn write_number(text: &mut Vec<u8>, number: u64) -> Result<(), AllocError>
    ensures { OnOk result (text.new.items ≡ text.old.items ++ decimal number) }
{
    let mut buffer = Buffer::new();
    text.extend_from_slice(buffer.format(number).as_bytes())
}

// Numbers with commas between them.
fn write_set(text: &mut Vec<u8>, set: &[u32]) -> Result<(), AllocError>
    ensures { OnOk result (text.new.items ≡ text.old.items ++ join_with_byte 44 (map decimal set.now)) }
{
    let mut rest = set;
    while let [first, after @ ..] = rest {
        write_number(text, u64::from(*first))?;
        if after.is_empty() {
            return Ok(());
        }
        text.extend_from_slice(b",")?;
        rest = after;
    }
    Ok(())
}

// The names of a transform and of a matrix, of those that are there, with a point between them.
fn write_names(
    text: &mut Vec<u8>,
    p: &[Transform],
    transform: u32,
    matrix: u32,
) -> Result<(), AllocError>
    ensures { OnOk result (text.new.items ≡ text.old.items ++ names_text (map bare_transform p.now) transform matrix) }
{
    let Some(t) = p.get(transform as usize) else {
        return text.extend_from_slice(b".");
    };
    text.extend_from_slice(t.name.bytes())?;
    text.extend_from_slice(b".")?;
    match t.matrices.get(matrix as usize) {
        Some(m) => text.extend_from_slice(m.name.bytes()),
        None => Ok(()),
    }
}

// `T.M {0,1}`.
fn write_site(text: &mut Vec<u8>, p: &[Transform], site: &Site) -> Result<(), AllocError>
    ensures { OnOk result (text.new.items ≡ text.old.items ++ site_text (map bare_transform p.now) site.now) }
{
    write_names(text, p, site.transform, site.matrix)?;
    text.extend_from_slice(b" {")?;
    write_set(text, &site.set)?;
    text.extend_from_slice(b"}")
}

fn write_level(text: &mut Vec<u8>, cutoff: u64, rule: u32) -> Result<(), AllocError>
    ensures { OnOk result (text.new.items ≡ text.old.items ++ level_text (cutoff, rule)) }
{
    text.extend_from_slice(b" until ")?;
    write_number(text, cutoff)?;
    text.extend_from_slice(b" then ")?;
    write_number(text, u64::from(rule))
}

fn write_selector(text: &mut Vec<u8>, selector: &Selector) -> Result<(), AllocError>
    ensures { OnOk result (text.new.items ≡ text.old.items ++ selector_text selector.now) }
{
    write_number(text, u64::from(selector.first))?;
    for (cutoff, rule) in &selector.levels {
        write_level(text, *cutoff, *rule)?;
    }
    Ok(())
}

fn write_entry(text: &mut Vec<u8>, p: &[Transform], entry: &Entry) -> Result<(), AllocError>
    ensures { OnOk result (text.new.items ≡ text.old.items ++ entry_text (map bare_transform p.now) entry.now) }
{
    text.extend_from_slice(b"choose ")?;
    write_site(text, p, &entry.site)?;
    text.extend_from_slice(b" = ")?;
    write_selector(text, &entry.selector)?;
    text.extend_from_slice(b"\n")
}

/// The text of a configuration of a program: one line for each entry, as `choose T.M {0,1} = 0 until 4 then 1`.
pub fn print_config(alloc: Global, c: &Config, p: &Prog) -> Result<Vec<u8>, AllocError>
    ensures text { IfOk result (λ text. text.items ≡ config_text (bare_prog p.now) c.now) }
{
    let mut text = Vec::new(alloc);
    for entry in &c.entries {
        write_entry(&mut text, &p.transforms, entry)?;
    }
    Ok(text)
}
