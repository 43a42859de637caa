//! Names and types: each fault that a program can have, with its place, and programs that have none.
ghost use Rattle.std.specs.Prelude.{◌≡◌};

mod rows;

use pb_front::{a_tree_that_is_read_is_within_limits, read_text};
use pb_prog::Refusal;
use pb_resolve::{Prog, resolve};
use pb_types::check_types;
use rows::ROWS;
use std::alloc::{AllocError, Global};
use std::str;
use std::test::Fail;

fn judge(alloc: Global, text: &str) -> Result<Prog, Refusal> {
    let tree = read_text(alloc, text.as_bytes())?;
    a_tree_that_is_read_is_within_limits();
    let program = resolve(alloc, &tree)?;
    check_types(alloc, &program)?;
    Ok(program)
}

fn shown(bytes: &[u8]) -> &str {
    match str::from_utf8(bytes) {
        Ok(name) => name,
        Err(_) => "",
    }
}

// What is said of a text.
fn said(alloc: Global, text: &str) -> Result<String, AllocError> {
    match judge(alloc, text) {
        Ok(_) => format!(in alloc; "accepted"),
        Err(Refusal::DuplicateName { name, at }) => {
            let name = shown(name.bytes());
            format!(in alloc; "duplicate {name} at {at}")
        }
        Err(Refusal::UnknownName { name, at }) => {
            let name = shown(name.bytes());
            format!(in alloc; "unknown {name} at {at}")
        }
        Err(Refusal::SizeNotBound { name, at }) => {
            let name = shown(name.bytes());
            format!(in alloc; "not bound {name} at {at}")
        }
        Err(Refusal::BadOutput { at }) => format!(in alloc; "bad output at {at}"),
        Err(Refusal::BadType { at }) => format!(in alloc; "bad type at {at}"),
        Err(_) => format!(in alloc; "another refusal"),
    }
}

// What is said of a text, and what a row says: a word, a bar, and the text, with a sign before the place of its fault.
fn found_and_expected(alloc: Global, row: &str) -> Result<(String, String), AllocError> {
    let Some((word, marked)) = row.split_once('|') else {
        return Ok((format!(in alloc; "no bar")?, format!(in alloc; "a bar")?));
    };
    match marked.split_once('@') {
        Some((head, tail)) => {
            let text = format!(in alloc; "{head}{tail}")?;
            let at = head.len();
            Ok((
                said(alloc, text.as_str())?,
                format!(in alloc; "{word} at {at}")?,
            ))
        }
        None => Ok((said(alloc, marked)?, format!(in alloc; "{word}")?)),
    }
}

#[test]
fn names_and_types_are_judged_by_their_places(rt: HostRuntime) -> Result<(), Fail> {
    for row in ROWS.lines() {
        let (found, expected) = found_and_expected(rt.alloc(), row)?;
        assert!(rt; found.as_str() == expected.as_str(), "{row}: {found}");
    }
    Ok(())
}
