//! Program texts: whether they are accepted, or why they are refused.
mod broken;
mod large;
mod layout;
mod limits;
mod printed;
mod small;

use broken::BROKEN;
use large::LARGE;
use layout::LAID_OUT;
use limits::LIMITS;
use pb_front::read_text;
use pb_lexer::{MOST_BYTES, tokens};
use pb_parser::parse;
use pb_prog::{Item, Refusal, print_text};
use printed::{PRINTED, WRITTEN};
use small::{SAID, WHOLE};
use std::alloc::{AllocError, Global};
use std::test::Fail;

/// What an item is called.
pub fn word(item: Item) -> &'static str {
    match item {
        Item::Transforms => "transforms",
        Item::Rules => "rules",
        Item::Matrices => "matrices",
        Item::Sizes => "sizes",
        Item::Outputs => "outputs",
        Item::Reads => "reads",
        Item::Conditions => "conditions",
        Item::Minimums => "minimums",
        Item::Targets => "targets",
        Item::Arguments => "arguments",
        Item::Terms => "terms",
        Item::Number => "number",
        Item::Statements => "statements",
        Item::Nesting => "nesting",
    }
}

fn told(alloc: Global, refusal: &Refusal) -> Result<String, AllocError> {
    match refusal {
        Refusal::TooLong => format!(in alloc; "too long"),
        Refusal::BadToken { at } => format!(in alloc; "bad token at {at}"),
        Refusal::BadSyntax { at } => format!(in alloc; "bad syntax at {at}"),
        Refusal::OverLimit { what, at } => {
            let what = word(*what);
            format!(in alloc; "over limit: {what} at {at}")
        }
        _ => format!(in alloc; "another refusal"),
    }
}

// What is said of a text.
fn said(alloc: Global, text: &[u8]) -> Result<String, AllocError> {
    let found = match tokens(alloc, text) {
        Ok(found) => found,
        Err(refusal) => return told(alloc, &refusal),
    };
    match parse(alloc, &found, text.len() as u32) {
        Ok(_) => format!(in alloc; "accepted"),
        Err(refusal) => told(alloc, &refusal),
    }
}

// A text, a part so often, and another text.
fn repeated(
    alloc: Global,
    head: &str,
    count: usize,
    part: &str,
    tail: &str,
) -> Result<String, AllocError> {
    let mut text = String::from_str(alloc, head)?;
    for _ in 0..count {
        text.push_str(part)?;
    }
    text.push_str(tail)?;
    Ok(text)
}

fn says(alloc: Global, text: &str, expected: &str) -> Result<bool, AllocError> {
    let found = said(alloc, text.as_bytes())?;
    Ok(found.as_str() == expected)
}

// Whether the tokens stop being the beginning of a program just after this text, which is no program itself.
fn stops_after(alloc: Global, text: &str, further: &str) -> Result<bool, AllocError> {
    let at = text.len();
    let expected = format!(in alloc; "bad syntax at {at}")?;
    let longer = format!(in alloc; "{text}{further}")?;
    Ok(says(alloc, text, expected.as_str())? && says(alloc, longer.as_str(), expected.as_str())?)
}

// Whether a text with a blank between its tokens is accepted, and stops where `transform` stands for any but the first.
fn each_token_counts(alloc: Global, text: &str) -> Result<bool, AllocError> {
    let mut before = String::new(alloc);
    for token in text.split(' ') {
        if !before.is_empty() && !stops_after(alloc, before.as_str(), "transform")? {
            return Ok(false);
        }
        before.push_str(token)?;
        before.push_str(" ")?;
    }
    says(alloc, text, "accepted")
}

// Whether a text stops at its mark.
fn stops_at_mark(alloc: Global, frame: &str, row: &str) -> Result<bool, AllocError> {
    let Some((before, after)) = row.split_once('^') else {
        return Ok(false);
    };
    let text = format!(in alloc; "{frame}{before}")?;
    stops_after(alloc, text.as_str(), after)
}

// Whether a text that may have a mark has this fault there, or is accepted without one.
fn has_at_mark(alloc: Global, text: &str, fault: &str) -> Result<bool, AllocError> {
    let Some((before, after)) = text.split_once('^') else {
        return says(alloc, text, "accepted");
    };
    let at = before.len();
    let expected = format!(in alloc; "{fault} at {at}")?;
    let unmarked = format!(in alloc; "{before}{after}")?;
    says(alloc, unmarked.as_str(), expected.as_str())
}

// Whether a row of three parts, with the one in the middle so often, has this fault at its mark.
fn limited(alloc: Global, fault: &str, count: usize, row: &str) -> Result<bool, AllocError> {
    let Some((head, rest)) = row.split_once(" | ") else {
        return Ok(false);
    };
    let Some((part, tail)) = rest.split_once(" | ") else {
        return Ok(false);
    };
    let text = repeated(alloc, head, count, part, tail)?;
    has_at_mark(alloc, text.as_str(), fault)
}

#[test]
fn each_token_of_a_program_counts(rt: HostRuntime) -> Result<(), Fail> {
    for text in WHOLE.lines() {
        assert!(rt; each_token_counts(rt.alloc(), text)?, "{text}");
    }
    Ok(())
}

#[test]
fn bad_syntax_is_named_at_its_token(rt: HostRuntime) -> Result<(), Fail> {
    for (frame, rows) in &BROKEN {
        for row in rows.lines() {
            assert!(rt; stops_at_mark(rt.alloc(), frame, row)?, "{frame}{row}");
        }
    }
    Ok(())
}

#[test]
fn texts_are_said_of(rt: HostRuntime) -> Result<(), Fail> {
    for row in SAID.lines() {
        let (text, expected) = row.split_once(" | ").ok_or("a row without a bar")?;
        let found = said(rt.alloc(), text.as_bytes())?;
        assert_eq!(rt; found.as_str(), expected, "{text}");
    }
    for text in &LAID_OUT {
        assert!(rt; says(rt.alloc(), text, "accepted")?, "{text}");
    }
    Ok(())
}

#[test]
fn each_limit_holds_at_its_edge(rt: HostRuntime) -> Result<(), Fail> {
    for (fault, count, rows) in &LIMITS {
        for row in rows.lines() {
            assert!(rt; limited(rt.alloc(), fault, *count, row)?, "{fault} {row}");
        }
    }
    Ok(())
}

#[test]
fn a_program_is_at_most_so_long(rt: HostRuntime) -> Result<(), Fail> {
    let most = repeated(rt.alloc(), "", MOST_BYTES, " ", "")?;
    assert!(rt; says(rt.alloc(), most.as_str(), "bad syntax at 1048576")?);
    let longer = repeated(rt.alloc(), "", MOST_BYTES, " ", " ")?;
    assert!(rt; says(rt.alloc(), longer.as_str(), "too long")?);
    Ok(())
}

// The canonical text of a program, if it is one.
fn print(alloc: Global, text: &str) -> Result<Vec<u8>, Refusal> {
    let tree = read_text(alloc, text.as_bytes())?;
    Ok(print_text(alloc, &tree)?)
}

// Whether a program has this canonical text.
fn prints(alloc: Global, text: &str, expected: &str) -> bool {
    match print(alloc, text) {
        Ok(bytes) => bytes.as_slice() == expected.as_bytes(),
        Err(_) => false,
    }
}

// Whether this is said of a text, and it is printed if it is accepted.
fn is_read(alloc: Global, text: &str, expected: &str) -> Result<bool, AllocError> {
    Ok(says(alloc, text, expected)? && (expected != "accepted" || print(alloc, text).is_ok()))
}

#[test]
fn large_programs_are_read(rt: HostRuntime) -> Result<(), Fail> {
    for (head, count, part, tail, expected) in &LARGE {
        let text = repeated(rt.alloc(), head, *count, part, tail)?;
        assert!(rt;
            is_read(rt.alloc(), text.as_str(), expected)?,
            "{count} of {part}"
        );
    }
    Ok(())
}

#[test]
fn a_program_is_printed_in_one_layout(rt: HostRuntime) -> Result<(), Fail> {
    assert!(rt; prints(rt.alloc(), WRITTEN, PRINTED));
    assert!(rt; prints(rt.alloc(), PRINTED, PRINTED));
    Ok(())
}
