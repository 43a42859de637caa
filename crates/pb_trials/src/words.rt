//! Command lines: what they read as.
use pb_words::{Ask, Pool, read_words};
use std::alloc::{AllocError, Global};
use std::test::Fail;

// The words of a text with single blanks between them; an empty text has none.
fn words_of(alloc: Global, text: &str) -> Result<Vec<String>, AllocError> {
    let mut words = Vec::new(alloc);
    if text.is_empty() {
        return Ok(words);
    }
    for word in text.split(' ') {
        words.push(String::from_str(alloc, word)?)?;
    }
    Ok(words)
}

fn named(pool: Pool) -> &'static str {
    match pool {
        Pool::Serial => "serial",
        Pool::Locked => "locked",
        Pool::Steal => "steal",
    }
}

fn said_of(alloc: Global, ask: Ask, place: usize) -> Result<String, AllocError> {
    match ask {
        Ask::Check => format!(in alloc; "check at {place}"),
        Ask::Choices => format!(in alloc; "choices at {place}"),
        Ask::Run {
            workers,
            depth,
            grain,
            pool,
            trace,
        } => {
            let pool = named(pool);
            format!(in alloc; "run {workers} {depth} {grain} {pool} {trace} at {place}")
        }
        Ask::Tune { up_to } => format!(in alloc; "tune {up_to} at {place}"),
        Ask::Demo {
            seed,
            size,
            workers,
        } => format!(in alloc; "demo {seed} {size} {workers} at {place}"),
    }
}

// What a line reads as: the command, its options and the place of the first other word.
fn said(alloc: Global, text: &str) -> Result<String, AllocError> {
    let words = words_of(alloc, text)?;
    match read_words(&words) {
        Some((ask, place)) => said_of(alloc, ask, place),
        None => String::from_str(alloc, "none"),
    }
}

// Words with single blanks between them, a bar, and what they read as; no words in the first row.
const LINES: &str = " | none
  | none
check | none
check p | check at 1
check  | check at 1
check - | check at 1
check -p | check at 1
check --p | none
check p q | none
check --trace p | none
Check p | none
choices p | choices at 1
choices | none
choices --up-to 4 p | none
choices p --trace | none
--help | none
--version | none
 check p | none
demo 7 8 9 | demo 7 8 9 at 1
demo 0 1 1 | demo 0 1 1 at 1
demo 4294967295 256 64 | demo 4294967295 256 64 at 1
demo 4294967296 256 64 | none
demo 0 0 1 | none
demo 0 257 1 | none
demo 0 1 65 | none
demo --workers 2 0 1 1 | none
run | none
run --depth 64 p c t | run 1 64 64 steal false at 3
run p - t | run 1 64 64 steal false at 1
run p c | none
run p c t --trace | run 1 64 64 steal false at 1
run p -- --t --workers 0 | run 1 64 64 steal false at 1
run -- p c t | none
run --workers 2 --depth 3 --grain 4 --pool serial --trace p c t i | run 2 3 4 serial true at 10
run --trace --pool locked --grain 4 --depth 3 --workers 2 p c t i j | run 2 3 4 locked true at 10
run --trace p c t | run 1 64 64 steal true at 2
run --trace --trace p c t | none
run --pool steal --pool steal p c t | none
run --workers 2 --trace --workers 3 p c t | none
run --workers p c t | none
run --workers  p c t | none
run --workers | none
run --workers --trace p c t | none
run --workers 0 p c t | none
run --workers 64 p c t | run 64 64 64 steal false at 3
run --workers 65 p c t | none
run --workers 0000000004 p c t | run 4 64 64 steal false at 3
run --workers 00000000004 p c t | none
run --workers +4 p c t | none
run --workers=4 p c t | none
run --depth 0 p c t | run 1 0 64 steal false at 3
run --depth 65 p c t | none
run --pool stea p c t | none
run --up-to 4 p c t | none
run --tracer p c t | none
tune --workers 2 p t | none
run --grain 1 p c t | run 1 64 1 steal false at 3
run --grain 1048576 p c t | run 1 64 1048576 steal false at 3
run --grain 1048577 p c t | none
run --grain 0 p c t | none
run --grain 9999999999 p c t | none
run p c t 1 2 3 4 5 6 7 8 9 10 11 12 13 14 15 16 | run 1 64 64 steal false at 1
run p c t 1 2 3 4 5 6 7 8 9 10 11 12 13 14 15 16 17 | none
tune p t | tune 64 at 1
tune p --up-to | tune 64 at 1
tune --up-to 1048576 p t | tune 1048576 at 3
tune --up-to 1048577 p t | none
tune --up-to 1 --up-to 1 p t | none
tune p | none";

fn reads_as(alloc: Global, line: &str, expected: &str) -> Result<bool, AllocError> {
    let found = said(alloc, line)?;
    Ok(found.as_str() == expected)
}

#[test]
fn lines_read_as_they_say(rt: HostRuntime) -> Result<(), Fail> {
    for row in LINES.lines() {
        let (line, expected) = row.split_once(" | ").ok_or("a row without a bar")?;
        assert!(rt; reads_as(rt.alloc(), line, expected)?, "{row}");
    }
    Ok(())
}
