ghost use Rattle.std.specs.Prelude.{◌<◌};

use pb_outside::{MemShelf, MemSink};
use pb_taskgraph::{Gate, OpenGate};
use pb_top::pb_command;
use std::alloc::{AllocError, Global};
use std::process::Abort;
use std::sync::Wait;
use std::test::Fail;
use std::thread::Threads;

/// Files by their names.
pub type Files = &'static [(&'static str, &'static str)];

/// A call of the top call in memory: words in one text with single blanks between them, the files, the
/// calls of the shelf that fail, the puts on either sink that fail and the most bytes of each; then the status and
/// what the sinks hold in the end.
#[derive(Drop)]
pub struct Row {
    pub words: &'static str,
    pub files: &'static [(&'static str, &'static str)],
    pub failing_takes: &'static [u64],
    pub failing_puts: &'static [u64],
    pub most: u64,
    pub status: u8,
    pub out: &'static str,
    pub err: &'static str,
    ghost takes_some: { 0 < most },
}

/// How a row ends: with a text on `out`, with the line of a trap on `err`, or with another status and its line on `err`.
pub enum End {
    Done(&'static str),
    Trapped(&'static str),
    Stopped(u8, &'static str),
}

/// Rows: the words of each call in one text with single blanks between them, its files, and how it ends.
pub type Rows = &'static [(&'static str, Files, End)];

/// A row that ends with a text on `out`.
pub fn done(words: &'static str, files: Files, out: &'static str) -> Row {
    Row {
        words,
        files,
        failing_takes: &[],
        failing_puts: &[],
        most: 4096,
        status: 0,
        out,
        err: "",
    }
}

/// A row that ends with a line on `err`.
pub fn stopped(words: &'static str, files: Files, status: u8, err: &'static str) -> Row {
    Row {
        words,
        files,
        failing_takes: &[],
        failing_puts: &[],
        most: 4096,
        status,
        out: "",
        err,
    }
}

/// A row that ends with a trap.
pub fn trapped(words: &'static str, files: Files, err: &'static str) -> Row {
    stopped(words, files, 7, err)
}

fn row_of(words: &'static str, files: Files, end: &End) -> Row {
    match end {
        End::Done(out) => done(words, files, out),
        End::Trapped(err) => trapped(words, files, err),
        End::Stopped(status, err) => stopped(words, files, *status, err),
    }
}

fn shelf(alloc: Global, row: &Row) -> Result<MemShelf, AllocError> {
    let mut entries = Vec::new(alloc);
    for (name, content) in row.files {
        let name = String::from_str(alloc, name)?;
        let content = Vec::from_slice(alloc, content.as_bytes())?;
        entries.push((name, content))?;
    }
    Ok(MemShelf::new(entries, Vec::from_slice(alloc, row.failing_takes)?))
}

fn sink(alloc: Global, row: &Row) -> Result<MemSink, AllocError> {
    MemSink::new(
        alloc,
        4096,
        row.most,
        Vec::from_slice(alloc, row.failing_puts)?,
    )
}

fn words(alloc: Global, line: &str) -> Result<Vec<String>, AllocError> {
    let mut words = Vec::new(alloc);
    for word in line.split(' ') {
        words.push(String::from_str(alloc, word)?)?;
    }
    Ok(words)
}

/// Runs a row with these words, whose workers pass this gate, and asserts its answer.
pub fn answers<R: Threads + Wait + Sync + Abort, G: Gate>(
    rt: &R,
    alloc: Global,
    row: &Row,
    line: &str,
    gate: &G,
) -> Result<(), Fail> {
    let mut files = shelf(alloc, row)?;
    let mut out = sink(alloc, row)?;
    let mut err = sink(alloc, row)?;
    let status = pb_command(
        rt,
        alloc,
        &words(alloc, line)?,
        &mut files,
        &mut out,
        &mut err,
        gate,
    );
    assert_eq!(rt; status, row.status, "{line}");
    assert_eq!(rt; out.written(), row.out.as_bytes(), "{line}");
    assert_eq!(rt; err.written(), row.err.as_bytes(), "{line}");
    Ok(())
}

// A line with a pool left out, on four workers where it asks for no number: the pool that steals. None where it doesn't name
// this pool, and where it asks for a trace, whose order a pool may choose.
fn by_stealing(alloc: Global, line: &str, pool: &str) -> Result<Option<String>, AllocError> {
    let Some((before, after)) = line.split_once(pool) else {
        return Ok(None);
    };
    if line.contains("--trace") {
        return Ok(None);
    }
    if line.contains("--workers") {
        return Ok(Some(format!(in alloc; "{before}{after}")?));
    }
    Ok(Some(format!(in alloc; "{before}--workers 4 {after}")?))
}

/// Runs a row and asserts its answer; and where it names a pool, the same row by the pool that steals.
pub fn holds<R: Threads + Wait + Sync + Abort>(
    rt: &R,
    alloc: Global,
    row: &Row,
) -> Result<(), Fail> {
    answers(rt, alloc, row, row.words, &OpenGate)?;
    for pool in ["--pool serial ", "--pool locked "] {
        if let Some(line) = by_stealing(alloc, row.words, pool)? {
            answers(rt, alloc, row, line.as_str(), &OpenGate)?;
        }
    }
    Ok(())
}

/// Runs rows and asserts their answers, as `holds` does.
pub fn all_hold<R: Threads + Wait + Sync + Abort>(
    rt: &R,
    alloc: Global,
    rows: Rows,
) -> Result<(), Fail> {
    for (words, files, end) in rows {
        holds(rt, alloc, &row_of(words, files, end))?;
    }
    Ok(())
}

// A shelf with the files p and a.
fn shelf_of(alloc: Global, program: &str, input: &str) -> Result<MemShelf, AllocError> {
    let mut entries = Vec::new(alloc);
    let program = Vec::from_slice(alloc, program.as_bytes())?;
    entries.push((String::from_str(alloc, "p")?, program))?;
    let input = Vec::from_slice(alloc, input.as_bytes())?;
    entries.push((String::from_str(alloc, "a")?, input))?;
    Ok(MemShelf::new(entries, Vec::new(alloc)))
}

/// A call over a program p and an input a that may be built, with its words in one text: the status, and what is put on
/// `out` and `err`, each of which has room for 4,194,304 bytes.
pub fn ran<R: Threads + Wait + Sync + Abort>(
    rt: &R,
    alloc: Global,
    line: &str,
    program: &str,
    input: &str,
) -> Result<(u8, Vec<u8>, Vec<u8>), AllocError> {
    let mut files = shelf_of(alloc, program, input)?;
    let mut out = MemSink::new(alloc, 4_194_304, 4_194_304, Vec::new(alloc))?;
    let mut err = MemSink::new(alloc, 4_194_304, 4_194_304, Vec::new(alloc))?;
    let status = pb_command(
        rt,
        alloc,
        &words(alloc, line)?,
        &mut files,
        &mut out,
        &mut err,
        &OpenGate,
    );
    let out = Vec::from_slice(alloc, out.written())?;
    let err = Vec::from_slice(alloc, err.written())?;
    Ok((status, out, err))
}
