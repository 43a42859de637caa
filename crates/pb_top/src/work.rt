ghost use Rattle.std.specs.Prelude.{◌≡◌, ◌≤◌, ◌++◌, [], Some, false, length, take, map, string_bytes, IfOk};
ghost use Rattle.pb_words.specs.Ranges.{IsInRange, IsWithin};
ghost use Rattle.pb_words.specs.declared.ask.Pool.TheVariants.{Serial};
ghost use Rattle.std.specs.List.{zip};
ghost use Rattle.pb_words.specs.Files.{file_words, run_files};
ghost use Rattle.pb_words.specs.Line.{least_others};
ghost use Rattle.pb_top.specs.Sinks.{shelf_change, AsksFront};
ghost use Rattle.pb_top.specs.Answer.{AskAnswers, IsTail, Runs, WorkWrites, content_at, is_dash, needs_threads, tuned_name};
ghost use Rattle.pb_top.specs.Runs.{RunWrites, RunsProgram};
ghost use Rattle.pb_top.specs.Tunes.{TunesProgram};
ghost use Rattle.pb_top.specs.Working.{IsReady, Prepares, Replies, ShelfWrites, Writes, contents_of, line_files, text_in, texts_of};

use crate::check::{check, choices};
use crate::demo::demo;
use crate::files::fetch_all;
use crate::pools::{run_alone, run_beside};
use crate::prepare::{Prepared, Request, prepare};
use crate::reply::Stop;
use crate::run::{RunLine, read_run};
use crate::tune::tune;
use pb_outside::Shelf;
use pb_taskgraph::Gate;
use pb_words::{Ask, Pool};
use std::alloc::{AllocError, Global};
use std::sync::Wait;
use std::thread::Threads;

// The first of some words.
fn first_name<'a>(alloc: Global, words: &'a [String]) -> Result<Vec<&'a str>, AllocError>
    ensures { IfOk result (λ names. texts_of names.items ≡ take 1 (map string_bytes words.now)) }
{
    match words {
        [first, ..] => Ok(vec![in alloc; first.as_str()]?),
        [] => Ok(Vec::new(alloc)),
    }
}

// These words, after some names.
fn with_words<'a>(names: Vec<&'a str>, words: &'a [String]) -> Result<Vec<&'a str>, AllocError>
    ensures { IfOk result (λ all. texts_of all.items ≡ texts_of names.entry.items ++ map string_bytes words.now) }
{
    let mut all = names;
    for word in words {
        all.push(word.as_str())?;
    }
    Ok(all)
}

// Whether a word stands for no configuration.
fn is_dash(word: &str) -> bool
    ensures { result ≡ is_dash word.now }
{
    word == "-"
}

// The words of a run that name files.
fn run_names<'a>(alloc: Global, others: &'a [String]) -> Result<Vec<&'a str>, AllocError>
    ensures { IfOk result (λ names. texts_of names.items ≡ run_files (map string_bytes others.now)) }
{
    let [program, config, _, inputs @ ..] = others else {
        return Ok(Vec::new(alloc));
    };
    let mut names = vec![in alloc; program.as_str()]?;
    if !is_dash(config.as_str()) {
        names.push(config.as_str())?;
    }
    with_words(names, inputs)
}

// The words that name the files of what is asked, in order.
fn file_names<'a>(alloc: Global, ask: Ask, others: &'a [String]) -> Result<Vec<&'a str>, AllocError>
    ensures { IfOk result (λ names. texts_of names.items ≡ file_words ask (map string_bytes others.now)) }
{
    match ask {
        Ask::Check | Ask::Choices | Ask::Tune { .. } => first_name(alloc, others),
        Ask::Run { .. } => run_names(alloc, others),
        Ask::Demo { .. } => Ok(Vec::new(alloc)),
    }
}

// The steps before a run, over the texts of its program, of its configuration and of its inputs.
fn prepare_texts(
    alloc: Global,
    line: &RunLine<'_>,
    depth: u32,
    grain: u64,
    traced: bool,
    program: &[u8],
    config: Option<&[u8]>,
    texts: &[Vec<u8>],
) -> Result<Prepared, Stop>
    requires texts { length line.now.inputs ≡ length texts.now }
    requires few { length line.now.inputs ≤ 16 }
    ensures prepares { Prepares line.now.transform depth grain traced (λ pool tail. RunsProgram line.now.transform depth grain (RunWrites pool traced tail) program.now (text_in config.entry) (zip line.now.inputs (contents_of texts.now))) result }
    ensures ready { IfOk result IsReady }
{
    let request = Request {
        transform: line.transform,
        depth,
        grain,
        traced,
        files: line.inputs,
        texts,
    };
    prepare(alloc, program, config, &request)
}

// The steps before a run, over the bytes of its files.
fn prepare_line(
    alloc: Global,
    line: &RunLine<'_>,
    depth: u32,
    grain: u64,
    traced: bool,
    contents: &[Vec<u8>],
) -> Result<Prepared, Stop>
    requires all { length contents.now ≡ length (line_files line.now) }
    requires few { length line.now.inputs ≤ 16 }
    ensures prepares { Prepares line.now.transform depth grain traced (λ pool tail. Runs depth grain (RunWrites pool traced tail) line.now (contents_of contents.now)) result }
    ensures ready { IfOk result IsReady }
{
    let program = &contents[0];
    if is_dash(line.config) {
        return prepare_texts(
            alloc,
            line,
            depth,
            grain,
            traced,
            program,
            None,
            &contents[1..],
        );
    }
    let config = Some(contents[1].as_slice());
    prepare_texts(
        alloc,
        line,
        depth,
        grain,
        traced,
        program,
        config,
        &contents[2..],
    )
}

// A run on one thread, over the bytes of its files.
fn run_line(
    alloc: Global,
    line: &RunLine<'_>,
    depth: u32,
    grain: u64,
    traced: bool,
    contents: &[Vec<u8>],
) -> Result<Vec<u8>, Stop>
    requires all { length contents.now ≡ length (line_files line.now) }
    requires few { length line.now.inputs ≤ 16 }
    ensures { Writes (λ tail. Runs depth grain (RunWrites Serial traced tail) line.now (contents_of contents.now)) result }
{
    let prepared = prepare_line(alloc, line, depth, grain, traced, contents)?;
    run_alone(alloc, prepared, line.transform, depth, grain, traced)
}

// A run by a pool, over the bytes of its files.
fn run_line_beside<R: Threads + Wait + Sync, G: Gate>(
    rt: &R,
    alloc: Global,
    line: &RunLine<'_>,
    depth: u32,
    grain: u64,
    traced: bool,
    contents: &[Vec<u8>],
    pool: Pool,
    workers: u32,
    gate: &G,
) -> Result<Vec<u8>, Stop>
    requires all { length contents.now ≡ length (line_files line.now) }
    requires few { length line.now.inputs ≤ 16 }
    requires some_workers { 1 ≤ workers }
    requires few_workers { workers ≤ 64 }
    ensures { Writes (λ tail. Runs depth grain (RunWrites pool traced tail) line.now (contents_of contents.now)) result }
{
    let prepared = prepare_line(alloc, line, depth, grain, traced, contents)?;
    let name = line.transform;
    run_beside(
        rt, alloc, prepared, name, depth, grain, traced, pool, workers, gate,
    )
}

// The text of a configuration that is tuned up to a size, over the words after the options and the bytes of the program.
fn tune_line(
    alloc: Global,
    others: &[String],
    up_to: u64,
    contents: &[Vec<u8>],
) -> Result<Vec<u8>, Stop>
    requires range { IsWithin 1 1048576 up_to }
    requires enough { 2 ≤ length others.now }
    requires all { length contents.now ≡ length (take 1 (map string_bytes others.now)) }
    ensures { Replies (TunesProgram (tuned_name (map string_bytes others.now)) up_to (content_at (contents_of contents.now) 0)) result }
{
    tune(alloc, &contents[0], others[1].as_str(), up_to)
}

// What is written of what is asked, on one thread, over the bytes of its files.
fn answer(alloc: Global, ask: Ask, others: &[String], contents: &[Vec<u8>]) -> Result<Vec<u8>, Stop>
    requires alone { needs_threads ask ≡ false }
    requires range { IsInRange ask }
    requires enough { least_others ask ≤ length others.now }
    requires few { length others.now ≤ 19 }
    requires all { length contents.now ≡ length (file_words ask (map string_bytes others.now)) }
    ensures { Writes (λ tail. WorkWrites ask (map string_bytes others.now) tail (contents_of contents.now)) result }
{
    match ask {
        Ask::Check => check(alloc, &contents[0]),
        Ask::Choices => choices(alloc, &contents[0]),
        // A run that needs no threads is serial.
        Ask::Run {
            trace,
            depth,
            grain,
            ..
        } => run_line(alloc, &read_run(others), depth, grain, trace, contents),
        Ask::Tune { up_to } => tune_line(alloc, others, up_to, contents),
        Ask::Demo { .. } => unreachable!(),
    }
}

// What is written of what is asked, with threads where it needs them, over the bytes of its files.
fn answer_beside<R: Threads + Wait + Sync, G: Gate>(
    rt: &R,
    alloc: Global,
    ask: Ask,
    others: &[String],
    contents: &[Vec<u8>],
    gate: &G,
) -> Result<Vec<u8>, Stop>
    requires range { IsInRange ask }
    requires enough { least_others ask ≤ length others.now }
    requires few { length others.now ≤ 19 }
    requires all { length contents.now ≡ length (file_words ask (map string_bytes others.now)) }
    ensures { Writes (λ tail. WorkWrites ask (map string_bytes others.now) tail (contents_of contents.now)) result }
{
    match ask {
        Ask::Run {
            workers,
            pool,
            trace,
            depth,
            grain,
        } => run_line_beside(
            rt,
            alloc,
            &read_run(others),
            depth,
            grain,
            trace,
            contents,
            pool,
            workers,
            gate,
        ),
        Ask::Demo {
            seed,
            size,
            workers,
        } => demo(rt, alloc, seed, size, workers, gate),
        Ask::Check | Ask::Choices | Ask::Tune { .. } => answer(alloc, ask, others, contents),
    }
}

/// The work of what is asked, where it needs no thread, over the words after the options and the files of a shelf: a text for
/// `out`, or why there is none.
pub fn work<S: Shelf>(
    alloc: Global,
    ask: Ask,
    others: &[String],
    shelf: &mut S,
) -> Result<Vec<u8>, Stop>
    requires alone { needs_threads ask ≡ false }
    requires range { IsInRange ask }
    requires enough { least_others ask ≤ length others.now }
    requires few { length others.now ≤ 19 }
    ensures answer { ShelfWrites (file_words ask (map string_bytes others.now)) (λ told tail reply. AskAnswers ask (map string_bytes others.now) told reply × IsTail ask (map string_bytes others.now) told reply tail)
        (shelf_change S.files S.faults S.taken S.asked shelf.old shelf.new) result }
    ensures stays { S.files shelf.new ≡ S.files shelf.old }
    ensures asked { AsksFront (file_words ask (map string_bytes others.now)) (S.asked shelf.old) (S.asked shelf.new) }
    ensures untaken { file_words ask (map string_bytes others.now) ≡ [] → S.taken shelf.new ≡ S.taken shelf.old }
{
    let names = file_names(alloc, ask, others)?;
    let contents = fetch_all(alloc, shelf, &names)?;
    answer(alloc, ask, others, &contents)
}

/// The work of what is asked, with threads where it needs them, in the same way.
pub fn work_beside<R: Threads + Wait + Sync, S: Shelf, G: Gate>(
    rt: &R,
    alloc: Global,
    ask: Ask,
    others: &[String],
    shelf: &mut S,
    gate: &G,
) -> Result<Vec<u8>, Stop>
    requires range { IsInRange ask }
    requires enough { least_others ask ≤ length others.now }
    requires few { length others.now ≤ 19 }
    ensures answer { ShelfWrites (file_words ask (map string_bytes others.now)) (λ told tail reply. AskAnswers ask (map string_bytes others.now) told reply × IsTail ask (map string_bytes others.now) told reply tail)
        (shelf_change S.files S.faults S.taken S.asked shelf.old shelf.new) result }
    ensures stays { S.files shelf.new ≡ S.files shelf.old }
    ensures asked { AsksFront (file_words ask (map string_bytes others.now)) (S.asked shelf.old) (S.asked shelf.new) }
    ensures untaken { file_words ask (map string_bytes others.now) ≡ [] → S.taken shelf.new ≡ S.taken shelf.old }
{
    let names = file_names(alloc, ask, others)?;
    let contents = fetch_all(alloc, shelf, &names)?;
    answer_beside(rt, alloc, ask, others, &contents, gate)
}
