ghost use Rattle.std.specs.Prelude.{◌≡◌, map, IfNone, IfSome, string_bytes, if◌then◌else◌, is_ok};
ghost use Rattle.pb_top.specs.Answer.{NeedThreads, needs_threads};
ghost use Rattle.pb_top.specs.Sinks.{IsIdle, IsUntouched, shelf_change, sink_change};
ghost use Rattle.pb_top.specs.Reply.{status_code};
ghost use Rattle.pb_top.specs.Working.{IsWritten, StopIsWritten, LineIsWritten};
ghost use Rattle.pb_top.specs.Ends.{Ends};

use crate::put::put_all;
use crate::reply::{Status, Stop, usage};
use crate::work::{work, work_beside};
use pb_outside::{Refused, Shelf, Sink};
use pb_taskgraph::Gate;
use pb_words::{Ask, Pool, read_words};
use std::alloc::{AllocError, Global};
use std::sync::Wait;
use std::thread::Threads;

// The status of an answer whose text was put, or of the put that was refused.
fn status_of(put: Result<(), Refused>, status: Status) -> u8
    ensures { result ≡ (if is_ok put then status_code status else 10) }
{
    match put {
        Ok(()) => status.code(),
        Err(Refused) => Status::WriteFault.code(),
    }
}

// Puts the line of what stopped a command on `err`.
fn write_stop<O: Sink, E: Sink>(stop: &Stop, out: &mut O, err: &mut E) -> u8
    ensures { StopIsWritten stop.now (sink_change O.written O.faults out.old out.new) (sink_change E.written E.faults err.old err.new) result }
{
    match stop {
        Stop::Memory => Status::NoMemory.code(),
        Stop::Refused(status, line) => status_of(put_all(err, line), *status),
        Stop::Unread(line) => status_of(put_all(err, line.as_bytes()), Status::ReadFault),
    }
}

// Puts what a command ended with on its sink.
fn write<O: Sink, E: Sink>(found: &Result<Vec<u8>, Stop>, out: &mut O, err: &mut E) -> u8
    ensures { IsWritten found.now (sink_change O.written O.faults out.old out.new) (sink_change E.written E.faults err.old err.new) result }
{
    match found {
        Ok(text) => status_of(put_all(out, text), Status::Done),
        Err(stop) => write_stop(stop, out, err),
    }
}

// Puts the line of what stopped a command on `err`, if there was memory for it.
fn write_line<O: Sink, E: Sink>(line: Result<Stop, AllocError>, out: &mut O, err: &mut E) -> u8
    ensures { LineIsWritten line (sink_change O.written O.faults out.old out.new) (sink_change E.written E.faults err.old err.new) result }
{
    match line {
        Ok(stop) => write_stop(&stop, out, err),
        Err(_) => Status::NoMemory.code(),
    }
}

// Whether what is asked takes threads.
fn needs_threads(ask: Ask) -> bool
    ensures { result ≡ needs_threads ask }
{
    match ask {
        Ask::Run {
            pool: Pool::Locked | Pool::Steal,
            ..
        }
        | Ask::Demo { .. } => true,
        Ask::Run {
            pool: Pool::Serial,
            ..
        }
        | Ask::Check
        | Ask::Choices
        | Ask::Tune { .. } => false,
    }
}

/// Does a command that needs no thread, and answers its status: 0 with a text on `out`, another with a line
/// on `err`, 9 and 10 for a file that couldn't be read and a sink that refused, 11 where memory ran out. `words`
/// are those after the program's name. It waits for nobody. It answers None exactly where the words are in the grammar and
/// ask for `demo`, or for `run` with a pool of threads; then it has taken no file and written nothing.
pub fn pb_alone<S: Shelf, O: Sink, E: Sink>(
    alloc: Global,
    words: &[String],
    shelf: &mut S,
    out: &mut O,
    err: &mut E,
) -> Option<u8>
    ensures none { IfNone result (NeedThreads (map string_bytes words.now)) }
    ensures some { IfSome result (λ status. NeedThreads (map string_bytes words.now) → ⊥) }
    ensures untaken { IfNone result (IsUntouched (shelf_change S.files S.faults S.taken S.asked shelf.old shelf.new)) }
    ensures unwritten { IfNone result (IsIdle (sink_change O.written O.faults out.old out.new) × IsIdle (sink_change E.written E.faults err.old err.new)) }
    ensures ends { IfSome result (Ends (map string_bytes words.now) (shelf_change S.files S.faults S.taken S.asked shelf.old shelf.new)
        (sink_change O.written O.faults out.old out.new) (sink_change E.written E.faults err.old err.new)) }
{
    let Some((ask, place)) = read_words(words) else {
        return Some(write_line(usage(alloc), out, err));
    };
    if needs_threads(ask) {
        return None;
    }
    let found = work(alloc, ask, &words[place..], shelf);
    Some(write(&found, out, err))
}

// Does a command, with threads where it needs them.
fn with_threads<R: Threads + Wait + Sync, S: Shelf, O: Sink, E: Sink, G: Gate>(
    rt: &R,
    alloc: Global,
    words: &[String],
    shelf: &mut S,
    out: &mut O,
    err: &mut E,
    gate: &G,
) -> u8
    ensures { Ends (map string_bytes words.now) (shelf_change S.files S.faults S.taken S.asked shelf.old shelf.new)
        (sink_change O.written O.faults out.old out.new) (sink_change E.written E.faults err.old err.new) result }
{
    let Some((ask, place)) = read_words(words) else {
        return write_line(usage(alloc), out, err);
    };
    let found = work_beside(rt, alloc, ask, &words[place..], shelf, gate);
    write(&found, out, err)
}

/// Does all that the program does, and answers its status, as `pb_alone` says. `rt` starts the threads of the
/// pools, and each worker calls the gate's `enter` before it runs a task.
pub fn pb_command<R: Threads + Wait + Sync, S: Shelf, O: Sink, E: Sink, G: Gate>(
    rt: &R,
    alloc: Global,
    words: &[String],
    shelf: &mut S,
    out: &mut O,
    err: &mut E,
    gate: &G,
) -> u8
    ensures ends { Ends (map string_bytes words.now) (shelf_change S.files S.faults S.taken S.asked shelf.old shelf.new)
        (sink_change O.written O.faults out.old out.new) (sink_change E.written E.faults err.old err.new) result }
{
    match pb_alone(alloc, words, shelf, out, err) {
        Some(status) => status,
        None => with_threads(rt, alloc, words, shelf, out, err, gate),
    }
}
