use crate::examples::{DOUBLE, MUL};
use pb_outside::{MemShelf, MemSink, NotingShelf};
use pb_top::pb_alone;
use std::alloc::{AllocError, Global};
use std::test::Fail;

// A call of `pb_alone`: what it answered, how many bytes the sinks hold then, and the names that the shelf was asked, each
// with a blank after it.
#[derive(Drop)]
struct Call {
    status: Option<u8>,
    written: usize,
    names: String,
}

fn texts(alloc: Global, words: &str) -> Result<Vec<String>, AllocError> {
    let mut texts = Vec::new(alloc);
    for word in words.split(' ') {
        texts.push(String::from_str(alloc, word)?)?;
    }
    Ok(texts)
}

// The files p, a program without plans, a, its input, and m, a program with plans.
const CONTENTS: &[(&str, &str)] = &[("p", DOUBLE), ("a", "matrix 3\n1 2 3\n"), ("m", MUL)];

fn files(alloc: Global) -> Result<MemShelf, AllocError> {
    let mut entries = Vec::new(alloc);
    for (name, content) in CONTENTS {
        let name = String::from_str(alloc, name)?;
        let content = Vec::from_slice(alloc, content.as_bytes())?;
        entries.push((name, content))?;
    }
    Ok(MemShelf::new(entries, Vec::new(alloc)))
}

fn listed(alloc: Global, names: &[String]) -> Result<String, AllocError> {
    let mut text = String::new(alloc);
    for name in names {
        text.push_str(name.as_str())?;
        text.push_str(" ")?;
    }
    Ok(text)
}

fn alone(alloc: Global, words: &str) -> Result<Call, AllocError> {
    let mut shelf = NotingShelf {
        inner: files(alloc)?,
        names: Vec::new(alloc),
    };
    let mut out = MemSink::new(alloc, 4096, 4096, Vec::new(alloc))?;
    let mut err = MemSink::new(alloc, 4096, 4096, Vec::new(alloc))?;
    let status = pb_alone(alloc, &texts(alloc, words)?, &mut shelf, &mut out, &mut err);
    Ok(Call {
        status,
        written: out.written().len() + err.written().len(),
        names: listed(alloc, &shelf.names)?,
    })
}

const ALONE: &[(&str, Option<u8>, &str)] = &[
    ("check p", Some(0), "p "),
    ("run --pool serial p - Double a", Some(0), "p a "),
    ("run --pool serial q - Double a", Some(14), "q "),
    ("choices p", Some(0), "p "),
    ("choices q", Some(14), "q "),
    ("tune --up-to 2 p Nope", Some(5), "p "),
    ("tune q Double", Some(14), "q "),
    ("demo 1 96 4", None, ""),
    ("run p - Double a", None, ""),
    ("run --pool steal q - Nope", None, ""),
    ("run --pool locked p - Double a", None, ""),
    (
        "run --workers 1 --pool serial p - Double a",
        Some(0),
        "p a ",
    ),
    ("run --pool serial p - Double", Some(5), "p "),
    ("run --pool serial p c Double a", Some(14), "p c "),
    ("run --pool serial p - Double a a a", Some(5), "p a a a "),
    ("run --pool serial m - Nope a p", Some(5), "m a p "),
    ("check", Some(2), ""),
];

#[test]
fn what_one_thread_does_takes_its_files_in_order(rt: HostRuntime) -> Result<(), Fail> {
    for (words, status, names) in ALONE {
        let call = alone(rt.alloc(), words)?;
        assert_eq!(rt; call.status, *status, "{words}");
        assert_eq!(rt; call.names.as_bytes(), names.as_bytes(), "{words}");
    }
    Ok(())
}
