ghost use Rattle.std.specs.Prelude.{◌≡◌, ◌+◌, ◌≤◌, None, vec_len, IfOk, IfSome};

use crate::shelf::{Shelf, Take};
use std::alloc::{AllocError, Global};
use std::fs::File;
use std::io::Read;
use std::marker::Model;
use std::rt::Files;

const CHUNK: usize = 65_536;

/// The files of the system. What they hold isn't told; a file that can't be opened is a failure.
#[derive(Drop)]
pub struct FileShelf<'a, R: Files> {
    rt: &'a R,
    faults: u64,
    taken: u64,
}

impl<'a, R: Files> Model for FileShelf<'a, R> {
    ghost use Rattle.pb_outside.specs.Count.{Counts};

    ghost Value = { Counts };

    ghost view = { λ s. record { faults = s.faults; taken = s.taken } };
}

impl<'a, R: Files> FileShelf<'a, R> {
    /// A shelf over the system's files, with no fault and nothing read so far.
    pub fn new(rt: &'a R) -> FileShelf<'a, R>
        ensures { result ≡ record { faults = 0; taken = 0 } }
    {
        FileShelf {
            rt,
            faults: 0,
            taken: 0,
        }
    }
}

// One read of at most `most` bytes, put after the bytes that are there: how many it gave, or None where
// it fails.
fn read_piece<F: Read>(
    file: &mut F,
    most: usize,
    bytes: &mut Vec<u8>,
) -> Result<Option<usize>, AllocError>
    ensures { IfOk result (λ piece. IfSome piece (λ count. (count ≤ most) × (vec_len bytes.new ≡ vec_len bytes.old + count))) }
{
    let mut chunk = [0u8; CHUNK];
    let end = most.min(CHUNK);
    match file.read(&mut chunk[..end]) {
        Ok(count) => {
            bytes.extend_from_slice(&chunk[..count])?;
            Ok(Some(count))
        }
        Err(_) => Ok(None),
    }
}

impl<'a, R: Files> Shelf for FileShelf<'a, R> {
    ghost files = { λ _. None };

    ghost faults = { λ s. s.faults };

    ghost taken = { λ s. s.taken };

    ghost asked = { λ _. None };

    fn take(&mut self, alloc: Global, name: &str, limit: u64) -> Result<Take, AllocError> {
        let Ok(mut file) = File::open(self.rt, name) else {
            self.faults = self.faults.saturating_add(1);
            return Ok(Take::Failed);
        };
        let mut bytes = Vec::new(alloc);
        'reads: while bytes.len() as u64 <= limit {
            let most = (limit + 1 - bytes.len() as u64) as usize;
            match read_piece(&mut file, most, &mut bytes)? {
                Some(0) => return Ok(Take::Got(bytes)),
                Some(count) => self.taken = self.taken.saturating_add(count as u64),
                None => {
                    self.faults = self.faults.saturating_add(1);
                    return Ok(Take::Failed);
                }
            }
        }
        Ok(Take::Long)
    }
}
