ghost use Rattle.std.specs.Prelude.{◌≡◌, ◌≤◌, Some, None};
ghost use Rattle.std.specs.Option.{option_copied, option_map};
ghost use Rattle.pb_outside.specs.declared.shelf.TheConstants.{FILE_LIMIT};
ghost use Rattle.pb_outside.specs.MemShelf.{entries_of, CountsCall};
ghost use Rattle.pb_outside.specs.Shelf.{IsContent, CountsTakeFault, CountsBytes, AsksName, content_of};

use crate::shelf::{Shelf, Take};
use std::alloc::{AllocError, Global};
use std::marker::Model;

/// Files in memory, some of whose calls fail: for tests, and for callers that have the bytes already.
#[derive(Drop)]
pub struct MemShelf {
    files: Vec<(String, Vec<u8>)>,
    fail: Vec<u64>,
    calls: u64,
    faults: u64,
    taken: u64,
}

impl Model for MemShelf {
    ghost use Rattle.pb_outside.specs.MemShelf.{MemShelfState, entries_of};

    ghost Value = { MemShelfState };

    ghost view = { λ s. record { files = entries_of s.files.items; fail = s.fail.items; calls = s.calls; faults = s.faults; taken = s.taken } };
}

impl MemShelf {
    ghost use Rattle.std.specs.Prelude.{◌≡◌};

    /// A shelf of these files, of which no call has been made. Of two equal names the first counts; the
    /// calls of `take` whose numbers, from 0, stand in `fail` fail.
    pub fn new(files: Vec<(String, Vec<u8>)>, fail: Vec<u64>) -> MemShelf
        ensures { result ≡ record { files = entries_of files.items; fail = fail.items; calls = 0; faults = 0; taken = 0 } }
    {
        MemShelf {
            files,
            fail,
            calls: 0,
            faults: 0,
            taken: 0,
        }
    }
}

fn find<'a>(files: &'a [(String, Vec<u8>)], name: &str) -> Option<&'a Vec<u8>>
    ensures { option_map (λ bytes. bytes.items) (option_copied result) ≡ content_of (entries_of files.now) name.now }
{
    for (key, bytes) in files {
        if name == key.as_str() {
            return Some(bytes);
        }
    }
    None
}

impl Shelf for MemShelf {
    ghost files = { λ s. Some s.files };

    ghost faults = { λ s. s.faults };

    ghost taken = { λ s. s.taken };

    ghost asked = { λ _. None };

    fn take(&mut self, alloc: Global, name: &str, limit: u64) -> Result<Take, AllocError>
        requires { limit ≤ FILE_LIMIT }
        ensures content { IsContent (Some self.old.files) name.now limit result }
        ensures faults { CountsTakeFault result self.old.faults self.new.faults }
        ensures taken { CountsBytes limit result self.old.taken self.new.taken }
        ensures asked { AsksName name.now result None None }
        ensures stays { Some self.new.files ≡ Some self.old.files }
        ensures call { CountsCall self.old self.new limit result }
    {
        let fails = self.fail.contains(&self.calls);
        self.calls = self.calls.saturating_add(1);
        if fails {
            self.faults = self.faults.saturating_add(1);
            return Ok(Take::Failed);
        }
        match find(&self.files, name) {
            None => Ok(Take::Missing),
            Some(bytes) if bytes.len() as u64 > limit => {
                self.taken = self.taken.saturating_add(limit + 1);
                Ok(Take::Long)
            }
            Some(bytes) => {
                let copy = Vec::from_slice(alloc, bytes)?;
                self.taken = self.taken.saturating_add(copy.len() as u64);
                Ok(Take::Got(copy))
            }
        }
    }
}
