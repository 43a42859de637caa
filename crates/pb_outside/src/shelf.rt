ghost use Rattle.std.specs.Prelude.{◌≡◌, ℕ, ◌≤◌, List, Option};
ghost use Rattle.pb_outside.specs.Shelf.{Files, IsContent, CountsTakeFault, CountsBytes, AsksName};

use std::alloc::{AllocError, Global};

/// The most bytes that any file may have.
pub const FILE_LIMIT: u64 = 100_663_296;

/// What taking a file gives.
#[derive(Drop)]
pub enum Take {
    /// All its bytes.
    Got(Vec<u8>),
    /// It is longer than the limit.
    Long,
    /// No such file is there.
    Missing,
    /// It couldn't be read.
    Failed,
}

/// Where files are taken from.
pub trait Shelf {
    /// The files by name, where they are told.
    ghost files: { Self → Option Files };

    /// How often a file couldn't be read; it stands still at its type's end.
    ghost faults: { Self → ℕ };

    /// How many bytes were read; it stands still at its type's end.
    ghost taken: { Self → ℕ };

    /// The names that were asked of it, in order, where they are told.
    ghost asked: { Self → Option (List (List ℕ)) };

    /// Takes a file of at most `limit` bytes.
    fn take(&mut self, alloc: Global, name: &str, limit: u64) -> Result<Take, AllocError>
        requires { limit ≤ FILE_LIMIT }
        ensures content { IsContent (files self.old) name.now limit result }
        ensures faults { CountsTakeFault result (faults self.old) (faults self.new) }
        ensures taken { CountsBytes limit result (taken self.old) (taken self.new) }
        ensures asked { AsksName name.now result (asked self.old) (asked self.new) }
        ensures stays { files self.new ≡ files self.old };
}

/// A law: a file has at most 96 MiB.
pub fn the_limit_of_files_is_this()
    ensures { FILE_LIMIT ≡ 100663296 }
{}
