ghost use Rattle.std.specs.Prelude.{◌≡◌, [], ◌∷◌};
ghost use Rattle.pb_top.specs.Sinks.{shelf_change, AsksFront};
ghost use Rattle.pb_top.specs.Working.{AreTaken, IsTaken, texts_of};

use crate::reply::{Stop, file_too_long, no_file, unread};
use pb_outside::{FILE_LIMIT, Shelf, Take};
use std::alloc::Global;

/// Takes a file of the command.
#[tactic(auto, using(crate::proofs::FileLemmas::fault_stops))]
pub fn fetch<S: Shelf>(alloc: Global, shelf: &mut S, name: &str) -> Result<Vec<u8>, Stop>
    ensures taken { IsTaken name.now (shelf_change S.files S.faults S.taken S.asked shelf.old shelf.new) result }
    ensures stays { S.files shelf.new ≡ S.files shelf.old }
    ensures asked { AsksFront (name.now ∷ []) (S.asked shelf.old) (S.asked shelf.new) }
{
    match shelf.take(alloc, name, FILE_LIMIT)? {
        Take::Got(bytes) => Ok(bytes),
        Take::Long => Err(file_too_long(alloc, name)?),
        Take::Missing => Err(no_file(alloc, name)?),
        Take::Failed => Err(unread(alloc, name)?),
    }
}

/// Takes the files of the command in order, up to the first that can't be taken.
pub fn fetch_all<S: Shelf>(
    alloc: Global,
    shelf: &mut S,
    names: &[&str],
) -> Result<Vec<Vec<u8>>, Stop>
    ensures taken { AreTaken (texts_of names.now) (shelf_change S.files S.faults S.taken S.asked shelf.old shelf.new) result }
    ensures stays { S.files shelf.new ≡ S.files shelf.old }
    ensures asked { AsksFront (texts_of names.now) (S.asked shelf.old) (S.asked shelf.new) }
    ensures untaken { texts_of names.now ≡ [] → S.taken shelf.new ≡ S.taken shelf.old }
{
    let mut contents = Vec::new(alloc);
    for name in names {
        contents.push(fetch(alloc, shelf, name)?)?;
    }
    Ok(contents)
}
