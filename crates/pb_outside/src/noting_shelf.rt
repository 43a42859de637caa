use crate::shelf::{Shelf, Take};
use std::alloc::{AllocError, Global};

/// A shelf that notes the names that it is asked, in order, and takes the files from another one.
#[derive(Drop)]
pub struct NotingShelf<S: Shelf + Drop> {
    pub inner: S,
    pub names: Vec<String>,
}

impl<S: Shelf + Drop> Shelf for NotingShelf<S> {
    ghost use Rattle.std.specs.Prelude.{Some, map, string_bytes};

    ghost files = { λ s. S.files s.inner };

    ghost faults = { λ s. S.faults s.inner };

    ghost taken = { λ s. S.taken s.inner };

    ghost asked = { λ s. Some (map string_bytes s.names.items) };

    fn take(&mut self, alloc: Global, name: &str, limit: u64) -> Result<Take, AllocError> {
        self.names.push(String::from_str(alloc, name)?)?;
        self.inner.take(alloc, name, limit)
    }
}
