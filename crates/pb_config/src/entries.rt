use indexmap::IndexMap;
use pb_program::{Entry, Selector, Site};
use std::alloc::{AllocError, AllocFailed, Global};
use std::marker::Model;

/// A site: the numbers of the transform, of its matrix and of the rules.
pub(crate) type Key = (u32, u32, Vec<u32>);

/// Entries in the order of their lines. An entry is found by the hash of its site.
#[derive(Drop)]
pub(crate) struct Entries {
    map: IndexMap<Key, Selector>,
}

impl Model for Entries {
    ghost use Rattle.std.specs.Prelude.{List, map as mapped};
    ghost use Rattle.pb_program.specs.Configs.{EntryValue};
    ghost use Rattle.pb_config.specs.Keys.{entry};

    ghost Value = { List EntryValue };

    ghost view = { λ n. mapped entry n.map.entries };
}

impl Entries {
    ghost use Rattle.std.specs.Prelude.{◌≡◌, [], ◌∷◌, ◌++◌, IfOk, false, OnOk};
    ghost use Rattle.pb_program.specs.Configs.{has_site};
    ghost use Rattle.pb_config.specs.Keys.{entry, site};

    /// No entries.
    pub(crate) fn new(alloc: Global) -> Entries
        ensures { result ≡ [] }
    {
        Entries {
            map: IndexMap::new(alloc),
        }
    }

    /// Whether there is an entry of this site.
    pub(crate) fn has(&self, key: &Key) -> bool
        ensures { result ≡ has_site (site key.now) self.now }
    {
        self.map.contains_key(key)
    }

    /// Puts an entry after the others, whose site none of them has.
    pub(crate) fn add(
        &mut self,
        key: Key,
        selector: Selector,
    ) -> Result<(), AllocFailed<(Key, Selector)>>
        requires { has_site (site key) self.old ≡ false }
        ensures { OnOk result (self.new ≡ self.old ++ entry (key, selector) ∷ []) }
    {
        self.map.insert(key, selector)?;
        Ok(())
    }

    /// The entries as a list.
    pub(crate) fn into_list(self, alloc: Global) -> Result<Vec<Entry>, AllocError>
        ensures { IfOk result (λ entries. entries.items ≡ self) }
    {
        let mut entries = Vec::with_capacity(alloc, self.map.len())?;
        for ((transform, matrix, set), selector) in self.map {
            entries.push(Entry {
                site: Site {
                    transform,
                    matrix,
                    set,
                },
                selector,
            })?;
        }
        Ok(entries)
    }
}
