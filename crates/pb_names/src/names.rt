use indexmap::IndexMap;
use std::alloc::{AllocFailed, Global};
use std::marker::Model;

/// Names in order of declaration, each with what it names. A name is found by its hash.
#[derive(Drop)]
pub struct Names<'t, V> {
    map: IndexMap<&'t [u8], V>,
}

impl<'t, V> Model for Names<'t, V> {
    ghost use Rattle.std.specs.Prelude.{List, ℕ, map as mapped};

    ghost Value = { List (List ℕ × V) };

    ghost view = { λ n. mapped (λ e. (e.0.now, e.1)) n.map.entries };
}

impl<'t, V: Copy + Drop> Names<'t, V> {
    ghost use Rattle.std.specs.Prelude.{◌≡◌, List, [], ◌∷◌, ◌++◌, None, OnOk, OnErr, length, take};
    ghost use Rattle.pb_names.specs.Names.{look};

    /// No names.
    pub fn new(alloc: Global) -> Self
        ensures { result ≡ [] }
    {
        Names {
            map: IndexMap::new(alloc),
        }
    }

    /// What the name names.
    pub fn find(&self, name: &[u8]) -> Option<V>
        ensures { result ≡ look name.now self.now }
    {
        self.map.get(name).copied()
    }

    /// Adds a name that isn't there.
    pub fn add(&mut self, name: &'t [u8], what: V) -> Result<(), AllocFailed<(&'t [u8], V)>>
        requires { look name.now self.old ≡ None }
        ensures { OnOk result (self.new ≡ self.old ++ (name.now, what) ∷ []) }
    {
        self.map.insert(name, what)?;
        Ok(())
    }

    /// Forgets all names but the first `count`.
    pub fn forget(&mut self, count: usize)
        ensures { self.new ≡ take count self.old }
    {
        self.map.truncate(count);
    }

    /// How many names there are.
    pub fn count(&self) -> usize
        ensures { result ≡ length self.now }
    {
        self.map.len()
    }
}
