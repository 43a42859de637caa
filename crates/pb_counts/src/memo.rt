use crate::tally::Tally;
use indexmap::IndexMap;
use pb_linear::Sizes;
use std::alloc::{AllocError, Global};
use std::marker::Model;

/// A call: how many calls its plans may make one inside the other, its transform, and the number of its sizes with the padded sizes.
type Key = (u32, u32, u8, [u64; 8]);

/// What is known of calls: each with its tally. A call is found by its hash.
#[derive(Drop)]
pub(crate) struct Memo {
    map: IndexMap<Key, Tally>,
}

impl Model for Memo {
    ghost use Rattle.std.specs.Prelude.{ℕ, List, map as mapped};
    ghost use Rattle.pb_counts.specs.declared.tally.Tally.{Tally};
    ghost use Rattle.pb_counts.specs.Memos.{KnownCall};

    ghost Value = { List KnownCall };

    ghost view = { λ m. mapped (λ e. record { depth = e.0.0; transform = e.0.1; count = e.0.2; of = e.0.3; tally = e.1 }) m.map.entries };
}

impl Memo {
    ghost use Rattle.std.specs.Prelude.{◌≡◌, ◌⊎◌, [], IfSome, OnOk};
    ghost use Rattle.std.specs.List.{Contains};
    ghost use Rattle.pb_counts.specs.Memos.{KnownCall, known_call};

    /// Nothing is known.
    pub(crate) fn new(alloc: Global) -> Memo
        ensures { result ≡ [] }
    {
        Memo {
            map: IndexMap::new(alloc),
        }
    }

    /// What is known of a call, if anything is.
    pub(crate) fn find(&self, depth: u32, t: u32, s: &Sizes) -> Option<Tally>
        ensures { IfSome result (λ tally. Contains self.now (known_call depth t s.now tally)) }
    {
        self.map.get(&(depth, t, s.count, s.of)).copied()
    }

    /// Remembers what a call counts.
    pub(crate) fn add(
        &mut self,
        depth: u32,
        t: u32,
        s: &Sizes,
        tally: Tally,
    ) -> Result<(), AllocError>
        ensures { OnOk result ((k : KnownCall) → Contains self.new k → Contains self.old k ⊎ (k ≡ known_call depth t s.now tally)) }
    {
        self.map.insert((depth, t, s.count, s.of), tally)?;
        Ok(())
    }
}
