use indexmap::IndexMap;
use pb_linear::Sizes;
use std::alloc::{AllocError, Global};
use std::marker::Model;

/// A call: how deep its plans may call, its transform, and the number of its sizes with the padded sizes.
type Key = (u32, u32, u8, [u64; 8]);

/// What is known of calls: each with its cost, none where a call below it can't be made. A call is found by its hash.
#[derive(Drop)]
pub(crate) struct Known {
    map: IndexMap<Key, Option<u64>>,
}

impl Model for Known {
    ghost use Rattle.std.specs.Prelude.{ℕ, List, Option, map as mapped};
    ghost use Rattle.pb_cost.specs.Known.{KnownCall};

    ghost Value = { List KnownCall };

    ghost view = { λ k. mapped (λ e. record { depth = e.0.0; transform = e.0.1; count = e.0.2; of = e.0.3; cost = e.1 }) k.map.entries };
}

impl Known {
    ghost use Rattle.std.specs.Prelude.{◌≡◌, ◌⊎◌, [], IfSome, OnOk};
    ghost use Rattle.std.specs.List.{Contains};
    ghost use Rattle.pb_cost.specs.Known.{KnownCall, known_call};

    /// Nothing is known.
    pub(crate) fn new(alloc: Global) -> Known
        ensures { result ≡ [] }
    {
        Known {
            map: IndexMap::new(alloc),
        }
    }

    /// What a call costs, if that is known.
    pub(crate) fn find(&self, depth: u32, t: u32, s: &Sizes) -> Option<Option<u64>>
        ensures { IfSome result (λ cost. Contains self.now (known_call depth t s.now cost)) }
    {
        self.map.get(&(depth, t, s.count, s.of)).copied()
    }

    /// Remembers what a call costs.
    pub(crate) fn add(
        &mut self,
        depth: u32,
        t: u32,
        s: &Sizes,
        cost: Option<u64>,
    ) -> Result<(), AllocError>
        ensures { OnOk result ((k : KnownCall) → Contains self.new k → Contains self.old k ⊎ (k ≡ known_call depth t s.now cost)) }
    {
        self.map.insert((depth, t, s.count, s.of), cost)?;
        Ok(())
    }
}
