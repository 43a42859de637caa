ghost use Rattle.std.specs.Prelude.{◌≡◌, ◌≤◌, ◌<◌, ◌↔◌, ℕ};
ghost use Rattle.pb_program.specs.Trees.{ProgTransform};
ghost use Rattle.pb_program.specs.WellFormed.{IsTransform};
ghost use Rattle.pb_recursion.specs.Counts.{Counted, both};
ghost use Rattle.pb_counts.specs.Callable.{IsCallable};
ghost use Rattle.pb_counts.specs.Tallies.{IsCapped, capped};
ghost use Rattle.pb_counts.specs.declared.tally.TheConstants.{TALLY_TOP};

/// A law: tallies can be added up in any order and grouping, since capping both before they are added changes nothing.
pub fn tallies_add_up()
    ensures both { (a b : Counted) → capped (both (capped a) (capped b)) ≡ capped (both a b) }
    ensures within { (c : Counted) → IsCapped (capped c) }
{}

/// A law: whether a count passes a limit below the top can be told from its tally.
pub fn a_tally_tells_each_limit()
    ensures calls { (c : Counted) (limit : ℕ) → limit < TALLY_TOP → (capped c).calls ≤ limit ↔ c.calls ≤ limit }
    ensures side { (c : Counted) (limit : ℕ) → limit < TALLY_TOP → (capped c).side ≤ limit ↔ c.side ≤ limit }
    ensures cells { (c : Counted) (limit : ℕ) → limit < TALLY_TOP → (capped c).cells ≤ limit ↔ c.cells ≤ limit }
{}

/// A law: a transform of a well-formed program has what the calls here ask of it.
pub fn a_well_formed_transform_is_callable()
    ensures { (transforms : ℕ) (t : ProgTransform) → IsTransform transforms t → IsCallable t }
{}
