ghost use Rattle.std.specs.Prelude.{◌≡◌, ℕ, ◌≤◌, ◌⊎◌, List, length};
ghost use Rattle.pb_syntax.specs.declared.refusal.Refusal.{Refusal};
ghost use Rattle.pb_syntax.specs.Trees.{TransformTree};
ghost use Rattle.pb_prog.specs.Canonical.{canonical};
ghost use Rattle.pb_syntax.specs.Places.{unplaced};
ghost use Rattle.pb_syntax.specs.WithinLimits.{IsWithinLimits};
ghost use Rattle.pb_front.specs.Reading.{IsRead, IsRefused};

use pb_syntax::MOST_BYTES;

/// A law: a text is read as one tree or is refused with one refusal, and never both.
pub fn a_text_has_one_reading()
    ensures some { (text : List ℕ) → ((tree : List TransformTree) × IsRead text tree) ⊎ ((why : Refusal) × IsRefused text why) }
    ensures one_tree { (text : List ℕ) (first second : List TransformTree) → IsRead text first → IsRead text second → first ≡ second }
    ensures one_refusal { (text : List ℕ) (first second : Refusal) → IsRefused text first → IsRefused text second → first ≡ second }
    ensures not_both { (text : List ℕ) (tree : List TransformTree) (why : Refusal) → IsRead text tree → IsRefused text why → ⊥ }
{}

/// A law: the canonical text of a tree that was read, where it isn't too long, is read as the same tree, places aside;
/// so it is its own canonical text.
pub fn a_canonical_text_is_read()
    ensures read { (text : List ℕ) (tree : List TransformTree) → IsRead text tree → length (canonical tree) ≤ MOST_BYTES
        → (again : List TransformTree) × IsRead (canonical tree) again × (unplaced again ≡ unplaced tree) }
    ensures its_own { (text : List ℕ) (tree again : List TransformTree) → IsRead text tree → IsRead (canonical tree) again → canonical again ≡ canonical tree }
{}

/// A law: a tree that a text is read as is within the limits.
pub fn a_tree_that_is_read_is_within_limits()
    ensures { (text : List ℕ) (tree : List TransformTree) → IsRead text tree → IsWithinLimits tree }
{}
