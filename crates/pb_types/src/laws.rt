ghost use Rattle.std.specs.Prelude.{◌≡◌, ◌⊎◌, List, [], length};
ghost use Rattle.pb_syntax.specs.declared.refusal.Refusal.{Refusal};
ghost use Rattle.pb_program.specs.Places.{unplaced_prog};
ghost use Rattle.pb_program.specs.Trees.{ProgTransform};
ghost use Rattle.pb_program.specs.WellFormed.{IsWellFormed};
ghost use Rattle.pb_types.specs.Types.{broken, IsRefused, PlansAreSound};

/// A law: where the types of a well-formed program are right, no output of a plan has rule variables, and the list
/// of its calls is there.
#[tactic(auto, using(crate::proofs::SoundLemmas::plans_sound))]
pub fn plans_are_sound()
    ensures { (ts : List ProgTransform) → IsWellFormed ts → broken ts ≡ [] → PlansAreSound ts }
{}

/// A law: programs that differ in places alone have the same number of places at which a rule of types is broken.
#[tactic(auto, using(crate::proofs::UnplacedPlans::same_broken))]
pub fn types_dont_depend_on_places()
    ensures { (q p : List ProgTransform) → unplaced_prog q ≡ unplaced_prog p → length (broken q) ≡ length (broken p) }
{}

/// A law: the types of a program are right or it is refused for one place, and never both.
#[tactic(auto, using(crate::proofs::LawLemmas::right_or_refused, crate::proofs::LawLemmas::one_refusal, crate::proofs::LawLemmas::not_both))]
pub fn types_have_one_answer()
    ensures some { (ts : List ProgTransform) → (broken ts ≡ []) ⊎ ((e : Refusal) × IsRefused ts e) }
    ensures one_refusal { (ts : List ProgTransform) (e f : Refusal) → IsRefused ts e → IsRefused ts f → e ≡ f }
    ensures not_both { (ts : List ProgTransform) (e : Refusal) → broken ts ≡ [] → IsRefused ts e → ⊥ }
{}
