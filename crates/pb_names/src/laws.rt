ghost use Rattle.std.specs.Prelude.{◌≡◌, ℕ, ◌≤◌, ◌⊎◌, List, [], map};
ghost use Rattle.std.specs.List.{AllByRecursion};
ghost use Rattle.pb_program.specs.Trees.{ProgTransform};
ghost use Rattle.pb_program.specs.WellFormed.{IsWellFormed};
ghost use Rattle.pb_syntax.specs.Grammar.{IsProgram};
ghost use Rattle.pb_syntax.specs.Lexemes.{AreLexemes, RiseBetween};
ghost use Rattle.pb_syntax.specs.Trees.{TransformTree};
ghost use Rattle.pb_syntax.specs.WithinLimits.{IsWithinLimits};
ghost use Rattle.pb_syntax.specs.declared.refusal.Refusal.{Refusal};
ghost use Rattle.pb_syntax.specs.declared.refusal.Refusal.TheVariants.{Memory};
ghost use Rattle.pb_program.specs.Places.{unplaced_prog};
ghost use Rattle.pb_syntax.specs.Places.{unplaced};
ghost use Rattle.pb_names.specs.Unplaced.{unplaced_fault};
ghost use Rattle.pb_syntax.specs.declared.token.Token.{Token};
ghost use Rattle.pb_names.specs.Places.{NeverFalls, place_of, told_at};
ghost use Rattle.pb_names.specs.Transforms.{HasRefusal, IsRefused, IsResolved, faults_of, program_of};

/// A law: each tree is one program or refused for one reason, which is never that memory ran out, and never both.
#[tactic(auto, using(crate::proofs::LawLemmas::some_answer, crate::proofs::LawLemmas::no_two, crate::proofs::LawLemmas::same_program, crate::proofs::LawLemmas::same_refusal, crate::proofs::CausedLemmas::never_memory))]
pub fn a_tree_has_one_answer()
    ensures some { (tree : List TransformTree) → IsResolved tree (program_of tree) ⊎ HasRefusal tree }
    ensures one_program { (tree : List TransformTree) (p q : List ProgTransform) → IsResolved tree p → IsResolved tree q → p ≡ q }
    ensures one_refusal { (tree : List TransformTree) (e f : Refusal) → IsRefused tree e → IsRefused tree f → e ≡ f }
    ensures not_both { (tree : List TransformTree) (p : List ProgTransform) (e : Refusal) → IsResolved tree p → IsRefused tree e → ⊥ }
    ensures caused { (tree : List TransformTree) → IsRefused tree Memory → ⊥ }
{}

/// A law: trees that differ in places alone have the same faults, places aside, and are the same program, places aside.
#[tactic(auto, using(crate::proofs::UnplacedPrograms::same_faults, crate::proofs::UnplacedPrograms::same_program))]
pub fn names_dont_depend_on_places()
    ensures faults { (y x : List TransformTree) → unplaced y ≡ unplaced x → map unplaced_fault (faults_of y) ≡ map unplaced_fault (faults_of x) }
    ensures program { (y x : List TransformTree) → unplaced y ≡ unplaced x → unplaced_prog (program_of y) ≡ unplaced_prog (program_of x) }
{}

/// A law: a tree within the limits, whose names have no fault, is a well-formed program.
pub fn a_faultless_tree_is_well_formed()
    ensures { (tree : List TransformTree) → IsWithinLimits tree → faults_of tree ≡ [] → IsWellFormed (program_of tree) }
{}

/// A law: of a tree that tokens with rising places spell, the faults stand in the order of the text. So the place that is
/// told, where the tree is refused, is the least of all.
pub fn faults_stand_in_order()
    ensures order { (tree : List TransformTree) (tokens : List Token) (least end : ℕ)
        → IsProgram tree tokens → AreLexemes tokens → RiseBetween least end tokens → NeverFalls (map place_of (faults_of tree)) }
    ensures first { (tree : List TransformTree) (tokens : List Token) (least end : ℕ) (e : Refusal)
        → IsProgram tree tokens → AreLexemes tokens → RiseBetween least end tokens → IsRefused tree e
        → AllByRecursion (λ f. told_at e ≤ place_of f) (faults_of tree) }
{}
