ghost use Rattle.std.specs.Prelude.{◌≡◌, ◌≢◌, ◌≤◌, ◌⊎◌, [], ℕ, pos, IsTrue, List, Some, filter, length, slice_get};
ghost use Rattle.std.specs.List.{All, Contains};
ghost use Rattle.pb_grid.specs.Places.{is_at};
ghost use Rattle.pb_grid.specs.Segments.{SegmentValue};
ghost use Rattle.pb_graph.specs.Ranks.{IsBelow, Rank};
ghost use Rattle.pb_model.specs.Cells.{Cell, IsCell, ReadsCell};
ghost use Rattle.pb_model.specs.Chosen.{chosen_rule};
ghost use Rattle.pb_model.specs.Lawful.{lawful};
ghost use Rattle.pb_syntax.specs.declared.refusal.Refusal.{Refusal};
ghost use Rattle.pb_program.specs.Places.{unplaced_prog};
ghost use Rattle.pb_program.specs.Configs.{ConfigValue, IsValid};
ghost use Rattle.pb_program.specs.Trees.{ProgRule, ProgTransform};
ghost use Rattle.pb_program.specs.WellFormed.{IsWellFormed};
ghost use Rattle.pb_check.specs.Accepting.{IsTextAccepted, IsTextRefused};
ghost use Rattle.pb_check.specs.Cuts.{IsCut};
ghost use Rattle.pb_check.specs.Orders.{AnalysisValue, IsAnalysis};
ghost use Rattle.pb_check.specs.Phases.{IsSound, IsRefused};
ghost use Rattle.pb_check.specs.Ranked.{HasRank, IsMadeCell, StandsBelow};

/// A law: each well-formed program is sound or refused for one reason, and never both.
pub fn a_program_is_sound_or_refused()
    ensures some { (p : List ProgTransform) → IsWellFormed p → IsSound p ⊎ ((e : Refusal) × IsRefused p e) }
    ensures one_refusal { (p : List ProgTransform) (e f : Refusal) → IsRefused p e → IsRefused p f → e ≡ f }
    ensures not_both { (p : List ProgTransform) (e : Refusal) → IsSound p → IsRefused p e → ⊥ }
{}

/// A law: of programs that differ in places alone, all are sound or none is.
pub fn soundness_doesnt_depend_on_places()
    ensures { (q p : List ProgTransform) → unplaced_prog q ≡ unplaced_prog p → IsSound p → IsSound q }
{}

/// A law: at all sizes in range each cell of a matrix lies in exactly one of its segments, and the rules that may make the
/// cell are among the segment's.
pub fn the_segment_of_a_cell_has_its_lawful_rules()
    ensures one { (p : List ProgTransform) (number : ℕ) (t : ProgTransform) (c : Cell) (sizes : List ℕ) → IsWellFormed p → IsSound p → slice_get p number ≡ Some t → IsCell t sizes c
        → (ss : List SegmentValue) → IsCut t c.matrix ss → length (filter (is_at sizes (pos c.x) (pos c.y)) ss) ≡ 1 }
    ensures lawful { (p : List ProgTransform) (number : ℕ) (t : ProgTransform) (c : Cell) (sizes : List ℕ) → IsWellFormed p → IsSound p → slice_get p number ≡ Some t → IsCell t sizes c
        → (ss : List SegmentValue) → IsCut t c.matrix ss → All (λ s. IsTrue (is_at sizes (pos c.x) (pos c.y) s) → (r : ℕ) → Contains (lawful t sizes c) r → Contains s.rules r) ss }
{}

/// A law: at all sizes in range each cell of a matrix that rules make has a rule that may make it.
pub fn each_cell_has_a_lawful_rule()
    ensures { (p : List ProgTransform) (number : ℕ) (t : ProgTransform) (c : Cell) (sizes : List ℕ) → IsWellFormed p → IsSound p → slice_get p number ≡ Some t → IsCell t sizes c → t.inputs ≤ c.matrix
        → lawful t sizes c ≢ [] }
{}

/// A law: a cell that the rule reads which a valid configuration chooses for another has a smaller rank than that one, if rules
/// make its matrix. No rank is below itself, and what is below is so over any number of steps. So no cell waits for itself.
pub fn no_cell_waits_for_itself()
    ensures falls { (p : List ProgTransform) (number : ℕ) (t : ProgTransform) (a : AnalysisValue) (sizes : List ℕ) (config : ConfigValue) → IsWellFormed p → IsSound p → slice_get p number ≡ Some t → IsAnalysis t a → IsValid p config
        → (c : Cell) (rule : ProgRule) → IsMadeCell t sizes c → slice_get t.rules (chosen_rule config number t sizes c) ≡ Some rule
        → (rank : Rank) (shown : Cell) → HasRank t a sizes c rank → ReadsCell t.matrices sizes c rule shown → IsMadeCell t sizes shown → StandsBelow t a sizes rank shown }
    ensures irreflexive { (r : Rank) → IsBelow r r → ⊥ }
    ensures transitive { (q r s : Rank) → IsBelow q r → IsBelow r s → IsBelow q s }
{}

/// A law: a text is accepted as one program or refused for one reason, and never both.
pub fn a_text_has_one_answer()
    ensures some { (text : List ℕ) → ((p : List ProgTransform) × IsTextAccepted text p) ⊎ ((e : Refusal) × IsTextRefused text e) }
    ensures one_program { (text : List ℕ) (p q : List ProgTransform) → IsTextAccepted text p → IsTextAccepted text q → p ≡ q }
    ensures one_refusal { (text : List ℕ) (e f : Refusal) → IsTextRefused text e → IsTextRefused text f → e ≡ f }
    ensures not_both { (text : List ℕ) (p : List ProgTransform) (e : Refusal) → IsTextAccepted text p → IsTextRefused text e → ⊥ }
{}
