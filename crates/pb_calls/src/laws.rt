ghost use Rattle.std.specs.Prelude.{◌≡◌, ◌++◌, ℕ, ◌≤ℤ◌, List, Some, slice_get};
ghost use Rattle.std.specs.List.{Contains};
ghost use Rattle.pb_linear.specs.Form.{value};
ghost use Rattle.pb_linear.specs.Numbers.{exact_value};
ghost use Rattle.pb_linear.specs.Sizes.{InRange, leasts_of};
ghost use Rattle.pb_graph.specs.Nodes.{NodeValue};
ghost use Rattle.pb_program.specs.Configs.{ConfigValue, IsValid};
ghost use Rattle.pb_program.specs.Forms.{DeclValue};
ghost use Rattle.pb_program.specs.Trees.{ProgRule, ProgTransform};
ghost use Rattle.pb_program.specs.WellFormed.{IsWellFormed};
ghost use Rattle.pb_model.specs.Calls.{IsSettled, Outcomes, Plans, call_of};
ghost use Rattle.pb_model.specs.Cells.{Cell, IsCell, ReadsCell};
ghost use Rattle.pb_model.specs.Chosen.{chosen_rule};
ghost use Rattle.pb_model.specs.Lawful.{lawful};
ghost use Rattle.pb_check.specs.Orders.{AnalysisValue, IsAnalysis};
ghost use Rattle.pb_check.specs.Phases.{IsSound};
ghost use Rattle.pb_check.specs.Ranked.{IsIn, IsMadeCell};
ghost use Rattle.pb_calls.specs.Given.{AreGiven};

/// A law: the cells of a segment have the same lawful rules, and so one chosen rule.
pub fn the_cells_of_a_segment_have_one_choice()
    ensures lawful { (p : List ProgTransform) (number : ℕ) (t : ProgTransform) (a : AnalysisValue) (sizes : List ℕ) → IsWellFormed p → IsSound p → slice_get p number ≡ Some t → IsAnalysis t a
        → (u : ℕ) (c d : Cell) → IsMadeCell t sizes c → IsMadeCell t sizes d → IsIn a.nodes sizes c u → IsIn a.nodes sizes d u → lawful t sizes c ≡ lawful t sizes d }
    ensures chosen { (p : List ProgTransform) (number : ℕ) (t : ProgTransform) (a : AnalysisValue) (sizes : List ℕ) (config : ConfigValue) → IsWellFormed p → IsSound p → slice_get p number ≡ Some t → IsAnalysis t a
        → (u : ℕ) (c d : Cell) → IsMadeCell t sizes c → IsMadeCell t sizes d → IsIn a.nodes sizes c u → IsIn a.nodes sizes d u → chosen_rule config number t sizes c ≡ chosen_rule config number t sizes d }
{}

/// A law: what a rule reads that may make a cell lies inside the matrices.
pub fn a_rule_reads_inside_its_matrices()
    ensures { (p : List ProgTransform) (number : ℕ) (t : ProgTransform) (sizes : List ℕ) → IsWellFormed p → IsSound p → slice_get p number ≡ Some t
        → (c : Cell) (k : ℕ) (rule : ProgRule) → IsCell t sizes c → Contains (lawful t sizes c) k → slice_get t.rules k ≡ Some rule → (shown : Cell) → ReadsCell t.matrices sizes c rule shown → IsCell t sizes shown }
{}

/// A law: in a call of a transform of an accepted program, with a valid configuration, sizes in range and matrices of the
/// right sides, every cell has an outcome, and it is what its chosen rule makes of the outcomes of what it reads in the same
/// call. It doesn't matter what plans make of their cells.
pub fn a_call_is_settled()
    ensures { (p : List ProgTransform) (number : ℕ) (t : ProgTransform) (a : AnalysisValue) (sizes : List ℕ) (config : ConfigValue) (plans : Plans) (ins : List Outcomes) → IsWellFormed p → IsSound p → slice_get p number ≡ Some t → IsAnalysis t a → IsValid p config
        → InRange (leasts_of t.ranges) sizes → AreGiven t sizes ins → IsSettled config plans number t sizes (ins ++ call_of config plans number t sizes ins) }
{}

/// A law: at sizes in range no segment ends after its matrix.
pub fn a_segment_lies_within_its_matrix()
    ensures { (p : List ProgTransform) (number : ℕ) (t : ProgTransform) (a : AnalysisValue) (sizes : List ℕ) → IsWellFormed p → IsSound p → slice_get p number ≡ Some t → IsAnalysis t a → InRange (leasts_of t.ranges) sizes
        → (u : ℕ) (n : NodeValue) (d : DeclValue) → slice_get a.nodes u ≡ Some n → slice_get t.matrices n.matrix ≡ Some d → (value n.area.x1 sizes ≤ℤ exact_value d.w sizes) × (value n.area.y1 sizes ≤ℤ exact_value d.h sizes) }
{}
