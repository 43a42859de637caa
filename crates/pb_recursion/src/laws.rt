ghost use Rattle.std.specs.Prelude.{◌≡◌, ◌++◌, ◌≤◌, ℕ, IsTrue, List, [], Some, length, map, slice_get};
ghost use Rattle.std.specs.List.{All};
ghost use Rattle.pb_linear.specs.Sizes.{InRange, leasts_of};
ghost use Rattle.pb_program.specs.Configs.{ConfigValue, IsValid};
ghost use Rattle.pb_program.specs.Trees.{ProgRule, ProgTransform};
ghost use Rattle.pb_program.specs.declared.rule.RuleKind.TheVariants as kind;
ghost use Rattle.pb_program.specs.WellFormed.{IsWellFormed};
ghost use Rattle.pb_model.specs.Calls.{IsSettled, Outcomes};
ghost use Rattle.pb_calls.specs.Handed.{AnalysisValue, IsAnalysis};
ghost use Rattle.pb_calls.specs.Handed.{IsSound};
ghost use Rattle.pb_calls.specs.Given.{AreGiven};
ghost use Rattle.pb_recursion.specs.Depths.{IsWhole, call_at, plans_at, sides_of_matrix, sizes_given};
ghost use Rattle.pb_recursion.specs.Ordered.{AreOrdered};
ghost use Rattle.pb_recursion.specs.Plans.{calls_of_rule};
ghost use Rattle.pb_recursion.specs.Shapes.{can_enter};

/// A law: in a call at any depth of a transform of an accepted program, with a valid configuration and matrices that can enter,
/// every cell has an outcome, and it is what its chosen rule makes of the outcomes of what it reads in the same call.
pub fn each_cell_is_its_rules_equation()
    ensures { (p : List ProgTransform) (config : ConfigValue) (depth number : ℕ) (t : ProgTransform) (a : AnalysisValue) (ins : List Outcomes) → IsWellFormed p → IsSound p → IsValid p config → slice_get p number ≡ Some t → IsAnalysis t a
        → All IsWhole ins → IsTrue (can_enter t (map sides_of_matrix ins)) → IsSettled config (plans_at p config depth number t (sizes_given t ins)) number t (sizes_given t ins) (ins ++ call_at p config depth number ins) }
{}

/// A law: where matrices can enter a transform, its sizes are in range, and each matrix has the sides of its declaration.
pub fn a_fitting_call_is_given()
    ensures range { (t : ProgTransform) (ins : List Outcomes) → IsTrue (can_enter t (map sides_of_matrix ins)) → InRange (leasts_of t.ranges) (sizes_given t ins) }
    ensures given { (t : ProgTransform) (ins : List Outcomes) → t.inputs ≤ length t.matrices → All IsWhole ins → IsTrue (can_enter t (map sides_of_matrix ins)) → AreGiven t (sizes_given t ins) ins }
{}

/// A law: matrices that are given to a transform of an accepted program for sizes in range can enter it, and bind these sizes.
pub fn given_matrices_can_enter()
    ensures enters { (p : List ProgTransform) (number : ℕ) (t : ProgTransform) (sizes : List ℕ) (ins : List Outcomes) → IsWellFormed p → IsSound p → slice_get p number ≡ Some t → InRange (leasts_of t.ranges) sizes → AreGiven t sizes ins
        → IsTrue (can_enter t (map sides_of_matrix ins)) }
    ensures sizes { (p : List ProgTransform) (number : ℕ) (t : ProgTransform) (sizes : List ℕ) (ins : List Outcomes) → IsWellFormed p → IsSound p → slice_get p number ≡ Some t → InRange (leasts_of t.ranges) sizes → AreGiven t sizes ins
        → sizes_given t ins ≡ sizes }
{}

/// A law: in an accepted program each call of a plan passes on reads, or what an earlier call has made; and each output is made.
pub fn a_plan_passes_on_what_is_there()
    ensures { (p : List ProgTransform) (number : ℕ) (t : ProgTransform) (rule : ℕ) (r : ProgRule) → IsWellFormed p → IsSound p → slice_get p number ≡ Some t → slice_get t.rules rule ≡ Some r → r.kind ≡ kind.Plan
        → AreOrdered (length r.outs) [] (calls_of_rule r) }
{}
