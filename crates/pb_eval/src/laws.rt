ghost use Rattle.std.specs.Prelude.{◌≡◌, ◌≢◌, ℕ, List, length, map};
ghost use Rattle.pb_values.specs.declared.outcome.Outcome.{Outcome};
ghost use Rattle.pb_program.specs.declared.rule.RuleKind.TheVariants.{Plan, Wide};
ghost use Rattle.pb_program.specs.Forms.{DeclValue};
ghost use Rattle.pb_program.specs.Trees.{ProgRule};
ghost use Rattle.pb_program.specs.WellFormed.{IsRule};
ghost use Rattle.pb_model.specs.Cells.{Cell, reads};
ghost use Rattle.pb_model.specs.Equations.{rule_gives, shown_area, view_sides};
ghost use Rattle.pb_eval.specs.CanRun.{IsRunnable};

/// A law: a rule that computes regions reads the same, writes the same places and gives the same, whichever cell stands for the
/// values of the rule variables: it has none.
pub fn a_rule_for_regions_means_the_same_at_each_cell()
    ensures shown { (sizes inputs count transforms : ℕ) (r : ProgRule) → IsRule sizes inputs count transforms r → r.kind ≡ Wide
        → (matrices : List DeclValue) (at : List ℕ) (c d : Cell) → map (shown_area matrices at c) r.reads ≡ map (shown_area matrices at d) r.reads }
    ensures written { (sizes inputs count transforms : ℕ) (r : ProgRule) → IsRule sizes inputs count transforms r → r.kind ≡ Wide
        → (matrices : List DeclValue) (at : List ℕ) (c d : Cell) → map (shown_area matrices at c) r.outs ≡ map (shown_area matrices at d) r.outs }
    ensures reads { (sizes inputs count transforms : ℕ) (r : ProgRule) → IsRule sizes inputs count transforms r → r.kind ≡ Wide
        → (matrices : List DeclValue) (at : List ℕ) (c d : Cell) → reads matrices at c r ≡ reads matrices at d r }
    ensures read_sides { (sizes inputs count transforms : ℕ) (r : ProgRule) → IsRule sizes inputs count transforms r → r.kind ≡ Wide
        → (matrices : List DeclValue) (at : List ℕ) (c d : Cell) → map (view_sides matrices at c) r.reads ≡ map (view_sides matrices at d) r.reads }
    ensures out_sides { (sizes inputs count transforms : ℕ) (r : ProgRule) → IsRule sizes inputs count transforms r → r.kind ≡ Wide
        → (matrices : List DeclValue) (at : List ℕ) (c d : Cell) → map (view_sides matrices at c) r.outs ≡ map (view_sides matrices at d) r.outs }
    ensures gives { (sizes inputs count transforms : ℕ) (r : ProgRule) → IsRule sizes inputs count transforms r → r.kind ≡ Wide
        → (matrices : List DeclValue) (at : List ℕ) (c d : Cell) (t k : ℕ) (seen : List Outcome) → rule_gives matrices at c t k r seen ≡ rule_gives matrices at d t k r seen }
{}

/// A law: each computing rule of a well-formed transform is one that `run_body` runs.
pub fn a_computing_rule_can_be_run()
    ensures { (sizes inputs transforms : ℕ) (matrices : List DeclValue) (r : ProgRule) → IsRule sizes inputs (length matrices) transforms r → r.kind ≢ Plan → IsRunnable matrices r }
{}
