ghost use Rattle.std.specs.Prelude.{◌≡◌, ◌↔◌, ◌≢◌, ◌++◌, ◌<◌, ◌^◌, ℕ, pos, ◌≤ℤ◌, Bool, IfOk, IsTrue, List, [], length, map, Some, slice_get};
ghost use Rattle.std.specs.List.{AllByRecursion, Contains};
ghost use Rattle.pb_values.specs.Checked.{fits_i64};
ghost use Rattle.pb_values.specs.declared.outcome.Outcome.{Outcome};
ghost use Rattle.pb_program.specs.Configs.{ConfigValue, is_rising, IsValid};
ghost use Rattle.pb_program.specs.Conditions.{Applies};
ghost use Rattle.pb_program.specs.Forms.{DeclValue};
ghost use Rattle.pb_program.specs.Trees.{ProgRule, ProgTransform};
ghost use Rattle.pb_model.specs.Calls.{IsSettled, Outcomes, Plans, ReadsBefore, call_of};
ghost use Rattle.pb_model.specs.Cells.{Cell, reads, ReadsCell};
ghost use Rattle.pb_model.specs.Chosen.{chosen_rule};
ghost use Rattle.pb_model.specs.Equations.{number_in, rule_gives, view_sides};
ghost use Rattle.pb_model.specs.Lawful.{applies, IsLawful, lawful};

/// A law: the lawful rules of a cell are those that can make it with the least priority, each once and rising.
pub fn a_lawful_rule_can_make_the_cell()
    ensures members { (t : ProgTransform) (sizes : List ℕ) (c : Cell) (k : ℕ) → Contains (lawful t sizes c) k ↔ IsLawful t sizes c k }
    ensures rising { (t : ProgTransform) (sizes : List ℕ) (c : Cell) → IsTrue (is_rising (lawful t sizes c)) }
{}

/// A law: what a valid configuration chooses for a cell that some rule may make is one of its lawful rules.
pub fn a_chosen_rule_is_lawful()
    ensures { (p : List ProgTransform) (config : ConfigValue) (number : ℕ) (t : ProgTransform) (sizes : List ℕ) (c : Cell) → IsValid p config → lawful t sizes c ≢ []
        → IsLawful t sizes c (chosen_rule config number t sizes c) }
{}

/// A law: the cells that a rule reads are those that its declared views show.
pub fn a_rule_reads_what_its_views_show()
    ensures { (matrices : List DeclValue) (sizes : List ℕ) (c shown : Cell) (r : ProgRule) → Contains (reads matrices sizes c r) shown ↔ ReadsCell matrices sizes c r shown }
{}

/// A law: where each cell of a call reads what is given, or cells that come before it in an order, every cell has an outcome,
/// and it is what the cell's chosen rule makes of the outcomes of what it reads in the same call.
pub fn a_call_is_what_its_rules_say()
    ensures { (config : ConfigValue) (plans : Plans) (number : ℕ) (t : ProgTransform) (sizes : List ℕ) (ins : List Outcomes) (before : Cell → Cell → Bool) → length ins ≡ t.inputs
        → ReadsBefore config plans number t sizes before ins → IsSettled config plans number t sizes (ins ++ call_of config plans number t sizes ins) }
{}

/// A law: from numbers of 64 bits a computing rule makes numbers of 64 bits, or a trap.
pub fn a_rule_gives_numbers_of_64_bits()
    ensures { (matrices : List DeclValue) (sizes : List ℕ) (c : Cell) (transform rule : ℕ) (r : ProgRule) (seen : List Outcome) → AllByRecursion (λ n. n < 2 ^ 63) sizes → c.x < 2 ^ 63 → c.y < 2 ^ 63
        → AllByRecursion (λ s. (s.0 < 2 ^ 63) × (s.1 < 2 ^ 63)) (map (view_sides matrices sizes c) r.reads) → AllByRecursion (λ s. (s.0 < 2 ^ 63) × (s.1 < 2 ^ 63)) (map (view_sides matrices sizes c) r.outs)
        → AllByRecursion (λ o. IsTrue (fits_i64 (number_in o))) seen → IfOk (rule_gives matrices sizes c transform rule r seen) (AllByRecursion (λ n. IsTrue (fits_i64 n))) }
{}
