ghost use Rattle.std.specs.Prelude.{◌≡◌, ◌<◌, ◌≤◌, ◌^◌, [], ◌∷◌, ℕ, ℤ, List, None, Ok, length};
ghost use Rattle.pb_check.specs.Accepting.{IsTextAccepted};
ghost use Rattle.pb_config.specs.Reading.{config_read};
ghost use Rattle.pb_demo.specs.Demonstrations.{demo_config};
ghost use Rattle.pb_demo_runs.specs.Sums.{IsSmallMatrix, IsSmallRow, made_cell, matrix, row, sum_to};
ghost use Rattle.pb_gen.specs.Texts.{text_of};
ghost use Rattle.pb_model.specs.Calls.{first_trapped, outcome_in};
ghost use Rattle.pb_model.specs.Cells.{Cell};
ghost use Rattle.pb_program.specs.Configs.{ConfigValue, IsValid};
ghost use Rattle.pb_program.specs.Trees.{ProgTransform};
ghost use Rattle.pb_recursion.specs.Depths.{call_at};
ghost use Rattle.pb_values.specs.declared.outcome.Outcome.TheVariants.{Value};

/// A law: a run of the rolling sum over a row of numbers from -9 to 9, by whatever rules a valid configuration chooses and however deep plans
/// may call, makes the sum of the numbers up to each place, and traps no cell.
pub fn a_rolling_sum_is_made()
    ensures sums { (p : List ProgTransform) (config : ConfigValue) (depth : ℕ) (numbers : List ℤ) → IsTextAccepted (text_of 1) p → IsValid p config → IsSmallRow numbers
        → (x : ℕ) → x < length numbers → outcome_in (row numbers ∷ call_at p config depth 0 (row numbers ∷ [])) (made_cell x) ≡ Value (sum_to numbers x) }
    ensures untrapped { (p : List ProgTransform) (config : ConfigValue) (depth : ℕ) (numbers : List ℤ) (cells : List Cell) → IsTextAccepted (text_of 1) p → IsValid p config → IsSmallRow numbers
        → first_trapped (row numbers ∷ call_at p config depth 0 (row numbers ∷ [])) cells ≡ None }
{}

/// A law: a run of the product over two square matrices of at most 256 rows, of numbers from -9 to 9, by the rules that the configuration of
/// the demonstration chooses, traps no cell where plans may call deep enough to halve the rows down to one.
pub fn a_product_traps_no_cell()
    ensures { (p : List ProgTransform) (config : ConfigValue) (depth n : ℕ) (left right : List ℤ) (cells : List Cell) → IsTextAccepted (text_of 0) p → config_read p (demo_config 0) ≡ Ok config
        → 1 ≤ n → n ≤ 256 → n ≤ 2 ^ depth → IsSmallMatrix n left → IsSmallMatrix n right
        → first_trapped (matrix n left ∷ matrix n right ∷ call_at p config depth 1 (matrix n left ∷ matrix n right ∷ [])) cells ≡ None }
{}
