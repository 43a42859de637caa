ghost use Rattle.std.specs.Prelude.{◌≡◌, ◌≤◌, ◌++◌, ℕ, List, None, Ok, length};
ghost use Rattle.pb_check.specs.Accepting.{IsTextAccepted};
ghost use Rattle.pb_check.specs.Orders.{AnalysisValue, AreFound};
ghost use Rattle.pb_config.specs.Reading.{config_read};
ghost use Rattle.pb_demo.specs.Demonstrations.{demo_config, demo_transform};
ghost use Rattle.pb_entry.specs.Entering.{Enters};
ghost use Rattle.pb_gen.specs.Examples.{example_of};
ghost use Rattle.pb_gen.specs.Texts.{text_of};
ghost use Rattle.pb_model.specs.Calls.{first_trapped};
ghost use Rattle.pb_model.specs.Cells.{Cell};
ghost use Rattle.pb_program.specs.Configs.{ConfigValue};
ghost use Rattle.pb_program.specs.Trees.{ProgTransform};
ghost use Rattle.pb_recursion.specs.Depths.{call_at};
ghost use Rattle.pb_run_work.specs.Given.{given_as};
ghost use Rattle.pb_run_work.specs.Limits.{IsWithin};

/// A law: the calls, sides, cells, tasks and links of a run of the demonstration are within their limits, for each of its programs, each seed
/// and each size from 1 to 256, at depth 64 and grain 16.
pub fn a_demonstration_is_within_limits()
    ensures { (which seed size : ℕ) (p : List ProgTransform) → IsTextAccepted (text_of which) p → 1 ≤ size → size ≤ 256
        → (found : List AnalysisValue) (config : ConfigValue) (number : ℕ) → AreFound p found → config_read p (demo_config which) ≡ Ok config → Enters p (demo_transform which) (length (example_of which seed size)) number
        → IsWithin p found config 16 64 number (given_as (example_of which seed size)) }
{}

/// A law: no cell of such a run is trapped.
pub fn a_demonstration_traps_no_cell()
    ensures { (which seed size : ℕ) (p : List ProgTransform) → IsTextAccepted (text_of which) p → 1 ≤ size → size ≤ 256
        → (config : ConfigValue) (number : ℕ) → config_read p (demo_config which) ≡ Ok config → Enters p (demo_transform which) (length (example_of which seed size)) number
        → (cells : List Cell) → first_trapped (given_as (example_of which seed size) ++ call_at p config 64 number (given_as (example_of which seed size))) cells ≡ None }
{}
