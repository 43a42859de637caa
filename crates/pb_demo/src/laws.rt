ghost use Rattle.std.specs.Prelude.{◌≡◌, ◌≤◌, ℕ, List, Ok};
ghost use Rattle.pb_check.specs.Accepting.{IsTextAccepted};
ghost use Rattle.pb_config.specs.Reading.{config_read};
ghost use Rattle.pb_demo.specs.Demonstrations.{Takes, demo_config, demo_transform};
ghost use Rattle.pb_gen.specs.Examples.{example_of};
ghost use Rattle.pb_gen.specs.Texts.{text_of};
ghost use Rattle.pb_linear.specs.declared.sizes.TheConstants.{SIZE_TOP};
ghost use Rattle.pb_program.specs.Configs.{ConfigValue};
ghost use Rattle.pb_program.specs.Trees.{ProgTransform};

/// A law: each of the two texts is accepted as a program.
pub fn both_texts_are_accepted()
    ensures { (which : ℕ) → (p : List ProgTransform) × IsTextAccepted (text_of which) p }
{}

/// A law: the text of a configuration is valid for the program that the text beside it is.
pub fn both_configurations_are_valid()
    ensures { (which : ℕ) (p : List ProgTransform) → IsTextAccepted (text_of which) p → (config : ConfigValue) × (config_read p (demo_config which) ≡ Ok config) }
{}

/// A law: the matrices that are drawn from a seed for a program fit its transform, whatever their size is.
pub fn drawn_matrices_fit()
    ensures { (which seed size : ℕ) (p : List ProgTransform) → IsTextAccepted (text_of which) p → 1 ≤ size → size ≤ SIZE_TOP → Takes p (demo_transform which) (example_of which seed size) }
{}
