ghost use Rattle.std.specs.Prelude.{◌≡◌, ℕ, List, Some};
ghost use Rattle.pb_program.specs.Configs.{ConfigValue, SiteValue};
ghost use Rattle.pb_tuner.specs.Judged.{Costs};
ghost use Rattle.pb_tuner.specs.Tuned.{AreTold, IsTuned};
ghost use Rattle.pb_tuner.specs.declared.journal.Asked.{Asked};

/// A law: where costs are told, one configuration is tuned, and one journal leads to it.
pub fn told_costs_have_one_tuning()
    ensures { (sites : List SiteValue) (up_to : ℕ) (costs : Costs) (a b : List Asked) (c d : ConfigValue)
        → IsTuned sites up_to a c → IsTuned sites up_to b d → AreTold (Some costs) a → AreTold (Some costs) b → (a ≡ b) × (c ≡ d) }
{}

/// A law: where costs are told, a configuration is tuned, and a journal leads to it.
pub fn told_costs_have_a_tuning()
    ensures { (sites : List SiteValue) (up_to : ℕ) (costs : Costs) → (asked : List Asked) × (c : ConfigValue) × IsTuned sites up_to asked c × AreTold (Some costs) asked }
{}
