ghost use Rattle.std.specs.Prelude.{◌≡◌, ◌&&◌, ℕ, List, Ok, Some, if◌then◌else◌, nat_le};
ghost use Rattle.pb_program.specs.Configs.{ConfigValue, IsValid, SiteValue, chosen, same_site};
ghost use Rattle.pb_program.specs.Trees.{ProgTransform};
ghost use Rattle.pb_program.specs.WellFormed.{IsWellFormed};
ghost use Rattle.pb_config.specs.Extension.{extended};
ghost use Rattle.pb_config.specs.Reading.{config_read};
ghost use Rattle.pb_config.specs.Texts.{config_text};

/// A law: the text that is printed of a configuration that is valid for a program is read as that configuration.
pub fn printed_is_read()
    ensures { (p : List ProgTransform) (c : ConfigValue) → IsWellFormed p → IsValid p c → config_read p (config_text p c) ≡ Ok c }
{}

/// A law: an extended configuration chooses the rule at the site from the size on, and what the other chooses below it and
/// at each other site.
pub fn an_extension_chooses_from_its_size()
    ensures { (c : ConfigValue) (site : SiteValue) (size rule : ℕ) (e : ConfigValue) → extended c site size rule ≡ Some e
        → (at : SiteValue) (n : ℕ) → chosen e at n ≡ (if same_site at site && nat_le size n then rule else chosen c at n) }
{}
