use std::marker::Model;

/// A configuration: which rule makes a cell where several may.
#[derive(Drop)]
pub struct Config {
    pub entries: Vec<Entry>,
}

impl Model for Config {
    ghost use Rattle.pb_program.specs.Configs.{ConfigValue};

    ghost Value = { ConfigValue };

    ghost view = { λ c. record { entries = c.entries.items } };
}

/// What is chosen at a site.
#[derive(Drop)]
pub struct Entry {
    pub site: Site,
    pub selector: Selector,
}

impl Model for Entry {
    ghost use Rattle.pb_program.specs.Configs.{EntryValue};

    ghost Value = { EntryValue };

    ghost view = { λ e. record { site = e.site; selector = e.selector } };
}

/// The cells of a matrix that just the rules of the set may make: the numbers of the transform, of its matrix, and of
/// its rules, rising.
#[derive(Drop)]
pub struct Site {
    pub transform: u32,
    pub matrix: u32,
    pub set: Vec<u32>,
}

impl Model for Site {
    ghost use Rattle.pb_program.specs.Configs.{SiteValue};

    ghost Value = { SiteValue };

    ghost view = { λ s. record { transform = s.transform; matrix = s.matrix; set = s.set.items } };
}

/// The rule for each size: the first, and from each cutoff on the rule beside it.
#[derive(Drop)]
pub struct Selector {
    pub first: u32,
    pub levels: Vec<(u64, u32)>,
}

impl Model for Selector {
    ghost use Rattle.pb_program.specs.Configs.{SelectorValue};

    ghost Value = { SelectorValue };

    ghost view = { λ s. record { first = s.first; levels = s.levels.items } };
}

impl Selector {
    ghost use Rattle.std.specs.Prelude.{◌≡◌};
    ghost use Rattle.pb_program.specs.Configs.{picked};

    /// The rule for a size.
    pub fn pick(&self, size: u64) -> u32
        ensures rule { result ≡ picked self.now size }
    {
        let mut rule = self.first;
        for (cutoff, next) in &self.levels {
            if *cutoff <= size {
                rule = *next;
            }
        }
        rule
    }
}
