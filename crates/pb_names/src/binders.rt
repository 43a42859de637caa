ghost use Rattle.std.specs.Prelude.{◌≡◌};
ghost use Rattle.pb_names.specs.Binders.{names_in};
ghost use Rattle.pb_names.specs.Views.{has_names, repeats};

use pb_values::Name;

/// The rule variables that an output binds.
#[derive(Clone, Copy)]
pub enum Binders<'t> {
    None,
    One(&'t Name),
    Two(&'t Name, &'t Name),
}

impl<'t> Binders<'t> {
    /// Whether there are any.
    pub fn are_there(&self) -> bool
        ensures { result ≡ has_names (names_in self.now) }
    {
        match self {
            Binders::None => false,
            _ => true,
        }
    }

    /// Whether one stands twice.
    pub fn repeat(&self) -> bool
        ensures { result ≡ repeats (names_in self.now) }
    {
        match self {
            Binders::Two(x, y) => x.is_same(y),
            _ => false,
        }
    }
}
