ghost use Rattle.std.specs.Prelude.{◌≡◌};
ghost use Rattle.pb_types.specs.Bodies.{is_local};

use pb_program::Meaning;

/// The names of the loops around a statement, the innermost first.
#[derive(Drop)]
pub(crate) enum Loops<'a> {
    Outside,
    Inside { name: Meaning, outer: &'a Loops<'a> },
}

impl<'a> Loops<'a> {
    ghost use Rattle.std.specs.List.{list_any};
    ghost use Rattle.pb_types.specs.Loops.{names};

    /// Whether the local is the name of a loop.
    pub(crate) fn has(&self, local: u32) -> bool
        ensures { result ≡ list_any (is_local local) (names self.now) }
    {
        match self {
            Loops::Outside => false,
            Loops::Inside { name, outer } => is_local(local, *name) || outer.has(local),
        }
    }
}

fn is_local(local: u32, name: Meaning) -> bool
    ensures { result ≡ is_local local name }
{
    match name {
        Meaning::Number(number) => local == number,
        _ => false,
    }
}
