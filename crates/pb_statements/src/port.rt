ghost use Rattle.std.specs.Prelude.{◌≡◌, IsTrue, is_some};
ghost use Rattle.pb_values.specs.Cells.{HasNoTrap, TellsTrap, Turn, is_number};
ghost use Rattle.pb_statements.specs.Shown.{number_told};

use pb_values::{CellReader, Trap};
use std::marker::Brand;

/// A name for what a reader tells, so that a type can speak of it.
pub trait NamesTurn {
    ghost turn: { Turn };
}

impl NamesTurn for Brand {
    ghost use Rattle.pb_statements.specs.Shown.{nothing_told};

    ghost turn = { nothing_told };
}

/// A reader that tells just that.
#[derive(Drop)]
pub struct Port<'a, C: CellReader, N: NamesTurn> {
    pub reader: &'a mut C,
    pub of: std::marker::PhantomData<N>,
    pub ghost same: { C.turn reader.now ≡ N.turn },
}

impl<'a, C: CellReader, N: NamesTurn> Port<'a, C, N> {
    /// Whether it is known that no cell that is told is trapped.
    #[tactic(auto, using(crate::proofs::ViewLemmas::told_untrapped))]
    pub fn is_untrapped(&self) -> bool
        ensures { IsTrue result → HasNoTrap N.turn }
    {
        self.reader.is_untrapped()
    }

    /// The trap of a cell that is told.
    #[tactic(auto, using(crate::proofs::ViewLemmas::told_trap))]
    pub fn trap(&mut self, cell: u64) -> Option<Trap>
        requires { IsTrue (is_some (N.turn.outcomes cell)) }
        ensures trap { TellsTrap (N.turn.outcomes cell) result }
        ensures same_reference { self.new.reader.ghost_name ≡ self.old.reader.ghost_name }
    {
        self.reader.trap(cell)
    }

    /// The number of a cell of which one is told.
    #[tactic(auto, using(crate::proofs::ViewLemmas::told_number))]
    pub fn number(&mut self, cell: u64) -> i64
        requires { IsTrue (is_number (N.turn.outcomes cell)) }
        ensures number { result ≡ number_told N.turn cell }
        ensures same_reference { self.new.reader.ghost_name ≡ self.old.reader.ghost_name }
    {
        self.reader.number(cell)
    }
}
