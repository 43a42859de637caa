ghost use Rattle.std.specs.Prelude.{◌≡◌, IsSome, IsTrue, Some};
ghost use Rattle.pb_values.specs.Cells.{HasNoTrap, TellsTrap, Turn, is_number};
ghost use Rattle.pb_values.specs.declared.outcome.Outcome.TheVariants.{Value};

use crate::outcome::{Outcome, Trap};

/// Where the outcomes of cells are read from.
pub trait CellReader {
    /// The cells that may be read, with their outcomes; and what is still to be written, where cells are written too.
    ghost turn: { Self → Turn };

    /// The outcome of a cell, which is one that may be read.
    fn read(&mut self, cell: u64) -> Outcome
        requires { IsSome ((turn self.old).outcomes cell) }
        ensures outcome { (turn self.old).outcomes cell ≡ Some result }
        ensures stays { turn self.new ≡ turn self.old };

    /// Whether it is known, without a look at the cells, that none that may be read is trapped.
    fn is_untrapped(&self) -> bool
        ensures { IsTrue result → HasNoTrap (turn self.now) }
    {
        false
    }

    /// The trap of a cell, which is one that may be read; none where it has a number.
    fn trap(&mut self, cell: u64) -> Option<Trap>
        requires { IsSome ((turn self.old).outcomes cell) }
        ensures trap { TellsTrap ((turn self.old).outcomes cell) result }
        ensures stays { turn self.new ≡ turn self.old }
    {
        match self.read(cell) {
            Outcome::Value(_) => None,
            Outcome::Trapped(trap) => Some(trap),
        }
    }

    /// The number of a cell, which is one that may be read and that isn't trapped.
    fn number(&mut self, cell: u64) -> i64
        requires { IsTrue (is_number ((turn self.old).outcomes cell)) }
        ensures number { (turn self.old).outcomes cell ≡ Some (Value result) }
        ensures stays { turn self.new ≡ turn self.old }
    {
        match self.read(cell) {
            Outcome::Value(number) => number,
            Outcome::Trapped(_) => unreachable!(),
        }
    }
}
