ghost use Rattle.pb_cells.specs.Stories.{Holds};
ghost use Rattle.pb_cells.specs.Steps.{Draws, Files, Looks, Marks, Reads, Releases, Stores, StoresNumber};
ghost use Rattle.pb_cells.specs.Views.{first_view, gathered_view, joined_view, no_view, turn_view, without_turn};

use crate::view::View;
use atomic_table::{Join, Play, Split, TableRule};
use pb_taskgraph::NamesWork;
use std::marker::PhantomData;

/// The rule of the table of a work.
pub struct CellsRule<N: NamesWork> {
    of: PhantomData<N>,
}

impl<N: NamesWork> TableRule<(), View, ()> for CellsRule<N> {
    ghost holds = { λ _. Holds N.plan };

    ghost first = { λ _. first_view N.plan };
}

/// The store of the value of a cell.
pub(crate) struct StoreValue<N: NamesWork> {
    of: PhantomData<N>,
}

impl<N: NamesWork> Play<(), View> for StoreValue<N> {
    ghost then = { Stores N.plan };
}

/// The store of the mark of a cell.
pub(crate) struct StoreMark;

impl Play<(), View> for StoreMark {
    ghost then = { Marks };
}

/// A load of a word of a cell.
pub(crate) struct LoadCell<N: NamesWork> {
    of: PhantomData<N>,
}

impl<N: NamesWork> Play<(), View> for LoadCell<N> {
    ghost then = { Reads N.plan };
}

/// The addition to the finish count, which draws a finish number.
pub(crate) struct DrawNumber;

impl Play<(), View> for DrawNumber {
    ghost then = { Draws };
}

/// The store of a finish number.
pub(crate) struct StoreNumber;

impl Play<(), View> for StoreNumber {
    ghost then = { StoresNumber };
}

/// The addition to the filed count.
pub(crate) struct AddFiled;

impl Play<(), View> for AddFiled {
    ghost then = { Files };
}

/// The subtraction from the count of a successor.
pub(crate) struct TakeFromCount<N: NamesWork> {
    of: PhantomData<N>,
}

impl<N: NamesWork> Play<(), View> for TakeFromCount<N> {
    ghost then = { Releases N.plan };
}

/// A load of the filed count.
pub(crate) struct LoadFiled<N: NamesWork> {
    of: PhantomData<N>,
}

impl<N: NamesWork> Play<(), View> for LoadFiled<N> {
    ghost then = { Looks N.plan };
}

/// A new seat gets the first turn.
pub(crate) struct FirstTurn;

impl Split<View> for FirstTurn {
    ghost left = { without_turn };

    ghost right = { turn_view };
}

/// A new seat gets nothing.
pub(crate) struct NoTurn;

impl Split<View> for NoTurn {
    ghost left = { λ v. v };

    ghost right = { λ v. no_view };
}

/// A hand takes in a Job.
pub(crate) struct TakeIn;

impl Join<View> for TakeIn {
    ghost both = { joined_view };

    ghost spent = { no_view };
}

/// A hand takes in another hand.
pub(crate) struct Gather;

impl Join<View> for Gather {
    ghost both = { gathered_view };

    ghost spent = { no_view };
}
