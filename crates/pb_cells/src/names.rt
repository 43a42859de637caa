ghost use Rattle.atomic_table.specs.Seated.{TableId};
ghost use Rattle.pb_cells.specs.Handles.{no_table};

use std::marker::Brand;

/// A name for a table, so that a type can speak of one.
pub trait NamesTable {
    /// Which table it is.
    ghost table: { TableId };
}

impl NamesTable for Brand {
    ghost table = { no_table };
}
