use pb_linear::VForm;
use pb_syntax::Relation;
use std::marker::Model;

/// What a view shows: a cell, a row, a column, a region, or the whole matrix.
#[derive(Clone, Copy, Debug)]
pub enum ReadView {
    Cell,
    Row,
    Column,
    Region,
    Whole,
}

/// A coordinate of a view or a side of a condition, with its terms collected. `quotient`: it was written with a quotient
/// of a rule variable, which is left out of `form`.
#[derive(Drop)]
pub struct Coordinate {
    pub form: VForm,
    pub quotient: bool,
}

impl Model for Coordinate {
    ghost use Rattle.pb_linear.specs.Form.{numbers};
    ghost use Rattle.pb_program.specs.Forms.{CoordinateValue};

    ghost Value = { CoordinateValue };

    ghost view = { λ c. record { x = c.form.x; y = c.form.y; rest = numbers c.form.rest; quotient = c.quotient } };
}

/// A view of a matrix, which a rule writes or reads. `matrix` is its number and `at` the place of its name; `dims` is the
/// number of dimensions for which the view is written, for a whole matrix the matrix's. A cell is at `x0` and `y0`, a
/// row at `y0`, a column at `x0`; a region goes from `x0` to before `x1` and from `y0` to before `y1`. Coordinates that
/// the view doesn't have are 0.
#[derive(Drop)]
pub struct Read {
    pub matrix: u32,
    pub at: u32,
    pub view: ReadView,
    pub dims: u8,
    pub x0: Coordinate,
    pub y0: Coordinate,
    pub x1: Coordinate,
    pub y1: Coordinate,
}

/// A condition of a rule as it is written: two sides, and a relation other than `!=`.
#[derive(Drop)]
pub struct Cond {
    pub left: Coordinate,
    pub relation: Relation,
    pub right: Coordinate,
}
