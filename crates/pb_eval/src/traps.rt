ghost use Rattle.std.specs.Prelude.{◌≡◌, ◌<◌};
ghost use Rattle.std.specs.List.{All};
ghost use Rattle.pb_model.specs.Equations.{first_trap};
ghost use Rattle.pb_statements.specs.Shown.{IsTold};
ghost use Rattle.pb_eval.specs.Traps.{outcomes_from, rows_seen, views_seen};

use pb_statements::{NamesTurn, Port};
use pb_values::{CellReader, Trap, View};

/// The first trap in a row of a view.
#[inline]
fn row_trap<C: CellReader, N: NamesTurn>(view: &View, y: u64, port: &mut Port<C, N>) -> Option<Trap>
    requires told { IsTold N.turn view.now }
    requires row { y < view.now.shape.h }
    ensures trap { result ≡ first_trap (outcomes_from N.turn view.now y 0) }
    ensures same_reference { port.new.reader.ghost_name ≡ port.old.reader.ghost_name }
{
    for x in 0..view.shape.w {
        match port.trap(view.place(x, y)) {
            None => (),
            Some(trap) => return Some(trap),
        }
    }
    None
}

/// The trap in a view of one cell.
#[inline(always)]
fn cell_trap<C: CellReader, N: NamesTurn>(view: &View, port: &mut Port<C, N>) -> Option<Trap>
    requires told { IsTold N.turn view.now }
    requires wide { view.now.shape.w ≡ 1 }
    requires tall { view.now.shape.h ≡ 1 }
    ensures trap { result ≡ first_trap (rows_seen N.turn view.now 0) }
    ensures same_reference { port.new.reader.ghost_name ≡ port.old.reader.ghost_name }
{
    port.trap(view.place(0, 0))
}

/// The first trap in a view.
fn view_trap<C: CellReader, N: NamesTurn>(view: &View, port: &mut Port<C, N>) -> Option<Trap>
    requires { IsTold N.turn view.now }
    ensures trap { result ≡ first_trap (rows_seen N.turn view.now 0) }
    ensures same_reference { port.new.reader.ghost_name ≡ port.old.reader.ghost_name }
{
    if view.shape.w == 1 {
        if view.shape.h == 1 {
            return cell_trap(view, port);
        }
    }
    // A view without columns may have any number of rows.
    for y in 0..view.shape.h {
        match row_trap(view, y, port) {
            None => (),
            Some(trap) => return Some(trap),
        }
    }
    None
}

/// The first trap among the cells of views, each of which is looked at.
fn trap_among<C: CellReader, N: NamesTurn>(views: &[View], port: &mut Port<C, N>) -> Option<Trap>
    requires { All (IsTold N.turn) views.now }
    ensures trap { result ≡ first_trap (views_seen N.turn views.now) }
    ensures same_reference { port.new.reader.ghost_name ≡ port.old.reader.ghost_name }
{
    for view in views {
        match view_trap(view, port) {
            None => (),
            Some(trap) => return Some(trap),
        }
    }
    None
}

/// The first trap among the cells of views.
#[inline(always)]
pub(crate) fn first_trap<C: CellReader, N: NamesTurn>(
    views: &[View],
    port: &mut Port<C, N>,
) -> Option<Trap>
    requires { All (IsTold N.turn) views.now }
    ensures trap { result ≡ first_trap (views_seen N.turn views.now) }
    ensures same_reference { port.new.reader.ghost_name ≡ port.old.reader.ghost_name }
{
    if port.is_untrapped() {
        return None;
    }
    trap_among(views, port)
}
