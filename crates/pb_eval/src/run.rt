ghost use Rattle.std.specs.Prelude.{◌≡◌, ◌≤◌, ◌<◌, ◌^◌, length, map};
ghost use Rattle.std.specs.List.{All};
ghost use Rattle.pb_linear.specs.Sizes.{sizes_of};
ghost use Rattle.pb_syntax.specs.declared.limits.TheConstants.{MOST_VIEWS};
ghost use Rattle.pb_program.specs.Stmts.{bare_stmt, stmts};
ghost use Rattle.pb_model.specs.Bodies.{left_by};
ghost use Rattle.pb_model.specs.Equations.{first_trap};
ghost use Rattle.pb_statements.specs.Outputs.{free_sides, numbers_in};
ghost use Rattle.pb_eval.specs.Running.{names_of, Runs};
ghost use Rattle.pb_statements.specs.Stored.{locals_of, outs_of};
ghost use Rattle.pb_statements.specs.Shown.{IsTold, seen_by};
ghost use Rattle.pb_statements.specs.Working.{rooms_in};

use crate::traps::first_trap;
use pb_linear::{SIZE_TOP, Sizes};
use pb_program::{Decl, Read, Stmt};
use pb_statements::{NamesTurn, Port, Scene, Scratch};
use pb_values::{CellReader, Kind, Trap, View};
use std::marker::PhantomData;

/// What ends a rule without numbers: a trap that was read, or one of its body.
#[derive(Clone, Copy)]
pub(crate) enum Fault {
    Told(Trap),
    Body(Kind),
}

/// Runs a rule over its reads: the first trap that is read, or else what its body leaves.
pub(crate) fn run<C: CellReader, N: NamesTurn>(
    outs: &[Read],
    body: &[Stmt],
    matrices: &[Decl],
    s: &Sizes,
    x: u64,
    y: u64,
    views: &[View],
    port: &mut C,
    scratch: &mut Scratch,
) -> Result<u64, Fault>
    requires turn { C.turn port.old ≡ N.turn }
    requires few { length outs.now ≤ MOST_VIEWS }
    requires there { All (λ out. out.matrix < length matrices.now) outs.now }
    requires sizes { All (λ size. size ≤ SIZE_TOP) s.now.of }
    requires x { x < 2 ^ 63 }
    requires y { y < 2 ^ 63 }
    requires told { All (IsTold N.turn) views.now }
    requires locals { rooms_in body.now ≤ locals_of scratch.old }
    requires numbers { numbers_in (map (free_sides matrices.now (sizes_of s.now)) outs.now) ≤ outs_of scratch.old }
    ensures found { Runs (first_trap (seen_by N.turn views.now)) (map (free_sides matrices.now (sizes_of s.now)) outs.now)
        (left_by (names_of N.turn s.now x y views.now (map (free_sides matrices.now (sizes_of s.now)) outs.now)) (stmts (map bare_stmt body.now))) result scratch.new }
    ensures locals { locals_of scratch.new ≡ locals_of scratch.old }
    ensures numbers { outs_of scratch.new ≡ outs_of scratch.old }
    ensures stays { C.turn port.new ≡ C.turn port.old }
{
    let mut told = Port::<C, N> {
        reader: port,
        of: PhantomData,
    };
    if let Some(trap) = first_trap(views, &mut told) {
        return Err(Fault::Told(trap));
    }
    let total = scratch.begin(outs, matrices, s);
    let scene = Scene::<N> {
        sizes: s,
        x,
        y,
        views,
        of: PhantomData,
    };
    match scene.statements(body, scratch, &mut told) {
        Ok(()) => Ok(total),
        Err(kind) => Err(Fault::Body(kind)),
    }
}
