ghost use Rattle.std.specs.Prelude.{◌≡◌, ◌≤◌, length};
ghost use Rattle.pb_statements.specs.Rooms.{local_room};
ghost use Rattle.pb_statements.specs.Stored.{HasRoomFor, bound, SameRoom, store_of};
ghost use Rattle.pb_statements.specs.Working.{assign_cell_in, assign_in, left_in, repeated, room_in, rooms_in, stmt_in, stmts_in, turn_in, turns_in, value_in};
ghost use Rattle.pb_statements.specs.Turns.{all_turns};

use crate::machine::repeat_code;
use crate::port::{NamesTurn, Port};
use crate::scene::Scene;
use crate::scratch::Scratch;
use crate::turns::Turns;
use pb_numbers::is_true;
use pb_program::{Expr, Meaning, Stmt};
use pb_values::{CellReader, Kind};

/// How many turns it takes for a translation to be worth it.
const ENOUGH_TURNS: u64 = 8;

impl<'a, N: NamesTurn> Scene<'a, N> {
    /// Assigns the value of an expression.
    #[tactic(auto, using(crate::proofs::StmtLemmas::assign_ok, crate::proofs::StmtLemmas::assign_err))]
    fn assign<C: CellReader>(
        &self,
        what: Meaning,
        e: &Expr,
        scratch: &mut Scratch,
        port: &mut Port<C, N>,
    ) -> Result<(), Kind>
        requires { local_room what ≤ length scratch.old.locals.items }
        ensures after { assign_in (bound self.now scratch.old) what (store_of scratch.old) (value_in (bound self.now scratch.old) (store_of scratch.old) e.now) ≡ left_in result (store_of scratch.new) }
        ensures room { SameRoom scratch.old scratch.new }
        ensures same_reference { port.new.reader.ghost_name ≡ port.old.reader.ghost_name }
    {
        match self.value(e, scratch, port) {
            Ok(n) => scratch.assign(what, n),
            Err(kind) => Err(kind.kind()),
        }
    }

    /// Assigns to a cell of an output: the coordinates, the right side, and then the place.
    fn assign_cell<C: CellReader>(
        &self,
        what: Meaning,
        coordinates: &[Expr],
        e: &Expr,
        scratch: &mut Scratch,
        port: &mut Port<C, N>,
    ) -> Result<(), Kind>
        ensures after { assign_cell_in (bound self.now scratch.old) what coordinates.now e.now (store_of scratch.old) ≡ left_in result (store_of scratch.new) }
        ensures room { SameRoom scratch.old scratch.new }
        ensures same_reference { port.new.reader.ghost_name ≡ port.old.reader.ghost_name }
    {
        let (i, j) = match self.place(coordinates, scratch, port) {
            Ok(place) => place,
            Err(kind) => return Err(kind.kind()),
        };
        match self.value(e, scratch, port) {
            Ok(n) => scratch.put(what, i, j, n),
            Err(kind) => Err(kind.kind()),
        }
    }

    /// The numbers of a loop.
    fn turns<C: CellReader>(
        &self,
        start: &Expr,
        end: &Expr,
        scratch: &Scratch,
        port: &mut Port<C, N>,
    ) -> Result<Turns, Kind>
        ensures count { all_turns result ≡ turns_in (bound self.now scratch.now) (store_of scratch.now) start.now end.now }
        ensures same_reference { port.new.reader.ghost_name ≡ port.old.reader.ghost_name }
    {
        let low = self.value(start, scratch, port)?;
        let high = self.value(end, scratch, port)?;
        Turns::new(low, high)
    }

    /// What a statement does.
    #[cycle(statement)]
    fn statement<C: CellReader>(
        &self,
        s: &Stmt,
        scratch: &mut Scratch,
        port: &mut Port<C, N>,
    ) -> Result<(), Kind>
        requires { room_in s.now ≤ length scratch.old.locals.items }
        ensures after { stmt_in (bound self.now scratch.old) s.now (store_of scratch.old) ≡ left_in result (store_of scratch.new) }
        ensures room { SameRoom scratch.old scratch.new }
        ensures same_reference { port.new.reader.ghost_name ≡ port.old.reader.ghost_name }
    {
        match s {
            Stmt::Let { name, value, .. } => self.assign(name.what, value, scratch, port),
            Stmt::LetMatrix { .. } => Err(Kind::OutOfView),
            Stmt::Assign { target, value } => self.assign(target.what, value, scratch, port),
            Stmt::Call { .. } => Err(Kind::OutOfView),
            Stmt::AssignCell {
                target,
                coordinates,
                value,
            } => self.assign_cell(target.what, coordinates, value, scratch, port),
            Stmt::If {
                test,
                then,
                otherwise,
                ..
            } => {
                let truth = match self.value(test, scratch, port) {
                    Ok(truth) => truth,
                    Err(kind) => return Err(kind.kind()),
                };
                if is_true(truth) {
                    return self.statements(then, scratch, port);
                }
                match otherwise {
                    Some(otherwise) => self.statements(otherwise, scratch, port),
                    None => Ok(()),
                }
            }
            Stmt::For {
                name,
                start,
                end,
                body,
                ..
            } => match self.turns(start, end, scratch, port) {
                Ok(turns) => self.repeat(body, name.what, &turns, scratch, port),
                Err(kind) => Err(kind),
            },
        }
    }

    /// What statements do, one after another.
    #[cycle(statement)]
    pub fn statements<C: CellReader>(
        &self,
        ss: &[Stmt],
        scratch: &mut Scratch,
        port: &mut Port<C, N>,
    ) -> Result<(), Kind>
        requires { HasRoomFor ss.now scratch.old }
        ensures after { stmts_in (bound self.now scratch.old) ss.now (store_of scratch.old) ≡ left_in result (store_of scratch.new) }
        ensures room { SameRoom scratch.old scratch.new }
        ensures same_reference { port.new.reader.ghost_name ≡ port.old.reader.ghost_name }
    {
        for next in ss {
            match self.statement(next, scratch, port) {
                Ok(()) => (),
                Err(kind) => return Err(kind),
            }
        }
        Ok(())
    }

    /// Runs the body of a loop for each of its numbers, by flat code where it can be translated and there are a few turns.
    #[cycle(statement)]
    fn repeat<C: CellReader>(
        &self,
        body: &[Stmt],
        name: Meaning,
        turns: &Turns,
        scratch: &mut Scratch,
        port: &mut Port<C, N>,
    ) -> Result<(), Kind>
        requires name { local_room name ≤ length scratch.old.locals.items }
        requires body { rooms_in body.now ≤ length scratch.old.locals.items }
        ensures after { repeated (bound self.now scratch.old) name body.now turns.now.low turns.now.count (store_of scratch.old) ≡ left_in result (store_of scratch.new) }
        ensures room { SameRoom scratch.old scratch.new }
        ensures same_reference { port.new.reader.ghost_name ≡ port.old.reader.ghost_name }
    {
        let Meaning::Number(k) = name else {
            return self.walk(body, name, turns, scratch, port);
        };
        if turns.count < ENOUGH_TURNS {
            return self.walk(body, name, turns, scratch, port);
        }
        let room = scratch.locals.len() as u64;
        if !self.translate(body, room, &mut scratch.code, port) {
            return self.walk(body, name, turns, scratch, port);
        }
        repeat_code(
            &scratch.code.steps,
            k,
            turns,
            &mut scratch.locals,
            &mut scratch.code.stack,
        )
    }

    /// Runs the body of a loop for each of its numbers, by walking over it.
    #[cycle(statement)]
    fn walk<C: CellReader>(
        &self,
        body: &[Stmt],
        name: Meaning,
        turns: &Turns,
        scratch: &mut Scratch,
        port: &mut Port<C, N>,
    ) -> Result<(), Kind>
        requires name { local_room name ≤ length scratch.old.locals.items }
        requires body { rooms_in body.now ≤ length scratch.old.locals.items }
        ensures after { repeated (bound self.now scratch.old) name body.now turns.now.low turns.now.count (store_of scratch.old) ≡ left_in result (store_of scratch.new) }
        ensures room { SameRoom scratch.old scratch.new }
        ensures same_reference { port.new.reader.ghost_name ≡ port.old.reader.ghost_name }
    {
        for k in 0..turns.count {
            match self.turn(body, name, turns.number(k), scratch, port) {
                Ok(()) => (),
                Err(kind) => return Err(kind),
            }
        }
        Ok(())
    }

    /// A turn of a loop.
    #[cycle(statement)]
    #[tactic(auto, using(crate::proofs::StmtLemmas::turn_ok, crate::proofs::StmtLemmas::turn_err))]
    fn turn<C: CellReader>(
        &self,
        body: &[Stmt],
        name: Meaning,
        number: i64,
        scratch: &mut Scratch,
        port: &mut Port<C, N>,
    ) -> Result<(), Kind>
        requires name { local_room name ≤ length scratch.old.locals.items }
        requires body { rooms_in body.now ≤ length scratch.old.locals.items }
        ensures after { turn_in (bound self.now scratch.old) name body.now number (store_of scratch.old) ≡ left_in result (store_of scratch.new) }
        ensures room { SameRoom scratch.old scratch.new }
        ensures same_reference { port.new.reader.ghost_name ≡ port.old.reader.ghost_name }
    {
        match scratch.assign(name, number) {
            Ok(()) => self.statements(body, scratch, port),
            Err(kind) => Err(kind),
        }
    }
}
