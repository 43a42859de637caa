ghost use Rattle.std.specs.Prelude.{◌≤◌, IsTrue, length};
ghost use Rattle.std.specs.Vec.{vec_capacity};
ghost use Rattle.pb_syntax.specs.declared.limits.TheConstants.{MOST_VIEWS};
ghost use Rattle.pb_statements.specs.Spots.{are_laid};

use crate::cell::natural;
use crate::code::Code;
use crate::shown::Shown;
use crate::spot::Spot;
use pb_program::Meaning;
use pb_syntax::MOST_VIEWS;
use pb_values::Kind;
use std::alloc::{AllocError, Global};

/// Room for the locals and the outputs of a body.
#[derive(Drop)]
pub struct Scratch {
    pub(crate) locals: Vec<i64>,
    pub(crate) numbers: Vec<i64>,
    pub(crate) spots: Vec<Spot>,
    pub(crate) code: Code,
    pub(crate) ghost laid: { IsTrue (are_laid 0 spots.items (length numbers.items)) },
    pub(crate) ghost room: { MOST_VIEWS ≤ vec_capacity spots },
}

impl Scratch {
    ghost use Rattle.std.specs.Prelude.{◌≡◌};
    ghost use Rattle.std.specs.Prelude.{◌<◌, IfOk, pos, slice_index_or};
    ghost use Rattle.pb_statements.specs.Stored.{locals_of, numbers_of, outs_of, bound, store_of, SameRoom};
    ghost use Rattle.pb_model.specs.Bodies.{local};
    ghost use Rattle.pb_values.specs.Cells.{Turn};
    ghost use Rattle.pb_program.specs.declared.meaning.Meaning.TheVariants.{Output};
    ghost use Rattle.pb_model.specs.Bodies.{view_of};
    ghost use Rattle.pb_statements.specs.Places.{grid_shown, IsShown};
    ghost use Rattle.pb_statements.specs.Shown.{Around};

    /// Room for so many locals and so many numbers of outputs.
    #[tactic(auto, unfolding(crate::specs::Stored::locals_of, crate::specs::Stored::outs_of))]
    pub fn new(alloc: Global, locals: u64, outs: u64) -> Result<Scratch, AllocError>
        ensures locals { IfOk result (λ s. locals_of s ≡ locals) }
        ensures outs { IfOk result (λ s. outs_of s ≡ outs) }
    {
        Ok(Scratch {
            locals: vec![in alloc; 0i64; locals as usize]?,
            numbers: vec![in alloc; 0i64; outs as usize]?,
            spots: Vec::with_capacity(alloc, MOST_VIEWS)?,
            code: Code::new(alloc)?,
        })
    }

    /// The number at place `k` of the room for outputs. Once they are laid, the outputs' numbers stand there from 0 on, output by
    /// output, each row by row.
    #[tactic(auto, using(crate::proofs::SceneLemmas::get_or_any), unfolding(crate::specs::Stored::numbers_of, crate::specs::Stored::outs_of))]
    pub fn out(&self, k: u64) -> i64
        requires { k < outs_of self.now }
        ensures { result ≡ slice_index_or (numbers_of self.now) k (pos 0) }
    {
        self.numbers[k as usize]
    }

    /// What an output shows as it is now.
    #[inline(always)]
    #[tactic(auto, using(crate::proofs::SceneLemmas::output_shown, crate::proofs::SceneLemmas::output_past, crate::proofs::SceneLemmas::laid_within))]
    pub(crate) fn output(&self, k: u32) -> Shown
        ensures grid { (turn : Turn) (a : Around) → grid_shown turn self.now.numbers.items result ≡ view_of (bound a self.now) (store_of self.now) (Output k) }
        ensures shown { (turn : Turn) → IsShown turn self.now.numbers.items result }
    {
        if (k as usize) < self.spots.len() {
            Shown::Kept(self.spots[k as usize])
        } else {
            Shown::Nothing
        }
    }

    /// The number of a local; 0 where there is no room for it.
    #[inline(always)]
    #[tactic(auto, using(crate::proofs::SceneLemmas::local_there, crate::proofs::SceneLemmas::local_past))]
    pub(crate) fn local(&self, k: u32) -> i64
        ensures { result ≡ store_of self.now (local k) }
    {
        if (k as usize) < self.locals.len() {
            self.locals[k as usize]
        } else {
            0
        }
    }

    ghost use Rattle.pb_model.specs.Bodies.{assigned, place_of, put_at, with_number};
    ghost use Rattle.pb_model.specs.Bodies.{output as an_output};
    ghost use Rattle.pb_statements.specs.Rooms.{local_room};
    ghost use Rattle.pb_statements.specs.declared.spot.Spot.{Spot};
    ghost use Rattle.pb_statements.specs.Working.{left_in};

    /// Puts a number in a local.
    #[tactic(auto, using(crate::proofs::StoreLemmas::local_put))]
    fn set_local(&mut self, k: u32, n: i64)
        requires { k < length self.old.locals.items }
        ensures store { store_of self.new ≡ with_number (store_of self.old) (local k) n }
        ensures room { SameRoom self.old self.new }
    {
        self.locals[k as usize] = n;
    }

    /// Puts a number at a place of an output.
    #[tactic(auto, using(crate::proofs::StoreLemmas::output_put, crate::proofs::StoreLemmas::output_room))]
    fn set_output(&mut self, k: u32, x: u64, y: u64, n: i64)
        requires there { k < length self.old.spots.items }
        requires across { (s : Spot) → s ≡ slice_index_or self.old.spots.items k s → x < s.width }
        requires down { (s : Spot) → s ≡ slice_index_or self.old.spots.items k s → y < s.height }
        ensures store { store_of self.new ≡ with_number (store_of self.old) (an_output k x y) n }
        ensures room { SameRoom self.old self.new }
    {
        let spot = self.spots[k as usize];
        self.numbers[(spot.first + (y * spot.width + x)) as usize] = n;
    }

    /// Assigns a number to a local, or to an output of one cell.
    pub(crate) fn assign(&mut self, what: Meaning, n: i64) -> Result<(), Kind>
        requires { local_room what ≤ length self.old.locals.items }
        ensures after { (a : Around) → assigned (store_of self.old) (place_of (bound a self.old) what) n ≡ left_in result (store_of self.new) }
        ensures room { SameRoom self.old self.new }
    {
        match what {
            Meaning::Number(k) => {
                self.set_local(k, n);
                Ok(())
            }
            Meaning::Output(k) => self.assign_output(k, n),
            _ => Err(Kind::OutOfView),
        }
    }

    /// Assigns a number to an output of one cell.
    fn assign_output(&mut self, k: u32, n: i64) -> Result<(), Kind>
        ensures after { (a : Around) → assigned (store_of self.old) (place_of (bound a self.old) (Output k)) n ≡ left_in result (store_of self.new) }
        ensures room { SameRoom self.old self.new }
    {
        if k as usize >= self.spots.len() {
            return Err(Kind::OutOfView);
        }
        let spot = self.spots[k as usize];
        if spot.width != 1 {
            return Err(Kind::OutOfView);
        }
        if spot.height != 1 {
            return Err(Kind::OutOfView);
        }
        self.set_output(k, 0, 0, n);
        Ok(())
    }

    /// Puts a number at coordinates of an output, which may be outside.
    pub(crate) fn put(&mut self, what: Meaning, i: i64, j: i64, n: i64) -> Result<(), Kind>
        ensures after { (a : Around) → put_at (bound a self.old) (store_of self.old) what i j n ≡ left_in result (store_of self.new) }
        ensures room { SameRoom self.old self.new }
    {
        let Meaning::Output(k) = what else {
            return Err(Kind::OutOfView);
        };
        let Some(x) = natural(i) else {
            return Err(Kind::OutOfView);
        };
        let Some(y) = natural(j) else {
            return Err(Kind::OutOfView);
        };
        self.put_output(k, x, y, n)
    }

    fn put_output(&mut self, k: u32, x: u64, y: u64, n: i64) -> Result<(), Kind>
        ensures after { (a : Around) → put_at (bound a self.old) (store_of self.old) (Output k) (pos x) (pos y) n ≡ left_in result (store_of self.new) }
        ensures room { SameRoom self.old self.new }
    {
        if k as usize >= self.spots.len() {
            return Err(Kind::OutOfView);
        }
        let spot = self.spots[k as usize];
        if x >= spot.width {
            return Err(Kind::OutOfView);
        }
        if y >= spot.height {
            return Err(Kind::OutOfView);
        }
        self.set_output(k, x, y, n);
        Ok(())
    }
}
