use crate::packed::{trap_in, word_of};
use pb_values::{Outcome, Trap};
use std::alloc::{AllocError, Global};
use std::marker::Model;

/// The outcomes of cells, by number. A cell takes nine bytes: its number or its trap as one word, and a flag that tells which of
/// both it is. Where `any` is false each of them is a number, and there are no flags: their room isn't touched before a trap is put.
#[derive(Debug, Drop)]
pub struct Outcomes {
    words: Vec<i64>,
    trapped: Vec<bool>,
    any: bool,
}

impl Model for Outcomes {
    ghost use Rattle.std.specs.Prelude.{List, length};
    ghost use Rattle.std.specs.Vec.{vec_capacity};
    ghost use Rattle.pb_values.specs.declared.outcome.Outcome.{Outcome};
    ghost use Rattle.pb_taskgraph.specs.Packed.{AreFlags, outcomes_in};

    ghost Value = { List Outcome };

    ghost view = { λ o. outcomes_in o.words.items o.trapped.items };

    ghost invariant = { λ o. AreFlags o.any o.trapped.items (vec_capacity o.trapped) (length o.words.items) };
}

impl Outcomes {
    ghost use Rattle.std.specs.Prelude.{◌≡◌, ◌<◌, ◌≤◌, ◌-◌, IfOk, IfSome, IsTrue, Some, drop, length, map, slice_get, slice_set, take};
    ghost use Rattle.pb_values.specs.declared.outcome.Outcome.TheVariants.{Trapped, Value};
    ghost use Rattle.pb_values.specs.Cells.{is_number};
    ghost use Rattle.pb_taskgraph.specs.Packed.{HasNumbers};
    ghost use Rattle.pb_taskgraph.specs.Plans.{IsSmall};

    /// So many outcomes. Nothing is said of what they are.
    #[tactic(auto, using(crate::proofs::PackedLemmas::length_in))]
    pub fn zeros(alloc: Global, cells: u64) -> Result<Outcomes, AllocError>
        ensures { IfOk result (λ o. length o ≡ cells) }
    {
        Ok(Outcomes {
            words: vec![in alloc; 0i64; cells as usize]?,
            trapped: Vec::with_capacity(alloc, cells as usize)?,
            any: false,
        })
    }

    /// How many there are.
    pub fn count(&self) -> u64
        ensures { result ≡ length self.now }
    {
        self.words.len() as u64
    }

    /// The outcome of a cell.
    #[inline(always)]
    pub fn get(&self, cell: u64) -> Outcome
        requires { cell < length self.now }
        ensures { slice_get self.now cell ≡ Some result }
    {
        let word = self.words[cell as usize];
        if !self.any {
            return Outcome::Value(word);
        }
        if self.trapped[cell as usize] {
            Outcome::Trapped(trap_in(word.unsigned_abs()))
        } else {
            Outcome::Value(word)
        }
    }

    /// Whether it is known that none of them is a trap.
    #[inline(always)]
    pub fn is_untrapped(&self) -> bool
        ensures { IsTrue result → HasNumbers self.now }
    {
        !self.any
    }

    /// The number of a cell that isn't trapped.
    #[inline(always)]
    pub fn number(&self, cell: u64) -> i64
        requires { IsTrue (is_number (slice_get self.now cell)) }
        ensures { slice_get self.now cell ≡ Some (Value result) }
    {
        self.words[cell as usize]
    }

    /// The numbers of the cells from `first` to before `end`, if it is seen that none of them is trapped; none tells nothing.
    pub fn numbers(&self, first: usize, end: usize) -> Option<&[i64]>
        requires order { first ≤ end }
        requires below { end ≤ length self.now }
        ensures { IfSome result (λ numbers. take (end - first) (drop first self.now) ≡ map (λ z. Value z) numbers.now) }
    {
        if self.any && self.trapped[first..end].contains(&true) {
            return None;
        }
        Some(&self.words[first..end])
    }

    /// Puts the outcome of a cell in the place of the one that is there.
    #[inline(always)]
    pub fn set(&mut self, cell: u64, outcome: Outcome)
        requires below { cell < length self.old }
        requires small { IsSmall outcome }
        ensures { self.new ≡ slice_set self.old cell outcome }
    {
        match outcome {
            Outcome::Value(number) => self.set_number(cell, number),
            Outcome::Trapped(trap) => self.set_trap(cell, trap),
        }
    }

    /// Puts a number in the place of the outcome of a cell.
    #[inline(always)]
    pub(crate) fn set_number(&mut self, cell: u64, number: i64)
        requires { cell < length self.old }
        ensures { self.new ≡ slice_set self.old cell (Value number) }
    {
        self.words[cell as usize] = number;
        if self.any {
            self.trapped[cell as usize] = false;
        }
    }

    /// Puts a trap in the place of the outcome of a cell. The first one makes the flags, for which there is room.
    pub(crate) fn set_trap(&mut self, cell: u64, trap: Trap)
        requires below { cell < length self.old }
        requires small { IsSmall (Trapped trap) }
        ensures { self.new ≡ slice_set self.old cell (Trapped trap) }
    {
        let _ = self.trapped.resize(self.words.len(), false);
        self.any = true;
        self.words[cell as usize] = word_of(&trap);
        self.trapped[cell as usize] = true;
    }
}
