ghost use Rattle.std.specs.Prelude.{◌≡◌, ◌<◌, ◌^◌, ◌++◌, IfOk, OnOk, length, map};
ghost use Rattle.std.specs.List.{All, zip};
ghost use Rattle.pb_recursion.specs.Plans.{named, names_of_reads, same_slot};
ghost use Rattle.pb_views.specs.Seats.{IsSmall, no_seat};
ghost use Rattle.pb_steps.specs.Stands.{AreSmall};

use pb_program::Slot;
use pb_views::Seat;
use std::alloc::{AllocError, Global};
use std::collections::VecDeque;
use std::marker::Model;

/// Where the matrices stand that a plan names, the latest name first.
#[derive(Drop)]
pub(crate) struct Names {
    list: VecDeque<(Slot, Seat)>,
}

impl Model for Names {
    ghost use Rattle.pb_steps.specs.Values.{NamesValue};

    ghost Value = { NamesValue };

    ghost view = { λ n. n.list.items };
}

/// Where nothing stands.
fn no_seat() -> Seat
    ensures { result ≡ no_seat }
{
    Seat::whole(0, 0, 0, 0)
}

fn same_slot(a: Slot, b: Slot) -> bool
    ensures { result ≡ same_slot a b }
{
    match (a, b) {
        (Slot::Out(i), Slot::Out(j)) => i == j,
        (Slot::Read(i), Slot::Read(j)) => i == j,
        (Slot::Local(i), Slot::Local(j)) => i == j,
        _ => false,
    }
}

/// Puts names first, name by name; of equal names the first holds.
fn put_first(
    list: &mut VecDeque<(Slot, Seat)>,
    slots: &[Slot],
    seats: &[Seat],
) -> Result<(), AllocError>
    ensures names { OnOk result (list.new.items ≡ zip slots.now seats.now ++ list.old.items) }
    ensures small { OnOk result (AreSmall list.old.items → All IsSmall seats.now → AreSmall list.new.items) }
{
    let count = slots.len().min(seats.len());
    for given in 0..count {
        let k = count - 1 - given;
        let seat = seats[k];
        list.push_front((slots[k], seat))?;
    }
    Ok(())
}

impl Names {
    /// Those of a rule before its calls: its reads, which are seated so.
    pub(crate) fn of_reads(alloc: Global, reads: &[Seat]) -> Result<Names, AllocError>
        requires few { length reads.now < 2 ^ 32 }
        ensures names { IfOk result (λ n. n ≡ names_of_reads reads.now) }
        ensures small { IfOk result (λ n. All IsSmall reads.now → AreSmall n) }
    {
        let mut list = VecDeque::new(alloc);
        for k in 0..reads.len() {
            list.push_back((Slot::Read(k as u32), reads[k]))?;
        }
        Ok(Names { list })
    }

    /// Where what has a name stands; nowhere, if nothing has it.
    pub(crate) fn named(&self, slot: Slot) -> Seat
        ensures seat { result ≡ named no_seat self.now slot }
        ensures small { AreSmall self.now → IsSmall result }
    {
        let list = &self.list;
        for k in 0..list.len() {
            let named = &list[k];
            if same_slot(named.0, slot) {
                return named.1;
            }
        }
        no_seat()
    }

    /// Where what has some names stands, name by name.
    pub(crate) fn all_named(&self, alloc: Global, slots: &[Slot]) -> Result<Vec<Seat>, AllocError>
        ensures seats { IfOk result (λ seats. seats.items ≡ map (named no_seat self.now) slots.now) }
        ensures small { IfOk result (λ seats. AreSmall self.now → All IsSmall seats.items) }
    {
        let mut seats = Vec::new(alloc);
        for k in 0..slots.len() {
            let seat = self.named(slots[k]);
            seats.push(seat)?;
        }
        Ok(seats)
    }

    /// Gives names to matrices, name by name; of equal names the first holds.
    pub(crate) fn give(&mut self, slots: &[Slot], seats: &[Seat]) -> Result<(), AllocError>
        ensures names { OnOk result (self.new ≡ zip slots.now seats.now ++ self.old) }
        ensures small { OnOk result (AreSmall self.old → All IsSmall seats.now → AreSmall self.new) }
    {
        put_first(&mut self.list, slots, seats)
    }
}
