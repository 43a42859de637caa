ghost use Rattle.std.specs.Prelude.{◌≡◌, ◌++◌, ◌<◌, ◌^◌, ◌∷◌, IfOk, OnOk, [], length, replicate};
ghost use Rattle.std.specs.List.{All};
ghost use Rattle.pb_links.specs.Spots.{AllWithin, IsWithin};
ghost use Rattle.pb_links.specs.Owners.{IsAdded, IsTable};

use crate::places::{Places, Spot};
use pb_values::Rect;
use std::alloc::{AllocError, Global};
use std::marker::Model;

/// A rectangle that a task makes.
#[derive(Clone, Copy, Debug)]
pub(crate) struct Owned {
    pub(crate) task: u32,
    pub(crate) rect: Rect,
}

/// The rectangles of one matrix, each with its task, in the order of the tasks.
#[derive(Drop)]
pub(crate) struct Owners {
    list: Vec<Owned>,
}

impl Model for Owners {
    ghost use Rattle.std.specs.Prelude.{List};
    ghost use Rattle.pb_links.specs.declared.owners.Owned.{Owned};

    ghost Value = { List Owned };

    ghost view = { λ o. o.list.items };
}

impl Owners {
    pub(crate) fn into_list(self) -> Vec<Owned>
        ensures { result.items ≡ self }
    {
        self.list
    }

    fn push(&mut self, owned: Owned) -> Result<(), AllocError>
        ensures { OnOk result (self.new ≡ self.old ++ owned ∷ []) }
    {
        self.list.push(owned)?;
        Ok(())
    }
}

fn no_owners(alloc: Global, bases: u32) -> Result<Vec<Owners>, AllocError>
    ensures { IfOk result (λ table. table.items ≡ replicate bases []) }
{
    let mut table = Vec::new(alloc);
    for _base in 0..bases {
        table.push(Owners {
            list: Vec::new(alloc),
        })?;
    }
    Ok(table)
}

fn add_part(table: &mut Vec<Owners>, task: u32, part: Spot) -> Result<(), AllocError>
    requires { part.base < length table.old.items }
    ensures { OnOk result (IsAdded table.old.items table.new.items task (part ∷ [])) }
{
    table[part.base as usize].push(Owned {
        task,
        rect: part.rect,
    })
}

fn add_parts(table: &mut Vec<Owners>, task: u32, parts: &[Spot]) -> Result<(), AllocError>
    requires { All (IsWithin (length table.old.items)) parts.now }
    ensures { OnOk result (IsAdded table.old.items table.new.items task parts.now) }
{
    for part in parts {
        add_part(table, task, *part)?;
    }
    Ok(())
}

/// The parts of all tasks, by the number of their matrix.
pub(crate) fn owned_parts(
    alloc: Global,
    bases: u32,
    tasks: &[Places],
) -> Result<Vec<Owners>, AllocError>
    requires bases { All (AllWithin bases) tasks.now }
    requires few { length tasks.now < 2 ^ 32 }
    ensures { IfOk result (λ table. IsTable tasks.now (length tasks.now) bases table.items) }
{
    let mut table = no_owners(alloc, bases)?;
    for task in 0..tasks.len() {
        let places = &tasks[task];
        add_parts(&mut table, task as u32, &places.parts)?;
    }
    Ok(table)
}
