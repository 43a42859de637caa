ghost use Rattle.std.specs.Prelude.{◌≡◌, ◌++◌, ◌<◌, ◌^◌, ◌∷◌, IfOk, OnOk, [], length, replicate};
ghost use Rattle.std.specs.List.{All};
ghost use Rattle.pb_links.specs.Turned.{AreTurned, IsNoted, IsRising};

use crate::numbers::Numbers;
use std::alloc::{AllocError, Global};

impl Numbers {
    fn push(&mut self, task: u32) -> Result<(), AllocError>
        ensures { OnOk result (self.new ≡ self.old ++ task ∷ []) }
    {
        self.list.push(task)?;
        Ok(())
    }
}

fn no_numbers(alloc: Global, count: usize) -> Result<Vec<Numbers>, AllocError>
    ensures { IfOk result (λ lists. lists.items ≡ replicate count []) }
{
    let mut lists = Vec::new(alloc);
    for _task in 0..count {
        lists.push(Numbers {
            list: Vec::new(alloc),
        })?;
    }
    Ok(lists)
}

fn note_at(lists: &mut Vec<Numbers>, at: u32, task: u32) -> Result<(), AllocError>
    requires { at < length lists.old.items }
    ensures { OnOk result (IsNoted lists.old.items lists.new.items (at ∷ []) task) }
{
    lists[at as usize].push(task)
}

/// Adds a task at the end of the lists of these numbers.
fn note(lists: &mut Vec<Numbers>, numbers: &[u32], task: u32) -> Result<(), AllocError>
    requires rising { IsRising numbers.now }
    requires inside { All (λ at. at < length lists.old.items) numbers.now }
    ensures { OnOk result (IsNoted lists.old.items lists.new.items numbers.now task) }
{
    for at in numbers {
        note_at(lists, *at, task)?;
    }
    Ok(())
}

/// For each number the places of the lists in which it stands, in rising order.
pub(crate) fn turned(alloc: Global, lists: &[Numbers]) -> Result<Vec<Numbers>, AllocError>
    requires few { length lists.now < 2 ^ 32 }
    requires rising { All IsRising lists.now }
    requires inside { All (All (λ at. at < length lists.now)) lists.now }
    ensures { IfOk result (λ after. AreTurned lists.now after.items) }
{
    let mut after = no_numbers(alloc, lists.len())?;
    for task in 0..lists.len() {
        let numbers = &lists[task];
        note(&mut after, &numbers.list, task as u32)?;
    }
    Ok(after)
}
