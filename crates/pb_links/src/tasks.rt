ghost use Rattle.std.specs.Prelude.{◌≡◌, ◌⊎◌, ◌<◌, ◌≤◌, ◌^◌, ◌∷◌, ◌++◌, IfErr, IfOk, OnOk, [], length};
ghost use Rattle.std.specs.List.{All};
ghost use Rattle.pb_links.specs.Links.{all_predecessors, all_successors, link_count};
ghost use Rattle.pb_links.specs.Owners.{IsTable};
ghost use Rattle.pb_links.specs.Spots.{AllWithin};
ghost use Rattle.pb_links.specs.declared.refusal.LinksRefusal.TheVariants.{Memory, TooMany};

use crate::before::predecessors_of;
use crate::index::{Index, indexed};
use crate::numbers::{Links, Numbers};
use crate::owners::owned_parts;
use crate::places::Places;
use crate::refusal::LinksRefusal;
use crate::turned::turned;
use std::alloc::{AllocError, Global};

/// The predecessors and the successors of each task. `bases` is the number of matrices: each part is of one of them. It
/// refuses as soon as it has found more links than `most`. For each box it looks at those parts of its matrix that neither end
/// before it nor begin after it along one axis, and finds them by binary search; the axis is that which tells the parts apart.
pub fn links(alloc: Global, bases: u32, tasks: &[Places], most: u64) -> Result<Links, LinksRefusal>
    requires bases { All (AllWithin bases) tasks.now }
    requires few { length tasks.now < 2 ^ 32 }
    requires most { most ≤ 2 ^ 62 }
    ensures found { IfOk result (λ l. l ≡ record { before = all_predecessors tasks.now; after = all_successors tasks.now }) }
    ensures within { IfOk result (λ l. link_count tasks.now ≤ most) }
    ensures refused { IfErr result (λ e. (e ≡ Memory) ⊎ ((e ≡ TooMany) × (most < link_count tasks.now))) }
{
    let table = indexed(alloc, owned_parts(alloc, bases, tasks)?)?;
    let before = all_before(alloc, &table, tasks, most)?;
    let after = turned(alloc, &before)?;
    Ok(Links { before, after })
}

fn put(lists: &mut Vec<Numbers>, list: Vec<u32>) -> Result<(), AllocError>
    ensures { OnOk result (lists.new.items ≡ lists.old.items ++ list.items ∷ []) }
{
    lists.push(Numbers { list })?;
    Ok(())
}

/// The predecessors of each task.
fn all_before(
    alloc: Global,
    table: &[Index],
    tasks: &[Places],
    most: u64,
) -> Result<Vec<Numbers>, LinksRefusal>
    requires table { IsTable tasks.now (length tasks.now) (length table.now) table.now }
    requires few { length tasks.now < 2 ^ 32 }
    requires most { most ≤ 2 ^ 62 }
    ensures found { IfOk result (λ before. before.items ≡ all_predecessors tasks.now) }
    ensures within { IfOk result (λ before. link_count tasks.now ≤ most) }
    ensures refused { IfErr result (λ e. (e ≡ Memory) ⊎ ((e ≡ TooMany) × (most < link_count tasks.now))) }
{
    let mut before = Vec::new(alloc);
    let mut count = 0;
    for task in 0..tasks.len() {
        let list = predecessors_of(alloc, table, tasks, task as u32)?;
        count += list.len() as u64;
        if count > most {
            return Err(LinksRefusal::TooMany);
        }
        put(&mut before, list)?;
    }
    Ok(before)
}
