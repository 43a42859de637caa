ghost use Rattle.std.specs.Prelude.{◌≡◌, ◌≤◌};
ghost use Rattle.pb_core.specs.Runs.{Runs};

use crate::event::{Event, EventsRefusal};
use crate::machine::Core;
use pb_taskgraph::{NamesWork, Work};
use std::alloc::Global;

/// Makes events happen, one after another. NotEnabled tells the place of the first that isn't enabled in its turn.
pub fn run_events<'w, W: Work, N: NamesWork>(
    alloc: Global,
    work: &'w W,
    hands: u32,
    events: &[Event],
) -> Result<Core<'w, W, N>, EventsRefusal>
    requires name { W.plan work.now ≡ N.plan }
    requires some { 1 ≤ hands }
    requires few { hands ≤ 64 }
    ensures { Runs N.plan hands events.now result }
{
    let mut core = Core::new(alloc, work, hands)?;
    for (at, event) in events.iter().enumerate() {
        match core.step(*event) {
            Ok(()) => {}
            Err(_refused) => return Err(EventsRefusal::NotEnabled { at: at as u64 }),
        }
    }
    Ok(core)
}
