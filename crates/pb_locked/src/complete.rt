ghost use Rattle.std.specs.Prelude.{◌≡◌, ◌<◌, ◌≤◌, length};
ghost use Rattle.std.specs.List.{flat_map};
ghost use Rattle.pb_values.specs.Views.{row_cells, view_cells};
ghost use Rattle.pb_taskgraph.specs.Graphs.{after_of, cells_of, task_cells};
ghost use Rattle.pb_taskgraph.specs.Plans.{IsPlan};
ghost use Rattle.pb_core.specs.Events.{AllEnabled, all_happen};
ghost use Rattle.pb_core.specs.Cores.{state_of};
ghost use Rattle.pb_locked.specs.Boards.{HasBegun, IsBoard, completed_by, outcomes_of, releases_by, writes_by};

use pb_core::{Core, Event};
use pb_taskgraph::{MOST_CELLS, NamesWork, Part, Task, Work};
use pb_values::{Outcome, View};

fn store_row<W: Work, N: NamesWork>(
    core: &mut Core<'_, W, N>,
    hand: u32,
    view: &View,
    y: u64,
    values: &[Outcome],
)
    requires row { y < view.now.shape.h }
    requires values { values.now ≡ outcomes_of N.plan (row_cells view.now y) }
    requires enabled { AllEnabled N.plan (state_of N.plan core.old) (writes_by hand (row_cells view.now y)) }
    ensures { state_of N.plan core.new ≡ all_happen N.plan (state_of N.plan core.old) (writes_by hand (row_cells view.now y)) }
{
    for (x, value) in values.iter().enumerate() {
        let _stored = core.store(hand, view.place(x as u64, y), *value);
    }
}

fn store_view<W: Work, N: NamesWork>(
    core: &mut Core<'_, W, N>,
    hand: u32,
    view: &View,
    values: &[Outcome],
)
    requires values { values.now ≡ outcomes_of N.plan (view_cells view.now) }
    requires enabled { AllEnabled N.plan (state_of N.plan core.old) (writes_by hand (view_cells view.now)) }
    ensures { state_of N.plan core.new ≡ all_happen N.plan (state_of N.plan core.old) (writes_by hand (view_cells view.now)) }
{
    // A view without columns may have any number of rows.
    if view.shape.w == 0 {
        return;
    }
    let mut rest = values;
    for y in 0..view.shape.h {
        let (row, more) = rest.split_at(view.shape.w as usize);
        store_row(core, hand, view, y, row);
        rest = more;
    }
}

/// Stores the outcomes of all cells of these parts.
fn store_parts<W: Work, N: NamesWork>(
    core: &mut Core<'_, W, N>,
    hand: u32,
    parts: &[Part],
    values: &[Outcome],
)
    requires few { length values.now ≤ MOST_CELLS }
    requires values { values.now ≡ outcomes_of N.plan (flat_map (λ part. view_cells part.view) parts.now) }
    requires enabled { AllEnabled N.plan (state_of N.plan core.old) (writes_by hand (flat_map (λ part. view_cells part.view) parts.now)) }
    ensures { state_of N.plan core.new ≡ all_happen N.plan (state_of N.plan core.old) (writes_by hand (flat_map (λ part. view_cells part.view) parts.now)) }
{
    let mut rest = values;
    for part in parts {
        let cells = (part.view.shape.h * part.view.shape.w) as usize;
        let (own, more) = rest.split_at(cells);
        store_view(core, hand, &part.view, own);
        rest = more;
    }
}

fn release_all<W: Work, N: NamesWork>(
    core: &mut Core<'_, W, N>,
    hand: u32,
    task: u32,
    nexts: &[u32],
)
    requires { AllEnabled N.plan (state_of N.plan core.old) (releases_by hand task nexts.now) }
    ensures { state_of N.plan core.new ≡ all_happen N.plan (state_of N.plan core.old) (releases_by hand task nexts.now) }
{
    for next in nexts {
        let _released = core.step(Event::Release {
            hand,
            task,
            next: *next,
        });
    }
}

/// A hand completes a task that it has begun, with the outcomes of the task's cells.
pub(crate) fn complete_task<W: Work, N: NamesWork>(
    core: &mut Core<'_, W, N>,
    hand: u32,
    task: u32,
    links: &Task,
    values: &[Outcome],
)
    requires plan { IsPlan N.plan }
    requires board { IsBoard N.plan (state_of N.plan core.old) }
    requires begun { HasBegun (state_of N.plan core.old) hand task }
    requires cells { cells_of N.plan.graph task ≡ task_cells links.now }
    requires after { after_of N.plan.graph task ≡ links.now.after }
    requires values { values.now ≡ outcomes_of N.plan (cells_of N.plan.graph task) }
    ensures { state_of N.plan core.new ≡ all_happen N.plan (state_of N.plan core.old) (completed_by N.plan hand task) }
{
    store_parts(core, hand, &links.parts, values);
    let _finished = core.step(Event::Finish { hand, task });
    release_all(core, hand, task, &links.after);
}
