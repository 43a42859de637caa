ghost use Rattle.std.specs.Prelude.{◌≡◌, ◌⊎◌, ◌<◌, ◌≤◌, ℕ, List, IfErr, IfOk, length, map};
ghost use Rattle.std.specs.List.{All};
ghost use Rattle.pb_program.specs.Trees.{bare_prog};
ghost use Rattle.pb_entry.specs.declared.refusal.Count.TheVariants.{Links as too_many_links};
ghost use Rattle.pb_entry.specs.declared.refusal.RunRefusal.TheVariants.{Memory, TooLarge};
ghost use Rattle.pb_links.specs.Links.{all_predecessors, all_successors, link_count};
ghost use Rattle.pb_links.specs.Spots.{AllWithin};
ghost use Rattle.pb_taskgraph.specs.declared.limits.TheConstants.{MOST_LINKS, MOST_TASKS};
ghost use Rattle.pb_steps.specs.Handed.{Step, places_of};
ghost use Rattle.pb_run_plan.specs.RunTasks.{AreTasksOf};
ghost use Rattle.pb_steps.specs.Stands.{AreSteps};
ghost use Rattle.pb_run_graph.specs.Linking.{CanBeLinked, IsTooMany};

use crate::places::all_places;
use crate::tasks::tasks_for;
use pb_check::Accepted;
use pb_entry::{Count, RunRefusal};
use pb_links::{Links, LinksRefusal, Places, links};
use pb_steps::Unrolled;
use pb_taskgraph::{MOST_LINKS, MOST_TASKS, TaskGraph};
use std::alloc::Global;

/// The links of tasks, unless there are more than a run may have. `bases` is the number of matrices: each part is of one of them.
fn links_of(alloc: Global, bases: u32, places: &[Places]) -> Result<Links, RunRefusal>
    requires bases { All (AllWithin bases) places.now }
    requires few { length places.now ≤ MOST_TASKS }
    ensures found { IfOk result (λ l. l ≡ record { before = all_predecessors places.now; after = all_successors places.now }) }
    ensures within { IfOk result (λ l. link_count places.now ≤ MOST_LINKS) }
    ensures refused { IfErr result (λ e. (e ≡ Memory) ⊎ ((e ≡ TooLarge too_many_links) × (MOST_LINKS < link_count places.now))) }
{
    match links(alloc, bases, places, MOST_LINKS) {
        Ok(links) => Ok(links),
        Err(LinksRefusal::TooMany) => Err(RunRefusal::TooLarge { what: Count::Links }),
        Err(LinksRefusal::Memory) => Err(RunRefusal::Memory),
    }
}

/// The links of the tasks of a run, one task for each step. It refuses more tasks than `MOST_TASKS`, before their links are looked for, and
/// then more links than `MOST_LINKS`.
pub fn run_links(alloc: Global, a: &Accepted, run: &Unrolled) -> Result<Links, RunRefusal>
    requires ready { (inputs : ℕ) × CanBeLinked a.now run.now inputs }
    ensures found { IfOk result (λ l. (steps : List Step) → AreSteps (bare_prog a.now.program) a.now.found run.now steps → l ≡ record { before = all_predecessors (map places_of steps); after = all_successors (map places_of steps) }) }
    ensures within { IfOk result (λ l. (steps : List Step) → AreSteps (bare_prog a.now.program) a.now.found run.now steps → (length steps ≤ MOST_TASKS) × (link_count (map places_of steps) ≤ MOST_LINKS)) }
    ensures refused { IfErr result (λ e. (e ≡ Memory) ⊎ ((steps : List Step) → AreSteps (bare_prog a.now.program) a.now.found run.now steps → IsTooMany steps e)) }
{
    if run.steps.len() > MOST_TASKS {
        return Err(RunRefusal::TooLarge { what: Count::Tasks });
    }
    let places = all_places(alloc, a, run)?;
    links_of(alloc, run.met.matrices, &places)
}

/// The graph of the tasks of a run, one for each step, where so many of its cells are given. It refuses what `run_links` refuses.
pub fn graph_of(
    alloc: Global,
    a: &Accepted,
    run: &Unrolled,
    inputs: u64,
) -> Result<TaskGraph, RunRefusal>
    requires ready { CanBeLinked a.now run.now inputs }
    ensures found { IfOk result (λ g. (steps : List Step) → AreSteps (bare_prog a.now.program) a.now.found run.now steps → AreTasksOf steps g.tasks) }
    ensures graph { IfOk result (λ g. g ≡ record { inputs = inputs; cells = run.now.met.cells; tasks = g.tasks }) }
    ensures within { IfOk result (λ g. (steps : List Step) → AreSteps (bare_prog a.now.program) a.now.found run.now steps → (length steps ≤ MOST_TASKS) × (link_count (map places_of steps) ≤ MOST_LINKS)) }
    ensures refused { IfErr result (λ e. (e ≡ Memory) ⊎ ((steps : List Step) → AreSteps (bare_prog a.now.program) a.now.found run.now steps → IsTooMany steps e)) }
{
    let links = run_links(alloc, a, run)?;
    let tasks = tasks_for(alloc, a, run, links)?;
    Ok(TaskGraph::new(alloc, inputs, run.met.cells, tasks)?)
}
