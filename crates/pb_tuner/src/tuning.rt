ghost use Rattle.std.specs.Prelude.{◌≡◌, ◌*◌, ◌≤◌, ℕ, IfErr, IfOk, IsTrue, OnOk};
ghost use Rattle.std.specs.List.{AllByRecursion};
ghost use Rattle.pb_program.specs.Configs.{IsSite, IsValid, is_cutoff};
ghost use Rattle.pb_program.specs.Trees.{bare_prog};
ghost use Rattle.pb_tuner.specs.Judged.{Stays};
ghost use Rattle.pb_tuner.specs.Tuned.{After, AreTold, IsFault, IsTuned, candidates};

use crate::asking::ask_all;
use crate::candidates::candidates;
use crate::fault::TuneFault;
use crate::journal::{Asked, Journal};
use crate::judge::Judge;
use crate::selection::select;
use pb_program::{Config, Prog, Site};
use std::alloc::Global;

// Asks for the candidates at a size, puts the answers into the journal, and selects the next population.
fn generation<J: Judge>(
    alloc: Global,
    sites: &[Site],
    size: u64,
    judge: &mut J,
    population: Vec<Config>,
    journal: &mut Vec<Asked>,
) -> Result<Vec<Config>, TuneFault>
    requires valid { AllByRecursion (IsValid (J.program judge.old)) (candidates sites.now size population.items) }
    requires size { IsTrue (is_cutoff size) }
    ensures found { IfOk result (λ next. (up_to : ℕ) → size ≤ up_to → After sites.now up_to size population.items journal.old.items
        → After sites.now up_to (size * 2) next.items journal.new.items) }
    ensures told { OnOk result (AreTold (J.told judge.old) journal.old.items → AreTold (J.told judge.old) journal.new.items) }
    ensures stays { Stays J.program J.told J.faults judge.old judge.new }
    ensures fault { IfErr result (λ e. (up_to : ℕ) → size ≤ up_to → After sites.now up_to size population.items journal.old.items
        → AreTold (J.told judge.old) journal.old.items → IsFault sites.now up_to (J.told judge.old) (J.faults judge.old) (J.faults judge.new) e) }
{
    let configs = candidates(alloc, sites, size, &population)?;
    let mut asked = ask_all(alloc, judge, size, configs, journal.len() as u64)?;
    let next = select(alloc, population, &asked)?;
    journal.append(&mut asked)?;
    Ok(next)
}

/// Finds a configuration for a program: for the sizes 1, 2, 4 and so on up to a bound it asks the judge for the costs of a
/// population of configurations and of their extensions by the sites at this size, and goes on with the four cheapest.
pub fn tune<J: Judge>(
    alloc: Global,
    p: &Prog,
    sites: &[Site],
    up_to: u64,
    judge: &mut J,
) -> Result<(Config, Journal), TuneFault>
    requires up_to { IsTrue (is_cutoff up_to) }
    requires sites { AllByRecursion (IsSite (bare_prog p.now)) sites.now }
    requires program { J.program judge.old ≡ bare_prog p.now }
    ensures found { IfOk result (λ r. IsTuned sites.now up_to r.1.asked.items r.0) }
    ensures valid { IfOk result (λ r. IsValid (bare_prog p.now) r.0) }
    ensures told { IfOk result (λ r. AreTold (J.told judge.old) r.1.asked.items) }
    ensures fault { IfErr result (IsFault sites.now up_to (J.told judge.old) (J.faults judge.old) (J.faults judge.new)) }
    ensures stays { Stays J.program J.told J.faults judge.old judge.new }
{
    let mut journal = Vec::new(alloc);
    let mut population = Vec::new(alloc);
    population.push(Config {
        entries: Vec::new(alloc),
    })?;
    let mut size = 1;
    while size <= up_to {
        population = generation(alloc, sites, size, judge, population, &mut journal)?;
        size *= 2;
    }
    let first = population.swap_remove(0);
    Ok((first, Journal { asked: journal }))
}
