ghost use Rattle.std.specs.Prelude.{◌<◌, ◌^◌, IfErr, IfOk, IsTrue};
ghost use Rattle.std.specs.List.{AllByRecursion};
ghost use Rattle.pb_program.specs.Configs.{IsValid, is_cutoff};
ghost use Rattle.pb_tuner.specs.Judged.{Stays};
ghost use Rattle.pb_tuner.specs.Tuned.{AreAsked, AreTold, IsStop};

use crate::fault::TuneFault;
use crate::journal::Asked;
use crate::judge::{Cost, Judge};
use pb_program::Config;
use std::alloc::Global;

/// Asks the judge for the cost of each configuration at a size. So many answers were given before.
pub(crate) fn ask_all<J: Judge>(
    alloc: Global,
    judge: &mut J,
    size: u64,
    configs: Vec<Config>,
    before: u64,
) -> Result<Vec<Asked>, TuneFault>
    requires valid { AllByRecursion (IsValid (J.program judge.old)) configs.items }
    requires size { IsTrue (is_cutoff size) }
    requires before { before < 2 ^ 63 }
    ensures asked { IfOk result (λ all. AreAsked size configs.items all.items) }
    ensures told { IfOk result (λ all. AreTold (J.told judge.old) all.items) }
    ensures stays { Stays J.program J.told J.faults judge.old judge.new }
    ensures fault { IfErr result (IsStop size configs.items (J.told judge.old) before (J.faults judge.old) (J.faults judge.new)) }
{
    let mut all = Vec::with_capacity(alloc, configs.len())?;
    for config in configs {
        let cost = judge.cost(&config, size)?;
        if cost == Cost::Failed {
            let asked = before + all.len() as u64;
            return Err(TuneFault::JudgeFault { size, asked });
        }
        all.push(Asked { size, config, cost })?;
    }
    Ok(all)
}
