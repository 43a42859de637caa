ghost use Rattle.std.specs.Prelude.{◌≡◌, ℕ, IfOk, IsTrue, List, Option};
ghost use Rattle.pb_program.specs.Configs.{IsValid, is_cutoff};
ghost use Rattle.pb_program.specs.Trees.{ProgTransform};
ghost use Rattle.pb_tuner.specs.Judged.{Costs, CountsFault, IsTold};

use pb_program::Config;
use std::alloc::AllocError;

/// What a judge answers.
#[derive(Clone, Copy, Debug, PartialEq, Eq)]
pub enum Cost {
    /// What a run costs, in the judge's unit.
    Fit(u64),
    /// The configuration can't be run at this size.
    Unfit,
    /// The judge failed, and there is no answer.
    Failed,
}

/// Who knows costs: a cost model, a stop watch.
pub trait Judge {
    /// The program that is judged.
    ghost program: { Self → List ProgTransform };

    /// The costs, where they are told.
    ghost told: { Self → Option Costs };

    /// How often it failed; it stands still at its type's end.
    ghost faults: { Self → ℕ };

    /// The cost of a configuration at a size.
    fn cost(&mut self, c: &Config, size: u64) -> Result<Cost, AllocError>
        requires valid { IsValid (program self.old) c.now }
        requires size { IsTrue (is_cutoff size) }
        ensures told { IfOk result (IsTold (told self.old) c.now size) }
        ensures faults { CountsFault result (faults self.old) (faults self.new) }
        ensures same_program { program self.new ≡ program self.old }
        ensures same_costs { told self.new ≡ told self.old };
}
