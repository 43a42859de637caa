ghost use Rattle.std.specs.Prelude.{◌≡◌, ◌≤◌, IfErr, OnOk};
ghost use Rattle.pb_linear.specs.Sizes.{InRange, IsRanges, leasts_of, sizes_of};
ghost use Rattle.pb_entry.specs.Fitting.{FirstOut};

use crate::refusal::RunRefusal;
use pb_linear::{Ranges, SIZE_TOP, Sizes};

/// Refuses the first size that is out of range.
#[tactic(auto, using(pb_linear::proofs::SizesLemmas::hold_from))]
pub(crate) fn check_range(ranges: Ranges, sizes: Sizes) -> Result<(), RunRefusal>
    requires ranges { IsRanges ranges }
    requires count { sizes.count ≡ ranges.count }
    ensures fits { OnOk result (InRange (leasts_of ranges) (sizes_of sizes)) }
    ensures refused { IfErr result (FirstOut ranges (sizes_of sizes)) }
{
    for size in 0..ranges.count as usize {
        let value = sizes.of[size];
        if value < ranges.least[size] || value > SIZE_TOP {
            return Err(RunRefusal::SizeOutOfRange {
                size: size as u32,
                value,
            });
        }
    }
    Ok(())
}
