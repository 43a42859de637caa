ghost use Rattle.std.specs.Prelude.{◌≡◌};
ghost use Rattle.pb_entry.specs.declared.refusal.Count.TheVariants.{Calls, Side, Cells, Tasks, Links};
ghost use Rattle.pb_run_lines.specs.RunLines.{limit_of};

/// A law: the limits of what is counted of a run are these numbers.
pub fn the_limits_of_counts_are_these()
    ensures calls { limit_of Calls ≡ 16384 }
    ensures side { limit_of Side ≡ 4194304 }
    ensures cells { limit_of Cells ≡ 4194304 }
    ensures tasks { limit_of Tasks ≡ 262144 }
    ensures links { limit_of Links ≡ 8388608 }
{}
