ghost use Rattle.std.specs.Prelude.{◌≤◌, IfOk, length, map};
ghost use Rattle.std.specs.List.{All};
ghost use Rattle.pb_linear.specs.Sizes.{sizes_of};
ghost use Rattle.pb_program.specs.Trees.{bare_rule};
ghost use Rattle.pb_views.specs.Windows.{AreSteady};
ghost use Rattle.pb_jobs.specs.Shown.{AreRuleWindows, AreWindows, AreWindowsOf, HasSteadyViews};

use pb_linear::{SIZE_TOP, Sizes};
use pb_program::{Read, Rule};
use pb_views::Window;
use std::alloc::{AllocError, Global};
use std::marker::Model;

/// The views of a rule's reads and outputs at fixed sizes, in their order.
#[derive(Drop)]
pub struct Windows {
    pub(crate) reads: Vec<Window>,
    pub(crate) outs: Vec<Window>,
}

impl Model for Windows {
    ghost use Rattle.pb_jobs.specs.Shown.{WindowsValue};

    ghost Value = { WindowsValue };

    ghost view = { λ w. record { reads = w.reads.items; outs = w.outs.items } };
}

fn windows_of(alloc: Global, views: &[Read], s: &Sizes) -> Result<Vec<Window>, AllocError>
    requires sizes { All (λ size. size ≤ SIZE_TOP) s.now.of }
    requires steady { All AreSteady views.now }
    ensures { IfOk result (λ windows. AreWindows (sizes_of s.now) views.now windows.items) }
{
    let mut windows = Vec::new(alloc);
    for view in views {
        windows.push(Window::new(view, s))?;
    }
    Ok(windows)
}

fn windows_for(alloc: Global, rule: &Rule, s: &Sizes) -> Result<Windows, AllocError>
    requires sizes { All (λ size. size ≤ SIZE_TOP) s.now.of }
    requires steady { HasSteadyViews rule.now }
    ensures { IfOk result (AreWindowsOf (sizes_of s.now) (bare_rule rule.now)) }
{
    Ok(Windows {
        reads: windows_of(alloc, &rule.reads, s)?,
        outs: windows_of(alloc, &rule.outs, s)?,
    })
}

/// The views of each rule at fixed sizes.
pub fn rule_windows(alloc: Global, rules: &[Rule], s: &Sizes) -> Result<Vec<Windows>, AllocError>
    requires sizes { All (λ size. size ≤ SIZE_TOP) s.now.of }
    requires steady { All HasSteadyViews rules.now }
    ensures { IfOk result (λ windows. AreRuleWindows (sizes_of s.now) (map bare_rule rules.now) windows.items) }
{
    let mut windows = Vec::new(alloc);
    for rule in rules {
        windows.push(windows_for(alloc, rule, s)?)?;
    }
    Ok(windows)
}
