ghost use Rattle.std.specs.Prelude.{◌≡◌, ◌≤◌, ◌++◌, IfOk, OnOk, length};
ghost use Rattle.std.specs.List.{All};
ghost use Rattle.pb_program.specs.Trees.{bare_prog, bare_transform};
ghost use Rattle.pb_program.specs.WellFormed.{IsWellFormed};
ghost use Rattle.pb_check.specs.Orders.{AreFound};
ghost use Rattle.pb_check.specs.Sites.{sites_of};
ghost use Rattle.pb_report.specs.Report.{report_text, transform_report};

use crate::transform::write_transform;
use pb_check::{Accepted, Analysis, sites_of};
use pb_program::{Prog, Transform};
use std::alloc::{AllocError, Global};

/// Adds the report of a transform with this number.
fn write_found(
    alloc: Global,
    text: &mut Vec<u8>,
    t: u32,
    transform: &Transform,
    found: &Analysis,
) -> Result<(), AllocError>
    requires { length transform.now.sizes ≤ 8 }
    ensures { OnOk result (text.new.items ≡ text.old.items ++ transform_report (bare_transform transform.now) found.now.nodes found.now.order (sites_of t (bare_transform transform.now) found.now.nodes)) }
{
    let sites = sites_of(alloc, t, transform, found.nodes())?;
    write_transform(alloc, text, transform, found.nodes(), found.order(), &sites)
}

/// The report of a program of which this is found, transform by transform: its segments with their rules and layers, what
/// they read of each other, and its sites.
pub fn report_of(alloc: Global, p: &Prog, found: &[Analysis]) -> Result<Vec<u8>, AllocError>
    requires well_formed { IsWellFormed (bare_prog p.now) }
    requires found { AreFound (bare_prog p.now) found.now }
    ensures { IfOk result (λ text. text.items ≡ report_text (bare_prog p.now) found.now) }
{
    let mut text = Vec::new(alloc);
    for (t, transform) in p.transforms.iter().enumerate() {
        write_found(alloc, &mut text, t as u32, transform, &found[t])?;
    }
    Ok(text)
}

/// The report of an accepted program.
pub fn report(alloc: Global, a: &Accepted) -> Result<Vec<u8>, AllocError>
    ensures { IfOk result (λ text. text.items ≡ report_text (bare_prog a.now.program) a.now.found) }
{
    report_of(alloc, a.prog(), a.analyses())
}
