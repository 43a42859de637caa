ghost use Rattle.std.specs.Prelude.{◌≡◌, IfOk};
ghost use Rattle.pb_run_lines.specs.RunLines as lines;

use pb_config::ConfigRefusal;
use std::alloc::{AllocError, Global};

/// The line for `err` of a refused configuration, with the line's end. Nothing for memory that ran out.
pub fn config_line(alloc: Global, refusal: &ConfigRefusal) -> Result<Vec<u8>, AllocError>
    ensures { IfOk result (λ text. text.items ≡ lines.config_line refusal.now) }
{
    let line = match refusal {
        ConfigRefusal::BadLine { line } => format!(in alloc; "C1 BadLine: line {line}\n")?,
        ConfigRefusal::UnknownPlace { line } => format!(in alloc;
            "C2 UnknownPlace: line {line}\n"
        )?,
        ConfigRefusal::NotInSet { line } => format!(in alloc; "C3 NotInSet: line {line}\n")?,
        ConfigRefusal::CutoffsNotRising { line } => format!(in alloc;
            "C4 CutoffsNotRising: line {line}\n"
        )?,
        ConfigRefusal::Twice { line } => format!(in alloc; "C5 Twice: line {line}\n")?,
        ConfigRefusal::Memory => String::new(alloc),
    };
    Ok(line.into_bytes())
}
