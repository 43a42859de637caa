ghost use Rattle.std.specs.Prelude.{◌≡◌, ◌++◌, OnOk, decimal, map};
ghost use Rattle.std.specs.List.{join_with_byte};
ghost use Rattle.pb_report.specs.Report.{rules_text, set_text};

use itoa::Buffer;
use std::alloc::AllocError;

/// A word, and a number after it.
pub(crate) fn write_numbered(text: &mut Vec<u8>, word: &[u8], value: u32) -> Result<(), AllocError>
    ensures { OnOk result (text.new.items ≡ text.old.items ++ (word.now ++ decimal value)) }
{
    let mut buffer = Buffer::new();
    text.extend_from_slice(word)?;
    text.extend_from_slice(buffer.format(value).as_bytes())
}

/// Numbers with commas between them.
fn write_numbers(text: &mut Vec<u8>, set: &[u32]) -> Result<(), AllocError>
    ensures { OnOk result (text.new.items ≡ text.old.items ++ join_with_byte 44 (map decimal set.now)) }
{
    let mut rest = set;
    while let [first, after @ ..] = rest {
        write_numbered(text, b"", *first)?;
        if after.is_empty() {
            return Ok(());
        }
        text.extend_from_slice(b",")?;
        rest = after;
    }
    Ok(())
}

/// A set of rules.
pub(crate) fn write_set(text: &mut Vec<u8>, set: &[u32]) -> Result<(), AllocError>
    ensures { OnOk result (text.new.items ≡ text.old.items ++ set_text set.now) }
{
    text.extend_from_slice(b"{")?;
    write_numbers(text, set)?;
    text.extend_from_slice(b"}")
}

/// The rules of a segment or of an edge.
pub(crate) fn write_rules(text: &mut Vec<u8>, rules: &[u32]) -> Result<(), AllocError>
    ensures { OnOk result (text.new.items ≡ text.old.items ++ rules_text rules.now) }
{
    text.extend_from_slice(b" rules ")?;
    write_set(text, rules)
}
