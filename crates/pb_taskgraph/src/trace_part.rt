ghost use Rattle.std.specs.Prelude.{◌≡◌, ◌++◌, decimal, OnOk};
ghost use Rattle.pb_taskgraph.specs.Trace.{interval_text, part_text};

use crate::task::Part;
use itoa::Buffer;
use std::alloc::AllocError;

/// A word, and a number after it.
pub(crate) fn write_numbered(text: &mut Vec<u8>, word: &[u8], value: u64) -> Result<(), AllocError>
    ensures { OnOk result (text.new.items ≡ text.old.items ++ (word.now ++ decimal value)) }
{
    let mut buffer = Buffer::new();
    text.extend_from_slice(word)?;
    text.extend_from_slice(buffer.format(value).as_bytes())
}

/// The numbers from one to before another.
fn write_interval(text: &mut Vec<u8>, low: u64, high: u64) -> Result<(), AllocError>
    ensures { OnOk result (text.new.items ≡ text.old.items ++ interval_text low high) }
{
    write_numbered(text, b"[", low)?;
    write_numbered(text, b",", high)?;
    text.extend_from_slice(b")")
}

/// A part of a task: the name of its matrix, and its rectangle there.
pub(crate) fn write_part(text: &mut Vec<u8>, part: &Part) -> Result<(), AllocError>
    ensures { OnOk result (text.new.items ≡ text.old.items ++ part_text part.now) }
{
    text.extend_from_slice(part.name.bytes())?;
    write_interval(text, part.rect.x0, part.rect.x1)?;
    if part.view.shape.dims == 1 {
        return Ok(());
    }
    text.extend_from_slice(b"x")?;
    write_interval(text, part.rect.y0, part.rect.y1)
}
