ghost use Rattle.std.specs.Prelude.{◌≡◌, ◌++◌, decimal, OnOk};
ghost use Rattle.pb_run_lines.specs.RunLines.{pair_text};

use itoa::Buffer;
use std::alloc::AllocError;

/// A word, and a number after it.
pub(crate) fn write_numbered(text: &mut Vec<u8>, word: &[u8], value: u64) -> Result<(), AllocError>
    ensures { OnOk result (text.new.items ≡ text.old.items ++ (word.now ++ decimal value)) }
{
    let mut buffer = Buffer::new();
    text.extend_from_slice(word)?;
    text.extend_from_slice(buffer.format(value).as_bytes())
}

/// Two numbers, each after a word, and the line's end.
pub(crate) fn write_pair(
    text: &mut Vec<u8>,
    first: &[u8],
    a: u64,
    second: &[u8],
    b: u64,
) -> Result<(), AllocError>
    ensures { OnOk result (text.new.items ≡ text.old.items ++ pair_text first.now a second.now b) }
{
    write_numbered(text, first, a)?;
    write_numbered(text, second, b)?;
    text.extend_from_slice(b"\n")
}
