ghost use Rattle.std.specs.Prelude.{◌≡◌, ◌++◌, decimal, OnOk};
ghost use Rattle.pb_lines.specs.Lines.{at_byte};

use itoa::Buffer;
use std::alloc::AllocError;

pub(crate) fn write_number(text: &mut Vec<u8>, value: u64) -> Result<(), AllocError>
    ensures { OnOk result (text.new.items ≡ text.old.items ++ decimal value) }
{
    let mut buffer = Buffer::new();
    text.extend_from_slice(buffer.format(value).as_bytes())
}

/// A word, and a number after it.
pub(crate) fn write_numbered(text: &mut Vec<u8>, word: &[u8], value: u32) -> Result<(), AllocError>
    ensures { OnOk result (text.new.items ≡ text.old.items ++ (word.now ++ decimal value)) }
{
    text.extend_from_slice(word)?;
    write_number(text, u64::from(value))
}

/// A place in the program's text, and the line's end.
pub(crate) fn write_place(text: &mut Vec<u8>, at: u32) -> Result<(), AllocError>
    ensures { OnOk result (text.new.items ≡ text.old.items ++ at_byte at) }
{
    write_numbered(text, b"byte ", at)?;
    text.extend_from_slice(b"\n")
}
