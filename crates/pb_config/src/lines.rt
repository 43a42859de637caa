ghost use Rattle.std.specs.Prelude.{◌≡◌, ◌<◌, ◌∷◌, length};
ghost use Rattle.std.specs.List.{after_first, before_first};
ghost use Rattle.std.specs.Str.Lines.{lines, strip_carriage_return};
ghost use Rattle.pb_config.specs.Parts.{is_line_end};
ghost use Rattle.pb_config.specs.Reading.{is_passed};

use crate::parts::{is_blank, past_blanks};

// What stands before the first LF, and what after it; the whole and nothing where there is none.
fn split_first(text: &[u8]) -> (&[u8], &[u8])
    ensures front { result.0.now ≡ before_first is_line_end text.now }
    ensures after { result.1.now ≡ after_first is_line_end text.now }
    ensures shorter { 0 < length text.now → length result.1.now < length text.now }
{
    for (i, byte) in text.iter().enumerate() {
        if *byte == b'\n' {
            return (&text[..i], &text[i + 1..]);
        }
    }
    (text, &[])
}

fn strip_carriage_return(line: &[u8]) -> &[u8]
    ensures { result.now ≡ strip_carriage_return line.now }
{
    match line {
        [front @ .., b'\r'] => front,
        _ => line,
    }
}

/// The first line, without its end, and what follows it.
#[tactic(auto, using(crate::proofs::LineLemmas::ended_line, crate::proofs::LineLemmas::last_line))]
pub(crate) fn split_line(text: &[u8]) -> (&[u8], &[u8])
    requires { 0 < length text.now }
    ensures first { lines text.now ≡ result.0.now ∷ lines result.1.now }
    ensures shorter { length result.1.now < length text.now }
{
    let (line, rest) = split_first(text);
    if line.len() == text.len() {
        return (line, rest);
    }
    (strip_carriage_return(line), rest)
}

/// Whether a line says nothing: it is blank, or `#` stands first.
pub(crate) fn is_passed(line: &[u8]) -> bool
    ensures { result ≡ is_passed line.now }
{
    if is_blank(line) {
        return true;
    }
    matches!(past_blanks(line), [b'#', ..])
}
