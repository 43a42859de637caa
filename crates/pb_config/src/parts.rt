ghost use Rattle.std.specs.Prelude.{◌≡◌, ◌^◌, ◌≤◌, ◌<◌, MatchOption, None, Some, length, true};
ghost use Rattle.std.specs.Char.{is_ascii_digit};
ghost use Rattle.std.specs.List.{list_all, prefix_len};
ghost use Rattle.std.specs.Str.Parse.{digits_value};
ghost use Rattle.pb_syntax.specs.Bytes.{begins_name};
ghost use Rattle.pb_config.specs.Runs.{in_run};
ghost use Rattle.pb_config.specs.Parts.{after, begins, is_blank, name_next, number_next, past_blanks};

const MOST_DIGITS: usize = 7;

/// The bytes that go on with blanks, a name or a number.
#[derive(Clone, Copy)]
pub(crate) enum Run {
    Blanks,
    Name,
    Digits,
}

fn goes_on(run: Run, byte: u8) -> bool
    ensures { result ≡ in_run run byte }
{
    match run {
        Run::Blanks => matches!(byte, b' ' | b'\t'),
        Run::Name => byte.is_ascii_alphabetic() || byte == b'_' || byte.is_ascii_digit(),
        Run::Digits => byte.is_ascii_digit(),
    }
}

// How many bytes, from the first on, go on.
fn run_length(run: Run, text: &[u8]) -> usize
    ensures size { result ≡ prefix_len (in_run run) text.now }
    ensures within { result ≤ length text.now }
{
    for (i, byte) in text.iter().enumerate() {
        if !goes_on(run, *byte) {
            return i;
        }
    }
    text.len()
}

/// Whether there are blanks and tabs alone.
pub(crate) fn is_blank(text: &[u8]) -> bool
    ensures { result ≡ list_all is_blank text.now }
{
    text.iter().all(|byte| goes_on(Run::Blanks, *byte))
}

/// What stands after the blanks and tabs that stand first.
pub(crate) fn past_blanks(text: &[u8]) -> &[u8]
    ensures { result.now ≡ past_blanks text.now }
{
    &text[run_length(Run::Blanks, text)..]
}

/// What stands after a sign or a keyword that comes next.
pub(crate) fn after<'t>(word: &[u8], text: &'t [u8]) -> Option<&'t [u8]>
    ensures { MatchOption result (after word.now text.now ≡ None) (λ rest. after word.now text.now ≡ Some rest.now) }
{
    let text = past_blanks(text);
    if text.starts_with(word) {
        Some(&text[word.len()..])
    } else {
        None
    }
}

fn begins_name(text: &[u8]) -> bool
    ensures { result ≡ begins begins_name text.now }
{
    match text {
        [first, ..] => first.is_ascii_alphabetic() || *first == b'_',
        [] => false,
    }
}

/// A name that comes next, and what stands after it.
pub(crate) fn next_name(text: &[u8]) -> Option<(&[u8], &[u8])>
    ensures { MatchOption result (name_next text.now ≡ None) (λ r. name_next text.now ≡ Some (r.0.now, r.1.now)) }
{
    let text = past_blanks(text);
    if !begins_name(text) {
        return None;
    }
    Some(text.split_at(run_length(Run::Name, text)))
}

// The value of some digits.
fn value_of(digits: &[u8]) -> u32
    requires digits { list_all is_ascii_digit digits.now ≡ true }
    requires few { digits_value 10 digits.now < 10 ^ 7 }
    ensures { result ≡ digits_value 10 digits.now }
{
    let mut value: u32 = 0;
    for byte in digits {
        value = value * 10 + (*byte - b'0') as u32;
    }
    value
}

/// A number of one to seven digits that comes next, and what stands after it.
pub(crate) fn next_number(text: &[u8]) -> Option<(u32, &[u8])>
    ensures { MatchOption result (number_next text.now ≡ None) (λ r. number_next text.now ≡ Some (r.0, r.1.now)) }
{
    let text = past_blanks(text);
    let size = run_length(Run::Digits, text);
    if size == 0 {
        return None;
    }
    if size > MOST_DIGITS {
        return None;
    }
    let (digits, rest) = text.split_at(size);
    Some((value_of(digits), rest))
}
