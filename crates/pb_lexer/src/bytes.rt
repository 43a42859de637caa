ghost use Rattle.std.specs.Prelude.{◌≡◌, ◌≤◌, ◌+◌, length, IfSome};
ghost use Rattle.std.specs.List.{prefix_len};
ghost use Rattle.pb_syntax.specs.Bytes.{is_blank, begins_name, begins_slash};
ghost use Rattle.pb_lexer.specs.Reading.{in_run, close_from};

/// The bytes that go on with a word, a number or a line.
#[derive(Clone, Copy)]
pub(crate) enum Run {
    InName,
    InNumber,
    InLine,
}

/// A blank, a tab, CR or LF.
pub(crate) fn is_blank(byte: u8) -> bool
    ensures { result ≡ is_blank byte }
{
    matches!(byte, b' ' | b'\t' | b'\r' | b'\n')
}

/// A letter or `_`.
pub(crate) fn begins_name(byte: u8) -> bool
    ensures { result ≡ begins_name byte }
{
    byte.is_ascii_alphabetic() || byte == b'_'
}

fn goes_on(run: Run, byte: u8) -> bool
    ensures { result ≡ in_run run byte }
{
    match run {
        Run::InName => begins_name(byte) || byte.is_ascii_digit(),
        Run::InNumber => byte.is_ascii_digit(),
        Run::InLine => byte != b'\n',
    }
}

/// How many bytes, from the first on, go on with a word, a number or a line.
pub(crate) fn run_length(run: Run, text: &[u8]) -> usize
    ensures size { result ≡ prefix_len (in_run run) text.now }
    ensures within { result ≤ length text.now }
{
    for (i, byte) in text.iter().enumerate() {
        if !goes_on(run, *byte) {
            return i;
        }
    }
    text.len()
}

fn begins_slash(text: &[u8]) -> bool
    ensures { result ≡ begins_slash text.now }
{
    match text {
        [first, ..] => *first == b'/',
        [] => false,
    }
}

/// How many bytes stand before the first `*/`, if there is one.
pub(crate) fn before_close(text: &[u8]) -> Option<usize>
    ensures size { result ≡ close_from 0 text.now }
    ensures within { IfSome result (λ size. size + 2 ≤ length text.now) }
{
    let mut size: usize = 0;
    let mut rest = text;
    while let [first, after @ ..] = rest {
        if *first == b'*' && begins_slash(after) {
            return Some(size);
        }
        size += 1;
        rest = after;
    }
    None
}
