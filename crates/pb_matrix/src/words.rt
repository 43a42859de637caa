ghost use Rattle.std.specs.Prelude.{◌≡◌, ◌+◌, ◌<◌, ◌≤◌, [], ◌∷◌, length, take, drop, MatchOption, IfSome};
ghost use Rattle.std.specs.List.{before_first, after_first};
ghost use Rattle.pb_matrix.specs.Cuts.{cuts};
ghost use Rattle.pb_matrix.specs.Words.{words};

/// Where a text is cut: a line at its blanks and tabs, a text at CR and LF too, or at LF alone.
#[derive(Clone, Copy)]
pub(crate) enum Cut {
    AtBlanks,
    AtGaps,
    AtLineEnds,
}

/// Whether a text is cut at this byte.
#[inline]
pub(crate) fn cuts(cut: Cut, byte: u8) -> bool
    ensures { result ≡ cuts cut byte }
{
    match cut {
        Cut::AtBlanks => matches!(byte, b' ' | b'\t'),
        // One test suffices for the bytes of a number.
        Cut::AtGaps => byte <= b' ' && matches!(byte, b' ' | b'\t' | b'\r' | b'\n'),
        Cut::AtLineEnds => byte == b'\n',
    }
}

/// What stands before the first cut, and what after it; the whole and nothing where there is none.
#[inline]
pub(crate) fn split_first(cut: Cut, text: &[u8]) -> (&[u8], &[u8])
    ensures front { result.0.now ≡ before_first (cuts cut) text.now }
    ensures after { result.1.now ≡ after_first (cuts cut) text.now }
    ensures shorter { 0 < length text.now → length result.1.now < length text.now }
{
    for (i, byte) in text.iter().enumerate() {
        if cuts(cut, *byte) {
            return (&text[..i], &text[i + 1..]);
        }
    }
    (text, &[])
}

/// The first word of a text and what stands after it, if there is a word.
#[inline]
#[tactic(auto, using(crate::proofs::WordLemmas::one_word, crate::proofs::WordLemmas::no_word))]
pub(crate) fn next_word(cut: Cut, text: &[u8]) -> Option<(&[u8], &[u8])>
    ensures words { MatchOption result (words (cuts cut) text.now ≡ [])
        (λ found. words (cuts cut) text.now ≡ found.0.now ∷ words (cuts cut) found.1.now) }
    ensures shorter { IfSome result (λ found. length found.1.now < length text.now) }
{
    let mut rest = text;
    while !rest.is_empty() {
        let (word, after) = split_first(cut, rest);
        if !word.is_empty() {
            return Some((word, after));
        }
        rest = after;
    }
    None
}
