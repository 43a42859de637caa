ghost use Rattle.std.specs.Prelude.{◌≡◌, IfSome};
ghost use Rattle.std.specs.Char.{is_ascii_digit};
ghost use Rattle.std.specs.List.{list_all};
ghost use Rattle.pb_words.specs.Ranges.{IsWithin};
ghost use Rattle.pb_words.specs.Values.{is_option, is_number, number_within, pool_named};

use crate::ask::Pool;

const MOST_DIGITS: usize = 10;

/// Whether a word begins with `--`.
#[tactic(auto, using(std::proofs::lemmas::Str::Pattern::starts_text))]
pub(crate) fn is_option(word: &str) -> bool
    ensures { result ≡ is_option word.now }
{
    word.starts_with("--")
}

fn has_digits_alone(word: &[u8]) -> bool
    ensures { result ≡ list_all is_ascii_digit word.now }
{
    word.iter().all(|byte| byte.is_ascii_digit())
}

fn is_number(word: &str) -> bool
    ensures { result ≡ is_number word.now }
{
    if word.is_empty() {
        return false;
    }
    if word.len() > MOST_DIGITS {
        return false;
    }
    has_digits_alone(word.as_bytes())
}

/// The value of one to ten digits, if it is within the range.
#[tactic(auto, using(crate::proofs::NumberLemmas::number_parsed))]
pub(crate) fn read_number(word: &str, least: u64, most: u64) -> Option<u64>
    ensures number { result ≡ number_within least most word.now }
    ensures range { IfSome result (IsWithin least most) }
{
    if !is_number(word) {
        return None;
    }
    let value = word.parse::<u64>().ok()?;
    if value < least || value > most {
        return None;
    }
    Some(value)
}

/// The pool that a word names.
pub(crate) fn read_pool(word: &str) -> Option<Pool>
    ensures { result ≡ pool_named word.now }
{
    match word {
        "serial" => Some(Pool::Serial),
        "locked" => Some(Pool::Locked),
        "steal" => Some(Pool::Steal),
        _ => None,
    }
}
