ghost use Rattle.std.specs.Prelude.{◌≡◌, ◌+◌, ◌≤◌, ◌<◌, List, ℕ, MatchOption, MatchResult, None, Some, IfSome, length};
ghost use Rattle.pb_config.specs.Choices.{choice_of, levels_of, level_next, names_next, rules_next, selector_of, set_next};
ghost use Rattle.pb_config.specs.Bad.{IsBad};
ghost use Rattle.pb_program.specs.Configs.{is_rising};

use crate::parts::{after, is_blank, next_name, next_number};
use crate::refusal::ConfigRefusal;
use pb_program::Selector;
use pb_syntax::MOST_RULES;
use std::alloc::Global;
use std::marker::Model;

/// The most cutoffs of a selector.
pub(crate) const MOST_CUTOFFS: usize = 7;

const MOST_CUTOFF: u64 = 1_048_576;

/// Whether each number is above the one before it.
pub(crate) fn is_rising(numbers: &[u32]) -> bool
    ensures { result ≡ is_rising numbers.now }
{
    let mut rest = numbers;
    while let [first, after @ ..] = rest {
        if let [second, ..] = after {
            if second <= first {
                return false;
            }
        }
        rest = after;
    }
    true
}

/// What a line says.
#[derive(Drop)]
pub(crate) struct Choice<'t> {
    pub transform: &'t [u8],
    pub matrix: &'t [u8],
    pub set: Vec<u32>,
    pub selector: Selector,
}

impl<'t> Model for Choice<'t> {
    ghost use Rattle.pb_config.specs.Choices.{ChoiceText};

    ghost Value = { ChoiceText };

    ghost view = { λ c. record { names = record { transform = c.transform.now; matrix = c.matrix.now }; set = c.set.items; selector = c.selector } };
}

// `choose T.M`, and what stands after it.
fn next_names(text: &[u8]) -> Option<(&[u8], &[u8], &[u8])>
    ensures { MatchOption result (names_next text.now ≡ None)
        (λ r. names_next text.now ≡ Some (record { transform = r.0.now; matrix = r.1.now }, r.2.now)) }
{
    let rest = after(b"choose", text)?;
    let (transform, rest) = next_name(rest)?;
    let rest = after(b".", rest)?;
    let (matrix, rest) = next_name(rest)?;
    Some((transform, matrix, rest))
}

// Rules with commas between them, and a `}`.
fn read_rules(alloc: Global, line: u64, text: &[u8]) -> Result<(Vec<u32>, &[u8]), ConfigRefusal>
    ensures { MatchResult result (λ r. rules_next MOST_RULES text.now ≡ Some (r.0.items, r.1.now)) (IsBad line (rules_next MOST_RULES text.now)) }
{
    let mut rules = Vec::new(alloc);
    let mut rest = text;
    for _ in 0..MOST_RULES {
        let Some((rule, next)) = next_number(rest) else {
            return Err(ConfigRefusal::BadLine { line });
        };
        rules.push(rule)?;
        let Some(next_rule) = after(b",", next) else {
            let Some(end) = after(b"}", next) else {
                return Err(ConfigRefusal::BadLine { line });
            };
            return Ok((rules, end));
        };
        rest = next_rule;
    }
    Err(ConfigRefusal::BadLine { line })
}

// The set: rules that rise, between braces.
fn read_set(alloc: Global, line: u64, text: &[u8]) -> Result<(Vec<u32>, &[u8]), ConfigRefusal>
    ensures { MatchResult result (λ r. set_next text.now ≡ Some (r.0.items, r.1.now)) (IsBad line (set_next text.now)) }
{
    let Some(rest) = after(b"{", text) else {
        return Err(ConfigRefusal::BadLine { line });
    };
    let (rules, rest) = read_rules(alloc, line, rest)?;
    if is_rising(&rules) {
        Ok((rules, rest))
    } else {
        Err(ConfigRefusal::BadLine { line })
    }
}

// A cutoff with its rule.
fn next_level(text: &[u8]) -> Option<((u64, u32), &[u8])>
    ensures { MatchOption result (level_next text.now ≡ None) (λ r. level_next text.now ≡ Some (r.0, r.1.now)) }
{
    let rest = after(b"until", text)?;
    let (cutoff, rest) = next_number(rest)?;
    let cutoff = u64::from(cutoff);
    if cutoff < 1 || cutoff > MOST_CUTOFF {
        return None;
    }
    let rest = after(b"then", rest)?;
    let (rule, rest) = next_number(rest)?;
    Some(((cutoff, rule), rest))
}

// Cutoffs with their rules, to the end of the line.
fn read_levels(alloc: Global, line: u64, text: &[u8]) -> Result<Vec<(u64, u32)>, ConfigRefusal>
    ensures { MatchResult result (λ r. levels_of MOST_CUTOFFS text.now ≡ Some r.items) (IsBad line (levels_of MOST_CUTOFFS text.now)) }
{
    let mut levels = Vec::new(alloc);
    let mut rest = text;
    for _ in 0..MOST_CUTOFFS {
        if is_blank(rest) {
            return Ok(levels);
        }
        let Some((level, next)) = next_level(rest) else {
            return Err(ConfigRefusal::BadLine { line });
        };
        levels.push(level)?;
        rest = next;
    }
    if is_blank(rest) {
        Ok(levels)
    } else {
        Err(ConfigRefusal::BadLine { line })
    }
}

// What stands after the set.
fn read_selector(alloc: Global, line: u64, text: &[u8]) -> Result<Selector, ConfigRefusal>
    ensures { MatchResult result (λ r. selector_of text.now ≡ Some r) (IsBad line (selector_of text.now)) }
{
    let Some(rest) = after(b"=", text) else {
        return Err(ConfigRefusal::BadLine { line });
    };
    let Some((first, rest)) = next_number(rest) else {
        return Err(ConfigRefusal::BadLine { line });
    };
    let levels = read_levels(alloc, line, rest)?;
    Ok(Selector { first, levels })
}

/// What a line says.
pub(crate) fn read_choice(
    alloc: Global,
    line: u64,
    text: &[u8],
) -> Result<Choice<'_>, ConfigRefusal>
    ensures { MatchResult result (λ r. choice_of text.now ≡ Some r) (IsBad line (choice_of text.now)) }
{
    let Some((transform, matrix, rest)) = next_names(text) else {
        return Err(ConfigRefusal::BadLine { line });
    };
    let (set, rest) = read_set(alloc, line, rest)?;
    let selector = read_selector(alloc, line, rest)?;
    Ok(Choice {
        transform,
        matrix,
        set,
        selector,
    })
}
