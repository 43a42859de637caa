ghost use Rattle.std.specs.Prelude.{◌≡◌, ℕ, ◌+◌, ◌≤◌, length, map, IfSome, IfNone, string_bytes};
ghost use Rattle.pb_words.specs.declared.ask.Ask.{Ask as Asked};
ghost use Rattle.pb_words.specs.Ranges.{IsInRange, HaveRanges};
ghost use Rattle.pb_words.specs.Line.{Line, least_others};
ghost use Rattle.pb_words.specs.Reading.{program_asked, run_asked, tune_asked, demo_asked, asked};

use crate::ask::{Ask, Pool};
use crate::options::{Settings, read_options};
use crate::values::read_number;

const MOST_INPUTS: usize = 16;

// A command without options that wants a program alone.
fn read_program(ask: Ask, settings: Settings, others: &[String]) -> Option<Ask>
    ensures range { IsInRange ask → IfSome result IsInRange }
    ensures asked { result ≡ program_asked ask settings (map string_bytes others.now) }
{
    match others {
        [_program] if settings.is_empty() => Some(ask),
        _ => None,
    }
}

fn read_run(settings: Settings, others: &[String]) -> Option<Ask>
    requires { HaveRanges settings }
    ensures range { IfSome result IsInRange }
    ensures asked { result ≡ run_asked settings (map string_bytes others.now) }
{
    match others {
        [_program, _config, _transform, inputs @ ..]
            if inputs.len() <= MOST_INPUTS && settings.up_to.is_none() => {
            Some(Ask::Run {
                workers: settings.workers.unwrap_or(1),
                depth: settings.depth.unwrap_or(64),
                grain: settings.grain.unwrap_or(64),
                pool: settings.pool.unwrap_or(Pool::Steal),
                trace: settings.trace,
            })
        }
        _ => None,
    }
}

fn read_tune(settings: Settings, others: &[String]) -> Option<Ask>
    requires { HaveRanges settings }
    ensures range { IfSome result IsInRange }
    ensures asked { result ≡ tune_asked settings (map string_bytes others.now) }
{
    let foreign = Settings {
        up_to: None,
        ..settings
    };
    match others {
        [_program, _transform] if foreign.is_empty() => Some(Ask::Tune {
            up_to: settings.up_to.unwrap_or(64),
        }),
        _ => None,
    }
}

fn read_demo(settings: Settings, others: &[String]) -> Option<Ask>
    ensures range { IfSome result IsInRange }
    ensures asked { result ≡ demo_asked settings (map string_bytes others.now) }
{
    match others {
        [seed, size, workers] if settings.is_empty() => {
            let seed = read_number(seed.as_str(), 0, 4_294_967_295)? as u32;
            let size = read_number(size.as_str(), 1, 256)?;
            let workers = read_number(workers.as_str(), 1, 64)? as u32;
            Some(Ask::Demo {
                seed,
                size,
                workers,
            })
        }
        _ => None,
    }
}

// What a command asks for with these options over these other words.
fn read_ask(command: &str, settings: Settings, others: &[String]) -> Option<Ask>
    requires { HaveRanges settings }
    ensures range { IfSome result IsInRange }
    ensures asked { result ≡ asked command.now settings (map string_bytes others.now) }
{
    match command {
        "check" => read_program(Ask::Check, settings, others),
        "choices" => read_program(Ask::Choices, settings, others),
        "run" => read_run(settings, others),
        "tune" => read_tune(settings, others),
        "demo" => read_demo(settings, others),
        _ => None,
    }
}

/// The command of a line with its options, for `demo` with its three numbers, and the place of the first of its
/// other words. `words` are those after the program's name. None exactly where they aren't in the grammar.
pub fn read_words(words: &[String]) -> Option<(Ask, usize)>
    ensures found { IfSome result (λ r. Line (map string_bytes words.now) r.0 r.1) }
    ensures enough { IfSome result (λ r. r.1 + least_others r.0 ≤ length words.now) }
    ensures range { IfSome result (λ r. IsInRange r.0) }
    ensures none { IfNone result ((ask : Asked) (place : ℕ) → Line (map string_bytes words.now) ask place → ⊥) }
{
    let (command, after) = words.split_first()?;
    let (settings, others) = read_options(after)?;
    let ask = read_ask(command.as_str(), settings, others)?;
    Some((ask, words.len() - others.len()))
}
