ghost use Rattle.std.specs.Prelude.{◌≡◌, map, None, Some, IfSome, MatchOption, string_bytes, option_and_then};
ghost use Rattle.pb_words.specs.Options.{no_settings};
ghost use Rattle.pb_words.specs.Ranges.{HasRange, HaveRanges};
ghost use Rattle.pb_words.specs.Reading.{options_read, valued_option};

use crate::ask::Pool;
use crate::values::{is_option, read_number, read_pool};

/// An option of a command, with its value.
#[derive(Clone, Copy)]
pub(crate) enum Setting {
    Workers(u32),
    Depth(u32),
    Grain(u64),
    OnPool(Pool),
    Trace,
    UpTo(u64),
}

/// The options of a line, each at most once.
#[derive(Clone, Copy)]
pub(crate) struct Settings {
    pub workers: Option<u32>,
    pub depth: Option<u32>,
    pub grain: Option<u64>,
    pub pool: Option<Pool>,
    pub trace: bool,
    pub up_to: Option<u64>,
}

impl Settings {
    ghost use Rattle.std.specs.Prelude.{◌≡◌, IfSome};
    ghost use Rattle.pb_words.specs.Ranges.{HasRange, HaveRanges};
    ghost use Rattle.pb_words.specs.Options.{added, is_empty, no_settings};

    fn none() -> Settings
        ensures { result ≡ no_settings }
    {
        Settings {
            workers: None,
            depth: None,
            grain: None,
            pool: None,
            trace: false,
            up_to: None,
        }
    }

    /// Whether no option is given.
    pub(crate) fn is_empty(self) -> bool
        ensures { result ≡ is_empty self }
    {
        let others = self.grain.is_none()
            && self.pool.is_none()
            && !self.trace
            && self.up_to.is_none();
        self.workers.is_none() && self.depth.is_none() && others
    }

    // With one more option, if it isn't given yet.
    fn with(self, setting: Setting) -> Option<Settings>
        ensures added { result ≡ added self setting }
        ensures ranges { HaveRanges self → HasRange setting → IfSome result HaveRanges }
    {
        match setting {
            Setting::Workers(workers) if self.workers.is_none() => Some(Settings {
                workers: Some(workers),
                ..self
            }),
            Setting::Depth(depth) if self.depth.is_none() => Some(Settings {
                depth: Some(depth),
                ..self
            }),
            Setting::Grain(grain) if self.grain.is_none() => Some(Settings {
                grain: Some(grain),
                ..self
            }),
            Setting::OnPool(pool) if self.pool.is_none() => Some(Settings {
                pool: Some(pool),
                ..self
            }),
            Setting::Trace if !self.trace => Some(Settings {
                trace: true,
                ..self
            }),
            Setting::UpTo(up_to) if self.up_to.is_none() => Some(Settings {
                up_to: Some(up_to),
                ..self
            }),
            _ => None,
        }
    }
}

// The option that a name and its value spell.
fn read_valued(name: &str, value: &str) -> Option<Setting>
    ensures option { result ≡ valued_option name.now value.now }
    ensures range { IfSome result HasRange }
{
    match name {
        "--workers" => Some(Setting::Workers(read_number(value, 1, 64)? as u32)),
        "--depth" => Some(Setting::Depth(read_number(value, 0, 64)? as u32)),
        "--grain" => Some(Setting::Grain(read_number(value, 1, 1_048_576)?)),
        "--pool" => Some(Setting::OnPool(read_pool(value)?)),
        "--up-to" => Some(Setting::UpTo(read_number(value, 1, 1_048_576)?)),
        _ => None,
    }
}

/// The options that stand first among some words, and the words after them.
pub(crate) fn read_options(words: &[String]) -> Option<(Settings, &[String])>
    ensures ranges { IfSome result (λ found. HaveRanges found.0) }
    ensures read { MatchOption result (options_read no_settings None (map string_bytes words.now) ≡ None)
        (λ found. options_read no_settings None (map string_bytes words.now) ≡ Some (found.0, map string_bytes found.1.now)) }
{
    let mut settings = Settings::none();
    let mut rest = words;
    while let [name, after @ ..] = rest {
        if !is_option(name.as_str()) {
            break;
        }
        if name.as_str() == "--trace" {
            settings = settings.with(Setting::Trace)?;
            rest = after;
        } else {
            let [value, after @ ..] = after else {
                return None;
            };
            settings = settings.with(read_valued(name.as_str(), value.as_str())?)?;
            rest = after;
        }
    }
    Some((settings, rest))
}
