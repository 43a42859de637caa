ghost use Rattle.std.specs.Prelude.{◌≡◌, ◌≤◌, length, map, string_bytes};
ghost use Rattle.pb_top.specs.Answer.{run_line};

use std::marker::Model;

/// The words of a run, but for the program.
#[derive(Drop)]
pub struct RunLine<'a> {
    pub config: &'a str,
    pub transform: &'a str,
    pub inputs: &'a [String],
}

impl<'a> Model for RunLine<'a> {
    ghost use Rattle.std.specs.Prelude.{map, string_bytes};
    ghost use Rattle.pb_top.specs.Answer.{RunLine as Texts};

    ghost Value = { Texts };

    ghost view = { λ line. record { config = line.config.now; transform = line.transform.now; inputs = map string_bytes line.inputs.now } };
}

/// The words of a run, of those after the options.
pub fn read_run(others: &[String]) -> RunLine<'_>
    requires { 3 ≤ length others.now }
    ensures { result ≡ run_line (map string_bytes others.now) }
{
    match others {
        [_, config, transform, inputs @ ..] => RunLine {
            config: config.as_str(),
            transform: transform.as_str(),
            inputs,
        },
        _ => unreachable!(),
    }
}
