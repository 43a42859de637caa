ghost use Rattle.std.specs.Prelude.{◌≡◌};
ghost use Rattle.pb_parser.specs.Gives.{refused_with};

use pb_form_parser::Fault;
use pb_syntax::{Refusal, Text};

/// A fault as the refusal that it is.
pub fn refused_with(read: Result<Text, Fault>) -> Result<Text, Refusal>
    ensures { result ≡ refused_with read }
{
    match read {
        Ok(text) => Ok(text),
        Err(Fault::BadSyntax { at }) => Err(Refusal::BadSyntax { at }),
        Err(Fault::OverLimit { what, at }) => Err(Refusal::OverLimit { what, at }),
        Err(Fault::Memory) => Err(Refusal::Memory),
    }
}
