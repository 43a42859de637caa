ghost use Rattle.std.specs.Prelude.{◌≡◌, ◌≢◌, IfOk};
ghost use Rattle.pb_syntax.specs.declared.kind.TokenKind.TheVariants.{End};
ghost use Rattle.pb_grammar.specs.Want.{a_sign};
ghost use Rattle.pb_form_parser.specs.Leads.{LeadsOn, Shortens};

use crate::cursor::Cursor;
use crate::fault::Fault;
use pb_syntax::TokenKind;

// A function that reads on while it holds a tree drops it where reading fails, and each such drop is proved by the cases of
// the tree. These two drop it for all of them.

/// What was read, once the next token, of this kind, is consumed.
pub fn then<T: Drop>(cursor: &mut Cursor<'_>, kind: TokenKind, read: T) -> Result<T, Fault>
    requires { kind ≢ End }
    ensures same { IfOk result (λ x. x ≡ read) }
    ensures leads { LeadsOn result (a_sign kind) cursor.old cursor.new }
    ensures shorter { Shortens result cursor.old cursor.new }
{
    cursor.expect(kind)?;
    Ok(read)
}

/// The fault, where what was read before it isn't needed.
pub fn without<T: Drop>(_read: T, fault: Fault) -> Fault
    ensures { result ≡ fault }
{
    fault
}
