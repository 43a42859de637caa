ghost use Rattle.std.specs.Prelude.{◌≡◌, IfOk};
ghost use Rattle.pb_prog.specs.Canonical.{canonical};
ghost use Rattle.pb_syntax.specs.Trees.{bare_text};

mod expression;
mod form;
mod statement;
mod transform;
mod view;
mod writer;

use pb_syntax::Text;
use std::alloc::{AllocError, Global};
use writer::Writer;

/// The canonical text of a program, in bytes.
#[tactic(auto, using(crate::proofs::WriterLemmas::puts_text, crate::proofs::TreeLemmas::transforms_listed))]
pub fn print_text(alloc: Global, text: &Text) -> Result<Vec<u8>, AllocError>
    ensures { IfOk result (λ bytes. bytes.items ≡ canonical (bare_text text.now)) }
{
    let mut writer = Writer::new(alloc);
    writer.transforms(&text.transforms)?;
    Ok(writer.into_text())
}
