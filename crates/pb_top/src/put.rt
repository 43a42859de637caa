ghost use Rattle.std.specs.Prelude.{◌≡◌};
ghost use Rattle.pb_top.specs.Sinks.{sink_change, PutsAll};

use pb_outside::{Refused, Sink};

/// Puts a text whole, piece by piece, up to a put that is refused.
#[tactic(auto, using(crate::proofs::SinkLemmas::gains_more, crate::proofs::SinkLemmas::gains_nothing))]
pub fn put_all<S: Sink>(sink: &mut S, text: &[u8]) -> Result<(), Refused>
    ensures { PutsAll text.now result (sink_change S.written S.faults sink.old sink.new) }
{
    let mut done = 0;
    'puts: while done < text.len() {
        done += sink.put(&text[done..])? as usize;
    }
    Ok(())
}
