ghost use Rattle.std.specs.Prelude.{◌≤◌, OnOk, OnErr};
ghost use Rattle.cfix_outside.specs.Faults.{Rose};
ghost use Rattle.cfix_outside.specs.Sinks.{Gained, GainedFront};

use crate::sink::{Sink, SinkFault};

const PIECE: usize = 256;

/// Puts a text in pieces of 256 bytes, the last one shorter. It takes no memory, and stops at the
/// first put that fails.
pub fn put_text<O: Sink>(out: &mut O, text: &[u8]) -> Result<(), SinkFault>
    ensures taken { OnOk result (Gained (O.taken out.old) (O.taken out.new) text.now) }
    ensures front { OnErr result (GainedFront (O.taken out.old) (O.taken out.new) text.now) }
    ensures later { O.faults out.old ≤ O.faults out.new }
    ensures cause { OnErr result (Rose (O.faults out.old) (O.faults out.new)) }
{
    let mut at = 0;
    while at < text.len() {
        let end = at + PIECE.min(text.len() - at);
        out.put(&text[at..end])?;
        at = end;
    }
    Ok(())
}
