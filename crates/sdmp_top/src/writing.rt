ghost use Rattle.std.specs.Prelude.{◌≡◌, ◌<◌, ◌≤◌, ◌++◌, ℕ, false, List, length, OnOk, OnErr};
ghost use Rattle.sdmp_top.specs.Outside.{Appends, AppendsPart, HasCause, Rose};

use crate::outside::{Failed, Sink};

/// Writes all of the bytes. Each write offers all that is left, and where none are left there is no write.
pub fn write_all<K: Sink>(sink: &mut K, bytes: &[u8]) -> Result<(), Failed>
    ensures appends { OnOk result (Appends (K.held sink.old) (K.held sink.new) bytes.now) }
    ensures part { OnErr result (AppendsPart (K.held sink.old) (K.held sink.new) bytes.now) }
    ensures no_flush { OnErr result (K.flush_failed sink.new ≡ false) }
    ensures cause { HasCause (K.faults sink.old) (K.faults sink.new) (K.at_last sink.new) result }
{
    let mut rest = bytes;
    while !rest.is_empty() {
        let n = sink.write(rest)?;
        rest = &rest[n..];
    }
    Ok(())
}
