// Writing all of some bytes to a sink.
ghost use Rattle.std.specs.Prelude.{OnOk, OnErr};
ghost use Rattle.std.specs.Io.KnownBytes.{Appends};
ghost use Rattle.ls_edge.specs.Causes.{AppendsFront, HasSinkCause};

use crate::{Sink, SinkFault};

/// Writes all the bytes, piece by piece. After an `Err` a front of them is written. `Failed` comes
/// only where the sink's count of faults rose; that count never falls.
pub fn write_whole<K: Sink>(out: &mut K, bytes: &[u8]) -> Result<(), SinkFault>
    ensures ok { OnOk result (Appends (K.written out.old) (K.written out.new) bytes.now) }
    ensures err { OnErr result (AppendsFront (K.written out.old) (K.written out.new) bytes.now) }
    ensures cause { HasSinkCause (K.faults out.old) (K.faults out.new) result }
{
    let mut rest = bytes;
    while !rest.is_empty() {
        let count = out.write(rest)?;
        rest = &rest[count..];
    }
    Ok(())
}
