// Writing all of some bytes.
ghost use Rattle.std.specs.Prelude.{◌≡◌, OnOk, OnErr};
ghost use Rattle.std.specs.Io.KnownBytes.{Appends};
ghost use Rattle.ifdb_io.specs.Causes.{HasCause, WritesShort};

use crate::{Failed, Sink};

/// Writes all the bytes, in as many calls as the sink wants. After `Failed` a front of them that
/// lacks at least the last byte was written. Takes no memory.
pub fn write_all<W: Sink>(sink: &mut W, bytes: &[u8]) -> Result<(), Failed>
    ensures ok { OnOk result (Appends (W.written sink.old) (W.written sink.new) bytes.now) }
    ensures err { OnErr result (WritesShort (W.written sink.old) (W.written sink.new) bytes.now) }
    ensures cause { HasCause (W.faults sink.old) (W.faults sink.new) result }
    ensures beside { W.beside sink.new ≡ W.beside sink.old }
{
    let mut done = 0;
    while done < bytes.len() {
        done += sink.write(&bytes[done..])?;
    }
    Ok(())
}
