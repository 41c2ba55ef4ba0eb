// A name and a number, on a line.
ghost use Rattle.std.specs.Prelude.{OnErr, OnOk};
ghost use Rattle.std.specs.Io.KnownBytes.{Appends};
ghost use Rattle.ifdb_io.specs.Causes.{HasCause, WritesShort};
ghost use Rattle.ifdb_service.specs.Summary.{numbered_line};

use ifdb_io::{Failed, Sink, write_all};
use itoa::Buffer;

/// Writes a name, a space and a number, on a line. After `Failed` a front of it that lacks at least the last byte was written.
/// Takes no memory.
pub fn write_numbered<W: Sink>(output: &mut W, name: &[u8], number: u64) -> Result<(), Failed>
    ensures ok { OnOk result (Appends (W.written output.old) (W.written output.new)
        (numbered_line name.now number)) }
    ensures err { OnErr result (WritesShort (W.written output.old) (W.written output.new)
        (numbered_line name.now number)) }
    ensures cause { HasCause (W.faults output.old) (W.faults output.new) result }
{
    let mut buffer = Buffer::new();
    write_all(output, name)?;
    write_all(output, b" ")?;
    write_all(output, buffer.format(number).as_bytes())?;
    write_all(output, b"\n")
}
