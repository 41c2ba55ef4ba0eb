// The counts of a history, as they are written.
ghost use Rattle.std.specs.Prelude.{OnErr, OnOk};
ghost use Rattle.std.specs.Io.KnownBytes.{Appends};
ghost use Rattle.ifdb_io.specs.Causes.{HasCause, WritesShort};
ghost use Rattle.ifdb_host.specs.Counting.{counts_text};

use ifdb_io::{Failed, Sink};
use ifdb_service::write_numbered;
use ifdb_session::Counts;

/// Writes what was counted of a history, each number on a line. After `Failed` a front of it that lacks at least the last byte was
/// written. Takes no memory.
pub(crate) fn write_counts<W: Sink>(output: &mut W, counts: Counts) -> Result<(), Failed>
    ensures ok { OnOk result (Appends (W.written output.old) (W.written output.new)
        (counts_text counts)) }
    ensures err { OnErr result (WritesShort (W.written output.old) (W.written output.new)
        (counts_text counts)) }
    ensures cause { HasCause (W.faults output.old) (W.faults output.new) result }
{
    write_numbered(output, b"sessions", counts.sessions)?;
    write_numbered(output, b"entries", counts.entries)?;
    write_numbered(output, b"commits", counts.commits)?;
    write_numbered(output, b"refused", counts.refused)?;
    write_numbered(output, b"rows", counts.rows)
}
