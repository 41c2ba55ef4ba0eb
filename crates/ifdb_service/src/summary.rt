// The summary of a service.
ghost use Rattle.std.specs.Prelude.{OnErr, OnOk};
ghost use Rattle.std.specs.Io.KnownBytes.{Appends};
ghost use Rattle.ifdb_io.specs.Causes.{HasCause, WritesShort};
ghost use Rattle.ifdb_service.specs.Summary.{summary_text};

use crate::numbered_line::write_numbered;
use ifdb_io::{Failed, Sink};
use ifdb_session::Counts;

/// Writes what was counted of a service, and how many faults there were, each on a line. After `Failed` a front of it that lacks
/// at least the last byte was written. Takes no memory.
pub fn write_summary<W: Sink>(output: &mut W, counts: Counts, faults: u64) -> Result<(), Failed>
    ensures ok { OnOk result (Appends (W.written output.old) (W.written output.new)
        (summary_text counts faults)) }
    ensures err { OnErr result (WritesShort (W.written output.old) (W.written output.new)
        (summary_text counts faults)) }
    ensures cause { HasCause (W.faults output.old) (W.faults output.new) result }
{
    write_numbered(output, b"sessions", counts.sessions)?;
    write_numbered(output, b"entries", counts.entries)?;
    write_numbered(output, b"commits", counts.commits)?;
    write_numbered(output, b"refused", counts.refused)?;
    write_numbered(output, b"rows", counts.rows)?;
    write_numbered(output, b"faults", faults)
}
