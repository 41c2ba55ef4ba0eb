//! Replies, which are written once the disk has what they were answered from.
ghost use Rattle.std.specs.Prelude.{◌≤◌, length, OnErr, OnOk};
ghost use Rattle.std.specs.Io.KnownBytes.{Appends};
ghost use Rattle.ifdb_io.specs.Causes.{HasCause, WritesShort};
ghost use Rattle.ifdb_durable.specs.Told.{kept_by};

use crate::mark::Receipt;
use crate::naming::Naming;
use ifdb_io::{Failed, Sink, write_all};

/// Writes a reply that was answered from so many records, all of which are on the disk. Touches no disk.
///
/// # Errors
/// `Failed` where the link failed.
pub fn write_reply<B: Naming, D, K: Sink>(
    link: &mut K,
    text: &[u8],
    receipt: &Receipt<B, D>,
    count: u64,
) -> Result<(), Failed>
    requires kept { count ≤ length (kept_by receipt.now) }
    ensures ok { OnOk result (Appends (K.written link.old) (K.written link.new) text.now) }
    ensures err { OnErr result (WritesShort (K.written link.old) (K.written link.new) text.now) }
    ensures cause { HasCause (K.faults link.old) (K.faults link.new) result }
{
    let _ = receipt;
    let _ = count;
    write_all(link, text)
}
