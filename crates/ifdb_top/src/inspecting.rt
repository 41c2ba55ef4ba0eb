// The words of `inspect`.
ghost use Rattle.std.specs.Prelude.{◌≤◌, OnErr, OnOk, length, map, string_bytes};
ghost use Rattle.std.specs.Io.KnownBytes.{Appends};
ghost use Rattle.ifdb_io.specs.Causes.{HasCause, WritesShort};
ghost use Rattle.ifdb_top.specs.Inspect.{DoesInspect, InspectsFile, InspectsThere, WritesText, inspection_text};

use crate::base::{Status, write_usage};
use crate::compacting::read_status;
use crate::more::MoreStatus;
use crate::status::HostStatus;
use ifdb_folder::Folder;
use ifdb_io::{Failed, Sink};
use ifdb_service::write_numbered;
use ifdb_swap::{InspectFault, Inspection, inspect_in};
use ifdb_words::{FileName, one_file_in};
use std::alloc::Global;

const USAGE: &str = "usage: ifdb inspect --file F\n";

/// Does what the words behind `inspect` say: reads the database in a file whole, and writes what it comes to, a number a line.
pub(crate) fn inspect<W: Sink, F: Folder>(
    alloc: Global,
    words: &[String],
    output: &mut W,
    folder: &mut F,
) -> HostStatus
where
    F::Disk: Drop,
    ensures done { DoesInspect F.Folder F.Disk.Disk W.Sink output.old output.new
        folder.old folder.new (map string_bytes words.now) result }
    ensures output_later { W.faults output.old ≤ W.faults output.new }
    ensures folder_later { F.faults folder.old ≤ F.faults folder.new }
{
    match one_file_in(alloc, words) {
        Ok(Some(file)) => inspect_file(alloc, output, folder, &file),
        Ok(None) => HostStatus::More(MoreStatus::Base(write_usage(output, USAGE))),
        Err(_) => HostStatus::More(MoreStatus::Base(Status::OutOfMemory)),
    }
}

/// Looks through the database in a file, if it is there.
fn inspect_file<W: Sink, F: Folder>(
    alloc: Global,
    output: &mut W,
    folder: &mut F,
    file: &FileName,
) -> HostStatus
where
    F::Disk: Drop,
    ensures inspected { InspectsFile F.Folder F.Disk.Disk W.Sink file.now
        output.old output.new folder.old folder.new result }
    ensures output_later { W.faults output.old ≤ W.faults output.new }
    ensures folder_later { F.faults folder.old ≤ F.faults folder.new }
{
    let name = file.as_str();
    match folder.has(name) {
        Ok(true) => inspect_there(alloc, output, folder, name),
        Ok(false) | Err(_) => HostStatus::DiskFault,
    }
}

/// Looks through the database in a file.
fn inspect_there<W: Sink, F: Folder>(
    alloc: Global,
    output: &mut W,
    folder: &mut F,
    name: &str,
) -> HostStatus
where
    F::Disk: Drop,
    requires { (1 ≤ length name.now) × (length name.now ≤ 255) }
    ensures inspected { InspectsThere F.Folder F.Disk.Disk W.Sink name.now
        output.old output.new folder.old folder.new result }
    ensures output_later { W.faults output.old ≤ W.faults output.new }
    ensures folder_later { F.faults folder.old ≤ F.faults folder.new }
{
    match inspect_in(alloc, folder, name) {
        Ok(inspection) => tell(output, inspection),
        Err(InspectFault::Folder) => HostStatus::DiskFault,
        Err(InspectFault::Read(fault)) => read_status(fault),
    }
}

/// Writes what a database comes to.
fn tell<W: Sink>(output: &mut W, inspection: Inspection) -> HostStatus
    ensures told { WritesText W.Sink (inspection_text inspection) output.old output.new result }
    ensures later { W.faults output.old ≤ W.faults output.new }
{
    match write_inspection(output, inspection) {
        Ok(()) => HostStatus::More(MoreStatus::Base(Status::Done)),
        Err(Failed) => HostStatus::More(MoreStatus::Base(Status::WriteFault)),
    }
}

/// Writes two numbers, each on a line.
fn write_inspection<W: Sink>(output: &mut W, inspection: Inspection) -> Result<(), Failed>
    ensures ok { OnOk result (Appends (W.written output.old) (W.written output.new)
        (inspection_text inspection)) }
    ensures err { OnErr result (WritesShort (W.written output.old) (W.written output.new)
        (inspection_text inspection)) }
    ensures cause { HasCause (W.faults output.old) (W.faults output.new) result }
{
    write_numbered(output, b"changes", inspection.changes)?;
    write_numbered(output, b"rows", inspection.rows)
}
