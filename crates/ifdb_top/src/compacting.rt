// The words of `compact`.
ghost use Rattle.std.specs.Prelude.{◌≡◌, ◌≤◌, length, map, string_bytes};
ghost use Rattle.ifdb_top.specs.Compact.{CompactsFile, CompactsThere, DoesCompact, compact_status, read_status, write_status};

use crate::base::{Status, write_usage};
use crate::more::MoreStatus;
use crate::status::HostStatus;
use ifdb_folder::Folder;
use ifdb_io::Sink;
use ifdb_log::LogFault;
use ifdb_swap::{CompactFault, SpareFault, When, compact_in, spare_name};
use ifdb_words::{FileName, one_file_in};
use std::alloc::Global;

const USAGE: &str = "usage: ifdb compact --file F\n";

/// Does what the words behind `compact` say: compacts the database in a file, in its place. It writes nothing where they are well
/// formed.
pub(crate) fn compact<W: Sink, F: Folder>(
    alloc: Global,
    words: &[String],
    output: &mut W,
    folder: &mut F,
) -> HostStatus
where
    F::Disk: Drop,
    ensures done { DoesCompact F.Folder F.Disk.Disk W.Sink output.old output.new
        folder.old folder.new (map string_bytes words.now) result }
    ensures output_later { W.faults output.old ≤ W.faults output.new }
    ensures folder_later { F.faults folder.old ≤ F.faults folder.new }
{
    match one_file_in(alloc, words) {
        Ok(Some(file)) => compact_file(alloc, folder, &file),
        Ok(None) => HostStatus::More(MoreStatus::Base(write_usage(output, USAGE))),
        Err(_) => HostStatus::More(MoreStatus::Base(Status::OutOfMemory)),
    }
}

/// Compacts the database in a file, if it is there.
fn compact_file<F: Folder>(alloc: Global, folder: &mut F, file: &FileName) -> HostStatus
where
    F::Disk: Drop,
    ensures compacted { CompactsFile F.Folder F.Disk.Disk file.now folder.old folder.new result }
    ensures folder_later { F.faults folder.old ≤ F.faults folder.new }
{
    let name = file.as_str();
    match folder.has(name) {
        Ok(true) => compact_there(alloc, folder, name),
        Ok(false) | Err(_) => HostStatus::DiskFault,
    }
}

/// Compacts the database in a file to another, which has its name and `.new` behind it, and then takes its place.
fn compact_there<F: Folder>(alloc: Global, folder: &mut F, name: &str) -> HostStatus
where
    F::Disk: Drop,
    requires { (1 ≤ length name.now) × (length name.now ≤ 255) }
    ensures compacted { CompactsThere F.Folder F.Disk.Disk name.now folder.old folder.new result }
    ensures folder_later { F.faults folder.old ≤ F.faults folder.new }
{
    match spare_name(alloc, name) {
        Ok(Some(spare)) => compact_status(compact_in(
            alloc,
            folder,
            name,
            spare.as_str(),
            When::Always,
        )),
        Ok(None) => HostStatus::DiskFault,
        Err(_) => HostStatus::More(MoreStatus::Base(Status::OutOfMemory)),
    }
}

/// The status of an end.
fn compact_status(ended: Result<bool, CompactFault>) -> HostStatus
    ensures { result ≡ compact_status ended }
{
    match ended {
        Ok(_) => HostStatus::More(MoreStatus::Base(Status::Done)),
        Err(CompactFault::Folder) => HostStatus::DiskFault,
        Err(CompactFault::Read(fault)) => read_status(fault),
        Err(CompactFault::Write(fault)) => write_status(fault),
    }
}

/// The status where the database wasn't read.
pub(crate) fn read_status(fault: LogFault) -> HostStatus
    ensures { result ≡ read_status fault }
{
    match fault {
        LogFault::Disk => HostStatus::DiskFault,
        LogFault::NotALog => HostStatus::NotADatabase,
        LogFault::Damaged(at) => HostStatus::More(MoreStatus::Damaged(at)),
        LogFault::OutOfMemory => HostStatus::More(MoreStatus::Base(Status::OutOfMemory)),
    }
}

/// The status where the new file wasn't written.
fn write_status(fault: SpareFault) -> HostStatus
    ensures { result ≡ write_status fault }
{
    match fault {
        SpareFault::Disk => HostStatus::DiskFault,
        SpareFault::NotALog => HostStatus::SpareTaken,
        SpareFault::OutOfMemory => HostStatus::More(MoreStatus::Base(Status::OutOfMemory)),
    }
}
