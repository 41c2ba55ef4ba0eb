// The words of `keep`.
ghost use Rattle.std.specs.Prelude.{◌≡◌, ◌≢◌, ◌^◌, ◌≤◌, map, string_bytes};
ghost use Rattle.ifdb_top.specs.Keep.{DoesKeep, KeepsScript, status_of};

use crate::base::{Status, write_usage};
use crate::more::MoreStatus;
use ifdb_disk::Shelf;
use ifdb_io::{Sink, Source};
use ifdb_keep::{KeepEnd, keep_script};
use ifdb_words::{Keep, keep_in};
use std::alloc::Global;

const USAGE: &str = "usage: ifdb keep --file F [--limit N]\n";

/// Does what the words behind `keep` say: runs the script at the input over the journal in a file.
pub fn keep<R: Source, W: Sink, H: Shelf>(
    alloc: Global,
    words: &[String],
    input: &mut R,
    output: &mut W,
    shelf: &mut H,
) -> MoreStatus
    ensures done { DoesKeep R.Source W.Sink H.Shelf H.Disk.Disk (map string_bytes words.now)
        input.old input.new output.old output.new shelf.old shelf.new result }
    ensures input_later { R.faults input.old ≤ R.faults input.new }
    ensures output_later { W.faults output.old ≤ W.faults output.new }
    ensures shelf_later { H.faults shelf.old ≤ H.faults shelf.new }
{
    match keep_in(alloc, words) {
        Ok(Some(keep)) => keep_in_file(alloc, input, output, shelf, &keep),
        Ok(None) => MoreStatus::Base(write_usage(output, USAGE)),
        Err(_) => MoreStatus::Base(Status::OutOfMemory),
    }
}

/// Runs a script over the journal in a file, which is opened once and closed at every end.
fn keep_in_file<R: Source, W: Sink, H: Shelf>(
    alloc: Global,
    input: &mut R,
    output: &mut W,
    shelf: &mut H,
    keep: &Keep,
) -> MoreStatus
    requires { keep.now.limit ≤ 2 ^ 40 }
    ensures kept { KeepsScript R.Source W.Sink H.Shelf H.Disk.Disk keep.now
        input.old input.new output.old output.new shelf.old shelf.new result }
    ensures input_later { R.faults input.old ≤ R.faults input.new }
    ensures output_later { W.faults output.old ≤ W.faults output.new }
    ensures shelf_later { H.faults shelf.old ≤ H.faults shelf.new }
{
    let Ok(mut disk) = shelf.open(keep.file.as_str()) else {
        return MoreStatus::DiskFault;
    };
    let end = keep_script(alloc, input, output, keep.limit, &mut disk);
    shelf.close(disk);
    status_of(end)
}

/// The status of an end.
fn status_of(end: KeepEnd) -> MoreStatus
    ensures { result ≡ status_of end }
{
    match end {
        KeepEnd::Done => MoreStatus::Base(Status::Done),
        KeepEnd::ReadFault => MoreStatus::Base(Status::ReadFault),
        KeepEnd::WriteFault => MoreStatus::Base(Status::WriteFault),
        KeepEnd::OutOfMemory => MoreStatus::Base(Status::OutOfMemory),
        KeepEnd::TooLarge => MoreStatus::Base(Status::TooLarge),
        KeepEnd::DiskFault => MoreStatus::DiskFault,
        KeepEnd::Damaged(at) => MoreStatus::Damaged(at),
    }
}
