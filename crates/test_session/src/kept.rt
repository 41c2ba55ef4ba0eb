// What no clause says: that connections of a room over a journal are served while its disk works, and that the disk then has what
// was acknowledged.
ghost use Rattle.std.specs.Prelude.{◌≡◌, [], Some};
ghost use Rattle.ifdb_disk.specs.Memory.{clock_of};
ghost use Rattle.ifdb_journal.specs.Reading.{Holds};
ghost use Rattle.ifdb_durable.specs.Seats.{IsOpened};

use crate::tests::link_of;
use ifdb_disk::MemoryDisk;
use ifdb_durable::{Begun, GroupCommit, Opened, Writer};
use ifdb_io::MemoryLink;
use ifdb_journal::{Batch, Journal};
use ifdb_session::{Begins, Durable, Ending, SharedRoom, serve_link};
use ifdb_turn::Turnstile;
use std::alloc::Global;
use std::marker::Brand;
use std::sync::Wait;
use std::test::Fail;

const ROOM: usize = 4096;

// More calls of a disk than a trial makes.
const NO_CALL: u64 = 200;

// A public change and a commit: two records.
const INPUT: &str =
    "HELLO admin KEY 'admin'\nCREATE TABLE note (id INT, PRIMARY KEY (id))\nINSERT INTO note VALUES (7)\nSELECT id FROM note\nBYE\n";

const REPLIES: &str = "OK\nOK\nOK 1\nROWS 1 1\n7\nOK\n";

// What is left of a room that has served: how its connection ended, how many records came, and the disk.
struct Outcome {
    ending: Ending,
    records: u64,
    disk: MemoryDisk,
}

// Serves a link of a new room over an empty journal.
fn serve_named<B: Begins, R: Wait>(
    rt: &R,
    alloc: Global,
    opened: Opened<MemoryDisk>,
    journal: Journal,
    disk: MemoryDisk,
    link: &mut MemoryLink,
) -> Result<Outcome, Fail>
    requires opened { IsOpened opened }
    requires name { opened.table.shared.table_id ≡ B.table }
    requires holds { Holds (Some (clock_of disk)) B.before journal.at }
    requires first { B.first ≡ [] }
{
    let waiting = Batch::new(alloc, ROOM)?;
    let batch = Batch::new(alloc, ROOM)?;
    let Begun {
        mark,
        queue,
        writer,
        receipt,
    } = Writer::<B, MemoryDisk>::begin(opened, journal, disk, waiting, batch);
    let Ok((hall, mut pass)) = Turnstile::new(alloc, SharedRoom::opening(alloc, queue)?) else {
        return Err(Fail::from("no memory"));
    };
    let Ok((group, member)) = GroupCommit::open(alloc, mark, writer, receipt) else {
        let _ = hall.close(pass);
        return Err(Fail::from("no memory"));
    };
    let mut keeper = Durable {
        group: &group,
        member,
    };
    let ending = serve_link(rt, alloc, &hall, &mut pass, &mut keeper, link, 100_000);
    let Durable { group: _, member } = keeper;
    let mut queue = hall.close(pass).into_records();
    let records = queue.count();
    let writer = group.close(member, &mut queue);
    Ok(Outcome {
        ending,
        records,
        disk: writer.into_disk(),
    })
}

// Serves a link over an empty journal, one call of whose disk fails.
fn serve<R: Wait>(
    rt: &R,
    alloc: Global,
    link: &mut MemoryLink,
    fail: u64,
) -> Result<Option<Outcome>, Fail> {
    let fails = Vec::from_slice(alloc, &[fail])?;
    let mut disk = MemoryDisk::new(alloc, Vec::new(alloc), 4096, NO_CALL, fails)?;
    let Ok(mut journal) = Journal::start(alloc, &mut disk) else {
        return Ok(None);
    };
    let Ok(None) = journal.next(alloc, &mut disk) else {
        return Err(Fail::from("not empty"));
    };
    let opened = Opened::new(alloc)?;
    let outcome = serve_named::<Brand, R>(rt, alloc, opened, journal, disk, link)?;
    Ok(Some(outcome))
}

// How many records a journal has.
fn count_back(alloc: Global, disk: &mut MemoryDisk) -> Result<u64, Fail> {
    let Ok(mut journal) = Journal::start(alloc, disk) else {
        return Err(Fail::from("start"));
    };
    for count in 0..u64::MAX {
        match journal.next(alloc, disk) {
            Ok(None) => return Ok(count),
            Ok(Some(_)) => {}
            Err(_) => return Err(Fail::from("damaged")),
        }
    }
    Err(Fail::from("too long"))
}

// How many records the replies that were written acknowledge: the second one, and the third.
fn acknowledged(replies: &[u8]) -> u64 {
    if replies.len() < 6 {
        0
    } else if replies.len() < 11 {
        1
    } else {
        2
    }
}

// A trial in which one call of the disk fails.
fn trial<R: Wait>(rt: &R, alloc: Global, fail: u64) -> Result<(), Fail> {
    let mut link = link_of(alloc, INPUT, &[], &[])?;
    let Some(outcome) = serve(rt, alloc, &mut link, fail)? else {
        return Ok(());
    };
    let Outcome {
        ending,
        records,
        disk,
    } = outcome;
    let mut left = disk.crash(255);
    let found = count_back(alloc, &mut left)?;
    let replies = link.sink.bytes();
    if !REPLIES.as_bytes().starts_with(replies) {
        return Err(Fail::from("another reply"));
    }
    if found < acknowledged(replies) || records < found {
        return Err(Fail::from("an acknowledged record is lost, or one is there that didn't come"));
    }
    if replies.len() < REPLIES.len() && ending != Ending::Unkept {
        return Err(Fail::from("another end"));
    }
    if fail == NO_CALL && (ending != Ending::Bye || found != 2) {
        return Err(Fail::from("not all was kept"));
    }
    Ok(())
}

#[test]
fn each_call_of_the_disk_fails(rt: HostRuntime) -> Result<(), Fail> {
    for fail in 0..30 {
        trial(&rt, rt.alloc(), fail)?;
    }
    Ok(())
}

#[test]
fn no_call_of_the_disk_fails(rt: HostRuntime) -> Result<(), Fail> {
    trial(&rt, rt.alloc(), NO_CALL)
}
