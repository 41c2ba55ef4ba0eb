// What no clause says: that the appends of several threads are answered, and that what was acknowledged is read back.
ghost use Rattle.std.specs.Prelude.{◌≡◌, [], Some};
ghost use Rattle.ifdb_disk.specs.Memory.{clock_of};
ghost use Rattle.ifdb_journal.specs.Reading.{Holds};
ghost use Rattle.ifdb_durable.specs.Seats.{IsOpened};
ghost use Rattle.test_durable.specs.Shop.{IsIn, KeepsShares};

use crate::shop::{Hands, Shop};
use ifdb_disk::MemoryDisk;
use ifdb_durable::{Naming, Opened};
use ifdb_io::MemorySink;
use ifdb_journal::{Batch, Journal};
use std::alloc::Global;
use std::marker::Brand;
use std::sync::Wait;
use std::test::Fail;
use std::thread::{Threads, join};

const OFTEN: u64 = 6;

// More calls of a disk than a trial makes.
const NO_CALL: u64 = 200;

// What one thread has when it is done: its hands, and how often it was answered OK.
struct Done<B: Naming> {
    hands: Hands<B, MemoryDisk>,
    answered: u64,
}

// Adds an amount again and again, up to a fault.
fn serve_often<B: Naming, R: Wait>(
    rt: &R,
    shop: &Shop<B, MemoryDisk>,
    mut hands: Hands<B, MemoryDisk>,
    mut sink: MemorySink,
    amount: u64,
) -> Done<B>
    requires { IsIn shop.now.tally shop.now.group.writer hands }
    ensures hands { IsIn shop.now.tally shop.now.group.writer result.hands }
    ensures shares { KeepsShares hands result.hands }
{
    let mut answered = 0;
    for _ in 0..OFTEN {
        let served = shop.serve_add(rt, &mut hands, &mut sink, amount);
        let Ok(true) = served else {
            break;
        };
        answered = u64::saturating_add(answered, 1);
    }
    Done { hands, answered }
}

// What came of a trial: how often each thread was answered, and the disk.
struct Outcome {
    ones: u64,
    hundreds: u64,
    sum: u64,
    disk: MemoryDisk,
}

// Two threads add 1 and 100, over one disk.
fn run_named<B: Naming + Send + Sync, R: Threads + Wait + Sync>(
    rt: &R,
    alloc: Global,
    opened: Opened<MemoryDisk>,
    journal: Journal,
    disk: MemoryDisk,
) -> Result<Outcome, Fail>
    requires opened { IsOpened opened }
    requires name { opened.table.shared.table_id ≡ B.table }
    requires holds { Holds (Some (clock_of disk)) B.before journal.at }
{
    let waiting = Batch::new(alloc, 4096)?;
    let batch = Batch::new(alloc, 4096)?;
    let first_sink = MemorySink::new(alloc, 64, 4096, Vec::new(alloc))?;
    let second_sink = MemorySink::new(alloc, 64, 4096, Vec::new(alloc))?;
    let Ok((shop, mut hands)) = Shop::<B, MemoryDisk>::open(
        alloc, opened, journal, disk, waiting, batch,
    ) else {
        return Err(Fail::from("no memory"));
    };
    let second = shop.split(&mut hands);
    let shared = &shop;
    let (one, two) = join(
        rt,
        || serve_often(rt, shared, hands, first_sink, 1),
        || serve_often(rt, shared, second, second_sink, 100),
    );
    let Done {
        mut hands,
        answered: ones,
    } = one;
    let Done {
        hands: other,
        answered: hundreds,
    } = two;
    shop.join(&mut hands, other);
    let (tally, writer) = shop.close(hands);
    Ok(Outcome {
        ones,
        hundreds,
        sum: tally.sum(),
        disk: writer.into_disk(),
    })
}

// The numbers of records of 1 and of 100 that a journal has.
fn read_back(alloc: Global, disk: &mut MemoryDisk) -> Result<(u64, u64), Fail> {
    let Ok(mut journal) = Journal::start(alloc, disk) else {
        return Err(Fail::from("start"));
    };
    let mut ones = 0;
    let mut hundreds = 0;
    for _ in 0..u64::MAX {
        match journal.next(alloc, disk) {
            Ok(None) => return Ok((ones, hundreds)),
            Ok(Some(record)) => {
                if record.line.as_slice() == [0, 0, 0, 0, 0, 0, 0, 1].as_slice() {
                    ones = u64::saturating_add(ones, 1);
                } else if record.line.as_slice() == [0, 0, 0, 0, 0, 0, 0, 100].as_slice() {
                    hundreds = u64::saturating_add(hundreds, 1);
                } else {
                    return Err(Fail::from("another record"));
                }
            }
            Err(_) => return Err(Fail::from("damaged")),
        }
    }
    Err(Fail::from("too long"))
}

// A trial in which one call of the disk fails.
fn trial<R: Threads + Wait + Sync>(rt: &R, alloc: Global, fail: u64, fill: u8) -> Result<(), Fail> {
    let mut disk = MemoryDisk::new(
        alloc,
        Vec::new(alloc),
        4096,
        NO_CALL,
        Vec::from_slice(alloc, &[fail])?,
    )?;
    let Ok(mut journal) = Journal::start(alloc, &mut disk) else {
        return Ok(());
    };
    let Ok(None) = journal.next(alloc, &mut disk) else {
        return Err(Fail::from("not empty"));
    };
    let opened = Opened::new(alloc)?;
    let outcome = run_named::<Brand, R>(rt, alloc, opened, journal, disk)?;
    let Outcome {
        ones,
        hundreds,
        sum,
        disk,
    } = outcome;
    let mut left = disk.crash(fill);
    let (file_ones, file_hundreds) = read_back(alloc, &mut left)?;
    if file_ones < ones || file_hundreds < hundreds {
        return Err(Fail::from("an acknowledged record is lost"));
    }
    if file_ones > u64::saturating_add(ones, 1)
        || file_hundreds > u64::saturating_add(hundreds, 1)
    {
        return Err(Fail::from("more than the last batch"));
    }
    if fail == NO_CALL && (ones != OFTEN || hundreds != OFTEN || sum != 606) {
        return Err(Fail::from("not all were answered"));
    }
    Ok(())
}

#[test]
fn each_call_fails(rt: HostRuntime) -> Result<(), Fail> {
    for fail in 0..60 {
        trial(&rt, rt.alloc(), fail, 0)?;
        trial(&rt, rt.alloc(), fail, 255)?;
    }
    Ok(())
}

#[test]
fn no_call_fails(rt: HostRuntime) -> Result<(), Fail> {
    for _ in 0..20 {
        trial(&rt, rt.alloc(), NO_CALL, 255)?;
    }
    Ok(())
}
