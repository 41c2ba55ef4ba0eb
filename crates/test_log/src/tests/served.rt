// A log that is read to its end, and appended to behind its last text.
ghost use Rattle.std.specs.Prelude.{◌≡◌, [], Some, OnOk};
ghost use Rattle.ifdb_disk.specs.Memory.{clock_of};
ghost use Rattle.ifdb_journal.specs.Reading.{Holds};
ghost use Rattle.ifdb_durable.specs.Seats.{IsOpened};
ghost use Rattle.ifdb_log.specs.Behind.{HasFront, behind};
ghost use Rattle.ifdb_log.specs.Reading.{HasRead, held};

use super::texts::TWO_TEXTS;
use super::title::{TITLE, disk_of};
use ifdb_disk::{Disk, MemoryDisk};
use ifdb_durable::{Begun, Naming, Opened, Writer};
use ifdb_journal::{Batch, Journal};
use ifdb_log::{Behind, Log, LogFault, Origin, TITLE_SIZE, entitle};
use std::alloc::Global;
use std::marker::Brand;
use std::process::Abort;
use std::test::Fail;

// The two batches of a writer.
#[derive(Drop)]
struct Batches {
    waiting: Batch,
    in_hand: Batch,
}

// Appends a text behind those of a log.
fn append_named<B: Origin, N: Naming>(
    opened: Opened<Behind<B, MemoryDisk>>,
    journal: Journal,
    disk: Behind<B, MemoryDisk>,
    batches: Batches,
    text: &[u8],
) -> Result<MemoryDisk, Fail>
    requires opened { IsOpened opened }
    requires name { opened.table.shared.table_id ≡ N.table }
    requires holds { Holds (behind disk.size (Some (clock_of disk.disk))) N.before journal.at }
    requires empty { (batches.waiting.records ≡ []) × (batches.in_hand.records ≡ []) }
{
    let Batches { waiting, in_hand } = batches;
    let Begun {
        mark,
        mut queue,
        mut writer,
        receipt,
    } = Writer::<N, Behind<B, MemoryDisk>>::begin(opened, journal, disk, waiting, in_hand);
    drop(receipt);
    if let Some(longest) = queue.longest_text()
        && text.len() <= longest
    {
        queue.push_text(text);
    }
    writer.take(&mark, &mut queue);
    writer.write(&mark)?;
    Ok(writer.into_disk().into_disk())
}

// Reads a log to its end.
fn read_to_end<D: Disk>(alloc: Global, log: &mut Log, disk: &mut D) -> Result<(), LogFault>
    requires { HasRead (D.tells disk.old) [] log.old.place }
    ensures { OnOk result
        (Holds (D.tells disk.new) (held (D.tells disk.new)) log.new.place.at) }
{
    'texts: loop {
        if !log.next(alloc, disk)? {
            return Ok(());
        }
    }
}

// Adds a text to the log of a disk that has its title.
fn append_titled<B: Origin>(
    alloc: Global,
    disk: MemoryDisk,
    text: &[u8],
) -> Result<MemoryDisk, Fail>
    requires begun { B.begun ≡ Some (clock_of disk) }
    requires front { HasFront 16 (Some (clock_of disk)) }
{
    let mut behind: Behind<B, MemoryDisk> = Behind::new(disk, TITLE_SIZE);
    let mut log = Log::start(alloc, &mut behind)?;
    read_to_end(alloc, &mut log, &mut behind)?;
    let batches = Batches {
        waiting: Batch::new(alloc, 100)?,
        in_hand: Batch::new(alloc, 100)?,
    };
    let opened = Opened::new(alloc)?;
    append_named::<B, Brand>(opened, log.into_journal(), behind, batches, text)
}

#[test]
fn texts_come_behind_others(rt: HostRuntime) -> Result<(), Fail> {
    let mut disk = disk_of(rt.alloc(), b"")?;
    entitle(&mut disk)?;
    let mut disk = append_titled::<Brand>(rt.alloc(), disk, b"ab")?;
    entitle(&mut disk)?;
    let disk = append_titled::<Brand>(rt.alloc(), disk, b"c")?;
    let mut bytes = TITLE.to_vec(rt.alloc())?;
    bytes.extend_from_slice(TWO_TEXTS)?;
    assert_eq!(rt; disk.bytes(), bytes.as_slice());
    Ok(())
}
