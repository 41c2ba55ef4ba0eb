//! A history that is logged on a disk in memory, and made again from it.
use ifdb_db::{ReadLine, ServedRoom};
use ifdb_disk::MemoryDisk;
use ifdb_journal::{Batch, RecordKind};
use ifdb_log::{LogFault, Pieces};
use ifdb_restart::{Restarted, restart};
use ifdb_wire::Out;
use std::alloc::Global;
use std::process::Abort;
use std::test::Fail;

/// The lines of a first run.
static HISTORY: [&str; 8] = [
    "HELLO admin KEY 'admin'",
    "CREATE TAG t",
    "CREATE TABLE note (id INT, said TEXT, PRIMARY KEY (id))",
    "SET LABEL (t)",
    "INSERT INTO note VALUES (7, 'it is noted')",
    "INSERT INTO note VALUES (8, 'gone')",
    "DELETE FROM note WHERE id = 8",
    "BYE",
];

/// What a later session asks.
static QUESTIONS: [&str; 5] = [
    "HELLO admin KEY 'admin'",
    "SELECT id FROM note",
    "CREATE TAG t",
    "SET LABEL (t)",
    "SELECT id, said FROM note",
];

/// What it is told.
const ANSWERS: &str = "OK\nROWS 0 1\nERR 5 Taken\nOK\nROWS 1 2\n7\tit is noted\n";

/// A disk without a log.
fn empty_disk(alloc: Global) -> Result<MemoryDisk, Fail> {
    let disk = MemoryDisk::new(alloc, Vec::new(alloc), 300_000, 100, Vec::new(alloc))?;
    Ok(disk)
}

/// The next session's replies to some lines. What the lines add to the log is put into a batch.
fn ask_all(
    alloc: Global,
    room: &mut ServedRoom,
    lines: &[&str],
    batch: &mut Batch,
) -> Result<String, Fail> {
    room.open_next()?;
    let number = room.sessions();
    let mut out = Out::new(alloc)?;
    let mut told = String::new(alloc);
    for line in lines {
        let mut note = room.note(Some(1000));
        let reply = room.reply_noted(number, ReadLine::new(alloc, line.as_bytes()), &mut note)?;
        out.speak_for(None);
        out.put(&reply);
        told.push_str(std::str::from_utf8(out.bytes())?)?;
        if let Some(text) = note.into_text() {
            add_text(batch, text.items())?;
        }
    }
    Ok(told)
}

/// Adds the pieces of a text.
fn add_text(batch: &mut Batch, text: &[u8]) -> Result<(), Fail> {
    for piece in Pieces::of(text) {
        if !batch.fits(piece.line) {
            return Err(Fail::from("no room"));
        }
        batch.push(RecordKind::Ask, piece.session, piece.line);
    }
    Ok(())
}

#[test]
fn what_was_logged_is_made_again(rt: HostRuntime) -> Result<(), Fail> {
    let alloc = rt.alloc();
    let mut disk = empty_disk(alloc)?;
    let mut batch = Batch::new(alloc, 4096)?;
    let Restarted {
        mut room,
        mut journal,
        ..
    } = restart(alloc, &mut disk)?;
    ask_all(alloc, &mut room, &HISTORY, &mut batch)?;
    journal.append_batch(&mut disk, &batch)?;
    batch.clear();
    let mut again = restart(alloc, &mut disk)?;
    let told = ask_all(alloc, &mut again.room, &QUESTIONS, &mut batch)?;
    assert_eq!(rt; told.as_str(), ANSWERS);
    Ok(())
}

/// Tests that a log of these texts is damaged at a byte.
fn is_damaged(rt: &impl Abort, alloc: Global, texts: &[&[u8]], at: u64) -> Result<(), Fail> {
    let mut disk = empty_disk(alloc)?;
    let mut batch = Batch::new(alloc, 4096)?;
    for text in texts {
        add_text(&mut batch, text)?;
    }
    let Restarted {
        room,
        mut journal,
        ..
    } = restart(alloc, &mut disk)?;
    drop(room);
    journal.append_batch(&mut disk, &batch)?;
    let end = match restart(alloc, &mut disk) {
        Ok(made) => {
            drop(made);
            None
        }
        Err(fault) => Some(fault),
    };
    assert_eq!(rt; end, Some(LogFault::Damaged(at)));
    Ok(())
}

#[test]
fn the_first_text_that_does_not_fit_is_damage(rt: HostRuntime) -> Result<(), Fail> {
    // `CREATE TAG t`, asked by `admin`, and bytes that are no record.
    let made: &[u8] = b"\x01\x00CREATE TAG t\x39\xa2\xb1\xa6";
    let broken: &[u8] = b"ab";
    is_damaged(&rt, rt.alloc(), &[broken], 16)?;
    is_damaged(&rt, rt.alloc(), &[made, broken], 48)?;
    is_damaged(&rt, rt.alloc(), &[made, made], 48)
}
