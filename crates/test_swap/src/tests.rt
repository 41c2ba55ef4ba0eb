//! A database's file in a folder in memory, compacted in its place or looked through, and what is there when a call fails.
ghost use Rattle.std.specs.Prelude.{◌≤◌, length};

use ifdb_db::{ReadLine, ServedRoom};
use ifdb_disk::MemoryDisk;
use ifdb_folder::{Folder, MemoryFolder, Name, Named};
use ifdb_journal::{Batch, RecordKind};
use ifdb_log::{LogFault, Pieces};
use ifdb_restart::{Restarted, restart};
use ifdb_swap::{CompactFault, InspectFault, Inspection, SpareFault, When, compact_in, inspect_in};
use ifdb_wire::Out;
use std::alloc::Global;
use std::test::Fail;

/// The name of the database, and that of the new file.
const DATABASE: &str = "F";

const SPARE: &str = "F.new";

const TITLE: &[u8; 16] = b"ifdb log 1     \n";

/// The lines of a first run.
static HISTORY: [&str; 8] = [
    "HELLO admin KEY 'admin'",
    "CREATE TAG t",
    "CREATE TABLE note (id INT, said TEXT, PRIMARY KEY (id))",
    "INSERT INTO note VALUES (1, 'a first text')",
    "UPDATE note SET said = 'a second text' WHERE id = 1",
    "UPDATE note SET said = 'a third text' WHERE id = 1",
    "SET LABEL (t)",
    "INSERT INTO note VALUES (2, 'apart')",
];

/// What a later session asks.
static QUESTIONS: [&str; 4] = [
    "HELLO admin KEY 'admin'",
    "SELECT id, said FROM note",
    "SET LABEL (t)",
    "SELECT id, said FROM note",
];

/// What it is told.
const ANSWERS: &str = "OK\nROWS 1 2\n1\ta third text\nOK\nROWS 2 2\n1\ta third text\n2\tapart\n";

/// A disk of these bytes, of which some calls fail.
fn disk_of(alloc: Global, bytes: Vec<u8>, fails: Vec<u64>) -> Result<MemoryDisk, Fail> {
    let disk = MemoryDisk::new(alloc, bytes, 300_000, 100, fails)?;
    Ok(disk)
}

/// The next session's replies to some lines. What the lines add to the log is put into a batch.
fn ask_all(
    alloc: Global,
    room: &mut ServedRoom,
    lines: &[&str],
    batch: &mut Batch,
) -> Result<String, Fail> {
    room.open_next()?;
    let number = room.sessions();
    let mut out = Out::new(alloc)?;
    let mut told = String::new(alloc);
    for line in lines {
        let mut note = room.note(Some(1000));
        let reply = room.reply_noted(number, ReadLine::new(alloc, line.as_bytes()), &mut note)?;
        out.speak_for(None);
        out.put(&reply);
        told.push_str(std::str::from_utf8(out.bytes())?)?;
        if let Some(text) = note.into_text() {
            add_text(batch, text.items())?;
        }
    }
    Ok(told)
}

/// Adds the pieces of a text.
fn add_text(batch: &mut Batch, text: &[u8]) -> Result<(), Fail> {
    for piece in Pieces::of(text) {
        if !batch.fits(piece.line) {
            return Err(Fail::from("no room"));
        }
        batch.push(RecordKind::Ask, piece.session, piece.line);
    }
    Ok(())
}

/// The bytes of the file of the history.
fn file(alloc: Global) -> Result<Vec<u8>, Fail> {
    let mut disk = disk_of(alloc, Vec::new(alloc), Vec::new(alloc))?;
    let mut batch = Batch::new(alloc, 4096)?;
    let Restarted {
        mut room,
        mut journal,
        ..
    } = restart(alloc, &mut disk)?;
    ask_all(alloc, &mut room, &HISTORY, &mut batch)?;
    journal.append_batch(&mut disk, &batch)?;
    let mut bytes = TITLE.as_slice().to_vec(alloc)?;
    bytes.extend_from_slice(disk.bytes())?;
    Ok(bytes)
}

/// What a later session is told over a file.
fn told_by(alloc: Global, bytes: &[u8]) -> Result<String, Fail> {
    if bytes.len() < 16 || &bytes[..16] != TITLE.as_slice() {
        return Err(Fail::from("no title"));
    }
    let mut disk = disk_of(alloc, bytes[16..].to_vec(alloc)?, Vec::new(alloc))?;
    let mut batch = Batch::new(alloc, 4096)?;
    let mut again = restart(alloc, &mut disk)?;
    ask_all(alloc, &mut again.room, &QUESTIONS, &mut batch)
}

/// A disk under a name.
fn named(name: &str, disk: MemoryDisk) -> Named<MemoryDisk>
    requires { length name.now ≤ 255 }
{
    Named {
        name: Name::of(name),
        disk: Some(disk),
    }
}

/// A folder with a database of these bytes, and a new file of which some calls fail.
fn folder_of(
    alloc: Global,
    bytes: Vec<u8>,
    disk_fails: Vec<u64>,
    fails: Vec<u64>,
) -> Result<MemoryFolder, Fail> {
    let database = disk_of(alloc, bytes, Vec::new(alloc))?;
    let spare = disk_of(alloc, Vec::new(alloc), disk_fails)?;
    Ok(MemoryFolder::new(named(DATABASE, database), named(SPARE, spare), fails))
}

#[test]
fn the_compacted_file_has_the_name(rt: HostRuntime) -> Result<(), Fail> {
    let alloc = rt.alloc();
    let bytes = file(alloc)?;
    let size = bytes.len();
    let mut folder = folder_of(alloc, bytes, Vec::new(alloc), Vec::new(alloc))?;
    let done = compact_in(alloc, &mut folder, DATABASE, SPARE, When::Always);
    assert_eq!(rt; done, Ok(true));
    let disk = folder.take(DATABASE)?;
    let told = told_by(alloc, disk.bytes())?;
    assert_eq!(rt; told.as_str(), ANSWERS);
    assert!(rt; disk.bytes().len() < size);
    assert!(rt; folder.take(SPARE).is_err());
    Ok(())
}

#[test]
fn a_small_file_stays(rt: HostRuntime) -> Result<(), Fail> {
    let alloc = rt.alloc();
    let bytes = file(alloc)?;
    let mut folder = folder_of(alloc, bytes, Vec::new(alloc), Vec::new(alloc))?;
    let done = compact_in(alloc, &mut folder, DATABASE, SPARE, When::IfWorth);
    assert_eq!(rt; done, Ok(false));
    let disk = folder.take(DATABASE)?;
    let told = told_by(alloc, disk.bytes())?;
    assert_eq!(rt; told.as_str(), ANSWERS);
    // Nothing was written to the new file.
    let spare = folder.take(SPARE)?;
    assert!(rt; spare.bytes().is_empty());
    Ok(())
}

/// Compacts to a disk of which a call fails, and tells how that ended; the database answers as before.
fn ended(
    alloc: Global,
    disk_fails: Vec<u64>,
    fails: Vec<u64>,
) -> Result<Result<bool, CompactFault>, Fail> {
    let mut folder = folder_of(alloc, file(alloc)?, disk_fails, fails)?;
    let end = compact_in(alloc, &mut folder, DATABASE, SPARE, When::Always);
    let disk = folder.take(DATABASE)?;
    let told = told_by(alloc, disk.bytes())?;
    if told.as_str() != ANSWERS {
        return Err(Fail::from("another database"));
    }
    Ok(end)
}

#[test]
fn each_call_of_the_new_disk_fails(rt: HostRuntime) -> Result<(), Fail> {
    let alloc = rt.alloc();
    let fault = Err(CompactFault::Write(SpareFault::Disk));
    // Seven calls make the title, and nine write the log.
    for call in 0..16 {
        let end = ended(alloc, Vec::from_array(alloc, [call])?, Vec::new(alloc))?;
        assert_eq!(rt; end, fault);
    }
    Ok(())
}

#[test]
fn each_call_of_the_folder_fails(rt: HostRuntime) -> Result<(), Fail> {
    let alloc = rt.alloc();
    for call in 0..3 {
        let end = ended(alloc, Vec::new(alloc), Vec::from_array(alloc, [call])?)?;
        assert_eq!(rt; end, Err(CompactFault::Folder));
    }
    Ok(())
}

#[test]
fn other_files_stay(rt: HostRuntime) -> Result<(), Fail> {
    let alloc = rt.alloc();
    let text = Vec::from_slice(alloc, b"just a file\n")?;
    let mut folder = folder_of(alloc, text, Vec::new(alloc), Vec::new(alloc))?;
    let end = compact_in(alloc, &mut folder, DATABASE, SPARE, When::Always);
    assert_eq!(rt; end, Err(CompactFault::Read(LogFault::NotALog)));
    let disk = folder.take(DATABASE)?;
    assert_eq!(rt; disk.bytes(), b"just a file\n".as_slice());
    Ok(())
}

/// A folder in which another file has the new one's name.
fn folder_with_another(alloc: Global) -> Result<MemoryFolder, Fail> {
    let database = disk_of(alloc, file(alloc)?, Vec::new(alloc))?;
    let text = Vec::from_slice(alloc, b"just a file\n")?;
    let spare = disk_of(alloc, text, Vec::new(alloc))?;
    Ok(MemoryFolder::new(
        named(DATABASE, database),
        named(SPARE, spare),
        Vec::new(alloc),
    ))
}

#[test]
fn another_file_of_the_new_name_stays(rt: HostRuntime) -> Result<(), Fail> {
    let alloc = rt.alloc();
    let mut folder = folder_with_another(alloc)?;
    let end = compact_in(alloc, &mut folder, DATABASE, SPARE, When::Always);
    assert_eq!(rt; end, Err(CompactFault::Write(SpareFault::NotALog)));
    let spare = folder.take(SPARE)?;
    assert_eq!(rt; spare.bytes(), b"just a file\n".as_slice());
    let disk = folder.take(DATABASE)?;
    let told = told_by(alloc, disk.bytes())?;
    assert_eq!(rt; told.as_str(), ANSWERS);
    Ok(())
}

#[test]
fn a_damaged_file_stays(rt: HostRuntime) -> Result<(), Fail> {
    let alloc = rt.alloc();
    let mut bytes = file(alloc)?;
    if let Some(byte) = bytes.get_mut(40) {
        *byte ^= 1;
    }
    let size = bytes.len();
    let mut folder = folder_of(alloc, bytes, Vec::new(alloc), Vec::new(alloc))?;
    let end = compact_in(alloc, &mut folder, DATABASE, SPARE, When::Always);
    assert!(rt; matches!(end, Err(CompactFault::Read(LogFault::Damaged(_)))));
    let disk = folder.take(DATABASE)?;
    assert_eq!(rt; disk.bytes().len(), size);
    Ok(())
}

#[test]
fn a_database_is_looked_through(rt: HostRuntime) -> Result<(), Fail> {
    let alloc = rt.alloc();
    let bytes = file(alloc)?;
    let size = bytes.len();
    let mut folder = folder_of(alloc, bytes, Vec::new(alloc), Vec::new(alloc))?;
    // A tag and a table were made.
    let found = Inspection {
        changes: 2,
        rows: 2,
    };
    assert_eq!(rt; inspect_in(alloc, &mut folder, DATABASE), Ok(found));
    assert_eq!(rt;
        inspect_in(alloc, &mut folder, SPARE),
        Ok(Inspection {
            changes: 0,
            rows: 0
        })
    );
    let disk = folder.take(DATABASE)?;
    assert_eq!(rt; disk.bytes().len(), size);
    // Nobody else can have it meanwhile.
    assert_eq!(rt;
        inspect_in(alloc, &mut folder, DATABASE),
        Err(InspectFault::Folder)
    );
    Ok(())
}
