// A file that is written, synced and opened again.
use crate::shelf::has_name;
use crate::{FileDisk, FileShelf, ReadShelf};
use ifdb_disk::{Disk, Shelf};
use ifdb_folder::Folder;
use ifdb_io::Failed;
use std::fs;
use std::fs::File;
use std::os::unix::fs::PermissionsExt;
use std::test::Fail;

// What a disk holds, up to 16 bytes, read behind its length.
fn holds(disk: &mut FileDisk, want: &[u8]) -> Result<bool, Failed> {
    let mut buf = [0; 16];
    let count = disk.read(0, &mut buf)?;
    let size = disk.len()?;
    Ok(count <= 16 && &buf[..count] == want && size == want.len() as u64)
}

#[test]
fn written_and_opened_again(rt: HostRuntime) -> Result<(), Fail> {
    let mut shelf = FileShelf::new(&rt);
    let mut disk = shelf.open("journal")?;
    let mode = fs::metadata(&rt, "journal")?.permissions().mode();
    // Nobody but the owner may read what it holds.
    assert_eq!(rt; mode & 0o777, 0o600);
    assert!(rt; holds(&mut disk, b"")?);
    disk.write(0, b"abcdef")?;
    disk.sync()?;
    disk.write(2, b"XY")?;
    disk.write(6, b"gh")?;
    disk.sync()?;
    assert!(rt; holds(&mut disk, b"abXYefgh")?);
    assert_eq!(rt; disk.write((1 << 62) - 1, b"z"), Err(Failed));
    // Another one that opens it is refused.
    assert!(rt; shelf.open("journal").is_err());
    shelf.close(disk);
    let mut again = shelf.open("./journal")?;
    assert!(rt; holds(&mut again, b"abXYefgh")?);
    shelf.close(again);
    assert!(rt; shelf.open("nowhere/journal").is_err());
    fs::remove_file(&rt, "journal")?;
    Ok(())
}

// What is there is read, what isn't is not made, and nothing is written.
#[test]
fn read_alone(rt: HostRuntime) -> Result<(), Fail> {
    let mut shelf = ReadShelf::new(&rt);
    assert!(rt; shelf.open("secret").is_err());
    assert!(rt; fs::metadata(&rt, "secret").is_err());
    let mut files = FileShelf::new(&rt);
    let mut disk = files.open("secret")?;
    disk.write(0, b"abc")?;
    // That another has the file locked keeps nobody from reading it.
    let mut read = shelf.open("secret")?;
    assert!(rt; holds(&mut read, b"abc")?);
    assert_eq!(rt; read.write(0, b"z"), Err(Failed));
    shelf.close(read);
    files.close(disk);
    fs::remove_file(&rt, "secret")?;
    Ok(())
}

#[test]
fn one_takes_the_place_of_another(rt: HostRuntime) -> Result<(), Fail> {
    let mut folder = FileShelf::new(&rt);
    assert!(rt; !folder.has("database")?);
    let mut old = folder.take("database")?;
    assert!(rt; folder.has("database")?);
    old.write(0, b"old")?;
    let mut new = folder.take("database.new")?;
    new.write(0, b"new and longer")?;
    new.sync()?;
    folder.replace("database.new", new, "database", old)?;
    let mut again = folder.take("database")?;
    assert!(rt; holds(&mut again, b"new and longer")?);
    folder.give("database", again);
    assert!(rt; fs::metadata(&rt, "database.new").is_err());
    fs::remove_file(&rt, "database")?;
    Ok(())
}

#[test]
fn one_that_lost_its_name(rt: HostRuntime) -> Result<(), Fail> {
    let first = File::create(&rt, "first")?;
    let second = File::create(&rt, "second")?;
    assert!(rt; has_name(&rt, &first, "first")?);
    fs::rename(&rt, "second", "first")?;
    // Whoever locks it now must not take it for the file of that name.
    assert!(rt; !has_name(&rt, &first, "first")?);
    assert!(rt; has_name(&rt, &second, "first")?);
    fs::remove_file(&rt, "first")?;
    Ok(())
}
