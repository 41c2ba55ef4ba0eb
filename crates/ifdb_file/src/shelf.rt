// The files of the system, by their paths.
ghost use Rattle.std.specs.Prelude.{◌≡◌, None};
ghost use Rattle.ifdb_io.specs.Causes.{HasCause};

use crate::FileDisk;
use ifdb_disk::Shelf;
use ifdb_folder::Folder;
use ifdb_io::Failed;
use std::fs::File;
use std::io::ErrorKind;
use std::os::unix::fs::{MetadataExt, OpenOptionsExt};
use std::path::Path;
use std::rt::Files;
use std::{fs, io};

// Who may read and write a file that is made: its owner, and nobody else.
const OWNER_ALONE: u32 = 0o600;

/// The files of the system. A name is a path, as the system has it.
///
/// `open` makes the file where there is none, for its owner alone (mode 0600), and syncs the folder, so that its entry is there after
/// a crash. It locks the file against each other program that opens it so, up to `close` or the end
/// of the program. It fails, and the count of the shelf's faults rises, where one of these fails: the
/// file or its folder can't be opened, another program has the lock, or another file has taken the name
/// before the lock was had.
#[derive(Drop)]
pub struct FileShelf<'a, R> {
    rt: &'a R,
    failed: u64,
}

impl<'a, R> FileShelf<'a, R> {
    /// The files of this system.
    pub fn new(rt: &'a R) -> Self
        ensures { result.failed ≡ 0 }
    {
        FileShelf { rt, failed: 0 }
    }

    // What the system gave, with its failure counted.
    fn counted<T>(&mut self, given: io::Result<T>) -> Result<T, Failed>
        ensures { HasCause self.old.failed self.new.failed result }
    {
        match given {
            Ok(found) => Ok(found),
            Err(_) => {
                self.failed = self.failed.saturating_add(1);
                Err(Failed)
            }
        }
    }
}

// Opens a file that no other program has, and that is there after a crash.
fn open_alone<R: Files<File = File>>(rt: &R, name: &str) -> io::Result<File> {
    let file = File::options()
        .read(true)
        .write(true)
        .create(true)
        .mode(OWNER_ALONE)
        .open(rt, name)?;
    if file.try_lock().is_err() || !has_name(rt, &file, name)? {
        return Err(io::Error::from(ErrorKind::WouldBlock));
    }
    folder_of(rt, name)?.sync_all()?;
    Ok(file)
}

// Whether a file still has the name: another one may have taken its place since it was opened.
pub(crate) fn has_name<R: Files<File = File>>(rt: &R, file: &File, name: &str) -> io::Result<bool> {
    let opened = file.metadata()?;
    let named = fs::metadata(rt, name)?;
    Ok(opened.dev() == named.dev() && opened.ino() == named.ino())
}

// The folder that a path's entry stands in.
fn folder_of<R: Files<File = File>>(rt: &R, name: &str) -> io::Result<File> {
    match Path::new(name).parent() {
        Some(folder) if !folder.as_str().is_empty() => File::open(rt, folder),
        _ => File::open(rt, "."),
    }
}

impl<'a, R: Files<File = File>> Shelf for FileShelf<'a, R> {
    ghost use Rattle.std.specs.Prelude.{None};

    type Disk = FileDisk;

    ghost tells = { λ _. None };

    ghost faults = { λ shelf. shelf.failed };

    fn open(&mut self, name: &str) -> Result<FileDisk, Failed> {
        let file = self.counted(open_alone(self.rt, name))?;
        Ok(FileDisk::new(file))
    }

    fn close(&mut self, disk: FileDisk) {
        let _ = disk;
    }
}

// Gives a file the name of another, in one step, so that it has that name after a crash.
fn rename_for_good<R: Files<File = File>>(rt: &R, from: &str, to: &str) -> io::Result<()> {
    fs::rename(rt, from, to)?;
    folder_of(rt, to)?.sync_all()
}

impl<'a, R: Files<File = File>> Folder for FileShelf<'a, R> {
    ghost use Rattle.std.specs.Prelude.{None};

    type Disk = FileDisk;

    ghost tells = { λ _. None };

    ghost faults = { λ shelf. shelf.failed };

    fn has(&mut self, name: &str) -> Result<bool, Failed> {
        self.counted(fs::exists(self.rt, name))
    }

    fn take(&mut self, name: &str) -> Result<FileDisk, Failed> {
        Shelf::open(self, name)
    }

    fn give(&mut self, name: &str, disk: FileDisk) {
        let _ = name;
        let _ = disk;
    }

    // Both files are locked until the new one has the name.
    fn replace(
        &mut self,
        new: &str,
        disk: FileDisk,
        old: &str,
        gone: FileDisk,
    ) -> Result<(), Failed> {
        let renamed = rename_for_good(self.rt, new, old);
        drop(disk);
        drop(gone);
        self.counted(renamed)
    }
}
