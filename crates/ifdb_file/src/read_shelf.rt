// The files of the system that are there already, to be read alone.
ghost use Rattle.std.specs.Prelude.{◌≡◌, None};

use crate::FileDisk;
use ifdb_disk::Shelf;
use ifdb_io::Failed;
use std::fs::File;
use std::rt::Files;

/// The files of the system that are there already, to be read alone. A name is a path, as the system has it.
///
/// `open` makes no file, and locks none. It fails, and the count of the shelf's faults rises, where the file isn't there or can't be
/// opened for reading. A disk that it gives fails at each write.
#[derive(Drop)]
pub struct ReadShelf<'a, R> {
    rt: &'a R,
    failed: u64,
}

impl<'a, R> ReadShelf<'a, R> {
    /// The files of this system.
    pub fn new(rt: &'a R) -> Self
        ensures { result.failed ≡ 0 }
    {
        ReadShelf { rt, failed: 0 }
    }
}

impl<'a, R: Files<File = File>> Shelf for ReadShelf<'a, R> {
    ghost use Rattle.std.specs.Prelude.{None};

    type Disk = FileDisk;

    ghost tells = { λ _. None };

    ghost faults = { λ shelf. shelf.failed };

    fn open(&mut self, name: &str) -> Result<FileDisk, Failed> {
        match File::open(self.rt, name) {
            Ok(file) => Ok(FileDisk::new(file)),
            Err(_) => {
                self.failed = self.failed.saturating_add(1);
                Err(Failed)
            }
        }
    }

    fn close(&mut self, disk: FileDisk) {
        let _ = disk;
    }
}
