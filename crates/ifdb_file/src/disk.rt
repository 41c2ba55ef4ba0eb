// A file as a disk.
ghost use Rattle.std.specs.Prelude.{◌≡◌};
ghost use Rattle.std.specs.Io.{ReadsAtMost};

use ifdb_disk::Disk;
use ifdb_io::Failed;
use std::fs::File;
use std::io;
use std::io::ErrorKind;
use std::os::unix::fs::FileExt;

// The length that no disk comes to.
const END: u64 = 1 << 62;

// How often a read that a signal interrupts is made.
const TRIES: u32 = 1000;

/// A file as a disk. It tells nothing of what it holds. A sync is the system's for the file and all
/// that is known of it, `fsync`.
#[derive(Drop)]
pub struct FileDisk {
    file: File,
    failed: u64,
}

impl FileDisk {
    /// The disk of an open file.
    pub(crate) fn new(file: File) -> FileDisk
        ensures { result.failed ≡ 0 }
    {
        FileDisk { file, failed: 0 }
    }
}

// Reads once, and again where a signal came.
fn read_at(file: &File, buf: &mut [u8], at: u64) -> io::Result<usize>
    ensures { ReadsAtMost result buf.new }
{
    for _ in 0..TRIES {
        match file.read_at(buf, at) {
            Err(e) if e.kind() == ErrorKind::Interrupted => {}
            done => return done,
        }
    }
    Err(io::Error::from(ErrorKind::Interrupted))
}

impl Disk for FileDisk {
    ghost use Rattle.std.specs.Prelude.{None};

    ghost tells = { λ _. None };

    ghost faults = { λ disk. disk.failed };

    ghost present = { λ _. tt };

    fn len(&mut self) -> Result<u64, Failed> {
        if let Ok(found) = self.file.metadata() {
            let size = found.len();
            if size < END {
                return Ok(size);
            }
        }
        self.failed = self.failed.saturating_add(1);
        Err(Failed)
    }

    fn read(&mut self, at: u64, buf: &mut [u8]) -> Result<usize, Failed> {
        if at < END
            && let Ok(count) = read_at(&self.file, buf, at)
            && (count as u64) < END - at
        {
            return Ok(count);
        }
        self.failed = self.failed.saturating_add(1);
        Err(Failed)
    }

    fn write(&mut self, at: u64, bytes: &[u8]) -> Result<(), Failed> {
        let size = bytes.len() as u64;
        if at < END && size < END - at && self.file.write_all_at(bytes, at).is_ok() {
            return Ok(());
        }
        self.failed = self.failed.saturating_add(1);
        Err(Failed)
    }

    fn sync(&mut self) -> Result<(), Failed> {
        if self.file.sync_all().is_ok() {
            return Ok(());
        }
        self.failed = self.failed.saturating_add(1);
        Err(Failed)
    }
}
