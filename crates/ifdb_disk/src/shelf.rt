// What disks are taken from by their names.
ghost use Rattle.std.specs.Prelude.{◌≡◌, ◌≤◌, ℕ, length, Option};
ghost use Rattle.ifdb_io.specs.Causes.{HasCause};
ghost use Rattle.ifdb_disk.specs.Shelf.{Closes, Opens, Row};

use crate::Disk;
use ifdb_io::Failed;

/// What disks are opened from by their names.
pub trait Shelf {
    /// The disks that it opens.
    type Disk: Disk;

    /// The disk that it gives next, how often and by what name it was asked last, and the disk that
    /// came back, where it tells them.
    ghost tells: { Self → Option (Row Self.Disk) };

    /// How often a call has failed, up to 2^64 - 1.
    ghost faults: { Self → ℕ };

    /// Opens the disk of a name of 1 to 255 bytes; one that wasn't there is empty.
    fn open(&mut self, name: &str) -> Result<Self::Disk, Failed>
        requires { (1 ≤ length name.now) × (length name.now ≤ 255) }
        ensures opened { Opens name.now (tells self.old) (tells self.new) result }
        ensures cause { HasCause (faults self.old) (faults self.new) result };

    /// Takes a disk back.
    fn close(&mut self, disk: Self::Disk)
        ensures closed { Closes disk (tells self.old) (tells self.new) }
        ensures faults { faults self.new ≡ faults self.old };
}
