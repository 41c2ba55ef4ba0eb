// What lies behind the first bytes of a disk, as a disk of its own.
ghost use Rattle.std.specs.Prelude.{◌≡◌, ◌<◌, ◌≤◌, ◌+◌, ◌^◌, length, IfOk, OnOk, OnErr};
ghost use Rattle.std.specs.Io.{ReadsAtMost};
ghost use Rattle.ifdb_io.specs.Causes.{HasCause};
ghost use Rattle.ifdb_disk.specs.Images.{Reads, synced, written};
ghost use Rattle.ifdb_disk.specs.Clock.{MayHaveWritten, Now, goes};
ghost use Rattle.ifdb_log.specs.Behind.{Fronted, HasFront, behind};
ghost use Rattle.ifdb_log.specs.Fronted.{fronted_prop};

use crate::Origin;
use ifdb_disk::Disk;
use ifdb_io::Failed;
use std::marker::PhantomData;

/// What lies behind the first bytes of a disk: a disk of its own, whose place 0 is the byte behind
/// them. Since it was made, these bytes have stood at every moment, synced. Its faults are those of
/// the disk that it lies on.
#[derive(Drop)]
pub struct Behind<B: Origin, D: Disk> {
    pub(crate) disk: D,
    // How many bytes stand in front.
    pub(crate) size: u64,
    origin: PhantomData<B>,
    ghost fronted: { Fronted size B.begun (D.tells disk) } by { fronted_prop size B.begun (D.tells disk) },
}

impl<B: Origin, D: Disk> Behind<B, D> {
    /// What lies behind the first `size` bytes of a disk that is all synced.
    pub fn new(disk: D, size: u64) -> Behind<B, D>
        requires begun { B.begun ≡ D.tells disk }
        requires front { HasFront size (D.tells disk) }
        ensures disk { result.disk ≡ disk }
        ensures size { result.size ≡ size }
    {
        Behind {
            disk,
            size,
            origin: PhantomData,
        }
    }

    /// The disk that it lies on.
    pub fn into_disk(self) -> D
        ensures disk { result ≡ self.disk }
        ensures fronted { Fronted self.size B.begun (D.tells result) }
    {
        self.disk
    }
}

impl<B: Origin, D: Disk> Disk for Behind<B, D> {
    ghost use Rattle.ifdb_log.specs.Behind.{behind};
    ghost use Rattle.ifdb_log.specs.Fronted.{present_behind};

    ghost tells = { λ b. behind b.size (D.tells b.disk) };

    ghost faults = { λ b. D.faults b.disk };

    ghost present = { λ b. present_behind b.size (D.tells b.disk) (D.present b.disk) };

    fn len(&mut self) -> Result<u64, Failed> {
        let size = self.disk.len()?;
        Ok(size.saturating_sub(self.size))
    }

    fn read(&mut self, at: u64, buf: &mut [u8]) -> Result<usize, Failed> {
        // No read gives bytes at the last place.
        self.disk.read(at.saturating_add(self.size), buf)
    }

    fn write(&mut self, at: u64, bytes: &[u8]) -> Result<(), Failed> {
        let Some(place) = at.checked_add(self.size) else {
            // No disk that tells what it holds is so long, and a write there fails.
            self.disk.len()?;
            return self.disk.write(u64::MAX, bytes);
        };
        self.disk.write(place, bytes)
    }

    fn sync(&mut self) -> Result<(), Failed> {
        self.disk.sync()
    }
}
