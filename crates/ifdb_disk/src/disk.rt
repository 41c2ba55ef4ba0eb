// A disk: what it means to a proof, and what its calls keep.
ghost use Rattle.std.specs.Prelude.{◌≡◌, ◌<◌, ◌≤◌, ◌^◌, ◌+◌, ℕ, List, length, IfOk, OnOk, OnErr, Option};
ghost use Rattle.std.specs.Io.{ReadsAtMost};
ghost use Rattle.ifdb_io.specs.Causes.{HasCause};
ghost use Rattle.ifdb_disk.specs.Images.{IsImage, Reads, synced, written};
ghost use Rattle.ifdb_disk.specs.Clock.{Clock, MayHaveWritten, Now, goes};

use ifdb_io::Failed;

/// One file, which keeps what is written to it. A crash at any moment leaves one of its images.
pub trait Disk {
    /// What it shows now and at each moment before, where the disk tells it.
    ghost tells: { Self → Option Clock };

    /// How often a call has failed, up to 2^64 - 1.
    ghost faults: { Self → ℕ };

    /// What a read gives is one of the images.
    ghost present: { (disk : Self) → Now (tells disk) (λ s. IsImage s s.bytes) };

    /// The number of bytes.
    fn len(&mut self) -> Result<u64, Failed>
        ensures bound { IfOk result (λ n. n < 2 ^ 62) }
        ensures length { IfOk result (λ n. Now (tells self.old) (λ s. n ≡ length s.bytes)) }
        ensures still { tells self.new ≡ tells self.old }
        ensures cause { HasCause (faults self.old) (faults self.new) result };

    /// Gives some of the bytes from `at` on: at most as many as the buffer has room for, and at
    /// least one where there is one and there is room.
    fn read(&mut self, at: u64, buf: &mut [u8]) -> Result<usize, Failed>
        ensures bound { ReadsAtMost result buf.new }
        ensures end { IfOk result (λ n. 0 < n → at + n < 2 ^ 62) }
        ensures bytes { IfOk result (λ n. Now (tells self.old) (Reads at n buf.new)) }
        ensures still { tells self.new ≡ tells self.old }
        ensures cause { HasCause (faults self.old) (faults self.new) result };

    /// Writes over what is there, and past the end. Lengths stay below 2^62: a write past that
    /// fails. After `Failed` the range may hold any bytes.
    fn write(&mut self, at: u64, bytes: &[u8]) -> Result<(), Failed>
        requires { Now (tells self.old) (λ s. at ≤ length s.bytes) }
        ensures bound { OnOk result (at + length bytes.now < 2 ^ 62) }
        ensures ok { OnOk result (tells self.new ≡ goes (written at bytes.now) (tells self.old)) }
        ensures err { OnErr result
            (MayHaveWritten at (length bytes.now) (tells self.old) (tells self.new)) }
        ensures cause { HasCause (faults self.old) (faults self.new) result };

    /// After it, a crash leaves what a read gives. `Failed` changes nothing of what a crash may
    /// leave.
    fn sync(&mut self) -> Result<(), Failed>
        ensures ok { OnOk result (tells self.new ≡ goes synced (tells self.old)) }
        ensures err { OnErr result (tells self.new ≡ tells self.old) }
        ensures cause { HasCause (faults self.old) (faults self.new) result };
}
