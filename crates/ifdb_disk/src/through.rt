// Writing so that it stays.
ghost use Rattle.std.specs.Prelude.{◌≡◌, ◌≤◌, ◌<◌, ◌+◌, ◌^◌, ℕ, List, length, OnOk};
ghost use Rattle.ifdb_io.specs.Causes.{HasCause};
ghost use Rattle.ifdb_disk.specs.Images.{synced, written};
ghost use Rattle.ifdb_disk.specs.Clock.{Leaves, Now, Stored, Torn, goes};

use crate::Disk;
use ifdb_io::Failed;

/// Writes and syncs, over bytes that are all synced. A crash at any moment leaves them with the
/// range torn: any bytes in it, and any of its length past the old end.
///
/// # Errors
/// `Failed` where the disk failed; then too a crash leaves no more than that.
pub fn write_through<D: Disk>(disk: &mut D, at: u64, bytes: &[u8]) -> Result<(), Failed>
    requires { Now (D.tells disk.old) (λ s. at ≤ length s.bytes) }
    ensures bound { OnOk result (at + length bytes.now < 2 ^ 62) }
    ensures ok { OnOk result
        (D.tells disk.new ≡ goes synced (goes (written at bytes.now) (D.tells disk.old))) }
    ensures moments { (old : List ℕ) → Stored (D.tells disk.old) old
        → Leaves (D.tells disk.old) (D.tells disk.new) (Torn old at (length bytes.now)) }
    ensures cause { HasCause (D.faults disk.old) (D.faults disk.new) result }
{
    disk.write(at, bytes)?;
    disk.sync()?;
    Ok(())
}
