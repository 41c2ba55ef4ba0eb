// The title of a log.
ghost use Rattle.std.specs.Prelude.{◌≡◌, ◌≤◌, ℕ, List, Err, ⊤, length, take, IfOk, OnOk};
ghost use Rattle.std.specs.Io.{ReadsAtMost};
ghost use Rattle.ifdb_io.specs.Causes.{HasCause};
ghost use Rattle.ifdb_disk.specs.Clock.{Leaves, Now};
ghost use Rattle.ifdb_log.specs.Behind.{HasFront};
ghost use Rattle.ifdb_log.specs.Causes.{HasLogCause};
ghost use Rattle.ifdb_log.specs.Title.{BeginsAs, Entitles, IsLog, IsNew, IsNewOrTitle, IsOldOrMade, IsOther, IsSettled, IsShut, title, title_rest};

use crate::LogFault;
use ifdb_disk::{Disk, write_through};
use ifdb_io::Failed;

/// How many bytes the title of a log has.
pub const TITLE_SIZE: u64 = 16;

// The first byte of the title, and the others.
const FIRST: u8 = b'i';

const REST: [u8; 15] = *b"fdb log 1     \n";

// What a file begins as.
#[derive(Clone, Copy, Debug, PartialEq, Eq)]
pub(crate) enum Heading {
    // At most 1 byte, or at most 16 of which the first is 0.
    New,
    // The title, with any first byte but 0.
    Log,
    // Anything else.
    Other,
}

/// Sees that a disk begins with the title of a log, and that it is all synced. A new disk gets its
/// title as a journal gets a record: behind a closed gate, which is then opened. So a crash leaves
/// a disk that is new, or has its title. New is a disk of at most 1 byte, or of at most 16 bytes of
/// which the first is 0. Takes no memory; one sync, and at most three more on a new disk.
///
/// # Errors
/// `NotALog` where the disk is neither new nor a log: it is left as it was. `Disk` where the disk
/// failed.
pub fn entitle<D: Disk>(disk: &mut D) -> Result<(), LogFault>
    ensures titled { OnOk result (IsSettled IsLog (D.tells disk.new)) }
    ensures kept { OnOk result (Entitles (D.tells disk.old) (D.tells disk.new)) }
    ensures front { OnOk result (HasFront 16 (D.tells disk.new)) }
    ensures other { result ≡ Err LogFault.NotALog → Now (D.tells disk.old) (λ s. IsOther s.bytes) }
    ensures same { result ≡ Err LogFault.NotALog → D.tells disk.new ≡ D.tells disk.old }
    ensures moments { Leaves (D.tells disk.old) (D.tells disk.new)
        (IsOldOrMade (D.tells disk.old)) }
    ensures cause { HasLogCause (D.faults disk.old) (D.faults disk.new) result }
    ensures sound { (at : ℕ) → result ≡ Err (LogFault.Damaged at) → ⊥ }
    ensures memory { result ≡ Err LogFault.OutOfMemory → ⊥ }
{
    let heading = look(disk)?;
    if heading == Heading::Other {
        return Err(LogFault::NotALog);
    }
    disk.sync()?;
    if heading == Heading::New {
        make(disk)?;
    }
    Ok(())
}

// What a disk begins as.
fn look<D: Disk>(disk: &mut D) -> Result<Heading, Failed>
    ensures heading { IfOk result
        (λ heading. Now (D.tells disk.old) (λ s. BeginsAs heading s.bytes)) }
    ensures still { D.tells disk.new ≡ D.tells disk.old }
    ensures cause { HasCause (D.faults disk.old) (D.faults disk.new) result }
{
    let size = disk.len()?;
    let mut front = [0; 16];
    let count = read_front(disk, &mut front)?;
    Ok(heading_of(&front[..count], size))
}

// What bytes begin as, of which these are the first 16, or all.
fn heading_of(front: &[u8], size: u64) -> Heading
    ensures { (bytes : List ℕ) → front.now ≡ take 16 bytes → size ≡ length bytes
        → BeginsAs result bytes }
{
    if size <= 1 {
        return Heading::New;
    }
    let Some((first, rest)) = front.split_first() else {
        return Heading::Other;
    };
    if *first == 0 && size <= 16 {
        return Heading::New;
    }
    if *first != 0 && rest == REST.as_slice() {
        return Heading::Log;
    }
    Heading::Other
}

// Reads the first bytes of a disk, as many as there are and as there is room for.
fn read_front<D: Disk>(disk: &mut D, buf: &mut [u8]) -> Result<usize, Failed>
    ensures bound { ReadsAtMost result buf.new }
    ensures bytes { IfOk result
        (λ n. Now (D.tells disk.old) (λ s. take n buf.new ≡ take (length buf.new) s.bytes)) }
    ensures still { D.tells disk.new ≡ D.tells disk.old }
    ensures cause { HasCause (D.faults disk.old) (D.faults disk.new) result }
{
    let mut count = 0;
    while count < buf.len() {
        let more = disk.read(count as u64, &mut buf[count..])?;
        if more == 0 {
            return Ok(count);
        }
        count += more;
    }
    Ok(count)
}

// Writes the title on a disk that is new.
fn make<D: Disk>(disk: &mut D) -> Result<(), Failed>
    requires { IsSettled IsNew (D.tells disk.old) }
    ensures made { OnOk result (IsSettled (λ bytes. bytes ≡ title) (D.tells disk.new)) }
    ensures moments { Leaves (D.tells disk.old) (D.tells disk.new) IsNewOrTitle }
    ensures cause { HasCause (D.faults disk.old) (D.faults disk.new) result }
{
    shut(disk)?;
    write_through(disk, 1, &REST)?;
    write_through(disk, 0, &[FIRST])?;
    Ok(())
}

// Sees that the first byte of a disk that is new is a closed gate.
fn shut<D: Disk>(disk: &mut D) -> Result<(), Failed>
    requires { IsSettled IsNew (D.tells disk.old) }
    ensures shut { OnOk result (IsSettled IsShut (D.tells disk.new)) }
    ensures moments { Leaves (D.tells disk.old) (D.tells disk.new) IsNewOrTitle }
    ensures cause { HasCause (D.faults disk.old) (D.faults disk.new) result }
{
    if disk.len()? > 1 {
        return Ok(());
    }
    write_through(disk, 0, &[0])?;
    Ok(())
}
