// What the database of a name comes to.
ghost use Rattle.std.specs.Prelude.{◌≤◌, length};
ghost use Rattle.ifdb_swap.specs.Inspections.{Inspects};

use crate::reading::{FileRead, read_log};
use ifdb_folder::Folder;
use ifdb_io::Failed;
use ifdb_log::LogFault;
use std::alloc::Global;
use std::error::Error;
use std::fmt;

/// What a database comes to.
#[derive(Clone, Copy, Debug, PartialEq, Eq)]
pub struct Inspection {
    /// How many public changes its log has.
    pub changes: u64,
    /// How many rows it holds, up to 2^64 - 1.
    pub rows: u64,
}

/// Why it isn't known what a database comes to.
#[derive(Clone, Copy, Debug, PartialEq, Eq)]
pub enum InspectFault {
    /// The folder gave no disk.
    Folder,
    /// The database wasn't read.
    Read(LogFault),
}

impl fmt::Display for InspectFault {
    fn fmt<W: fmt::Write>(&self, f: &mut fmt::Formatter<W>) -> fmt::Result {
        match self {
            InspectFault::Folder => write!(f, "the folder failed"),
            InspectFault::Read(fault) => write!(f, "the database: {fault}"),
        }
    }
}

impl Error for InspectFault {}

impl From<Failed> for InspectFault {
    ghost use Rattle.std.specs.Prelude.{◌≡◌};
    ghost use Rattle.ifdb_swap.specs.declared.inspection.InspectFault.{InspectFault};

    ghost from_gives = { λ _ fault. fault ≡ InspectFault.Folder };

    fn from(_: Failed) -> Self {
        InspectFault::Folder
    }
}

/// Reads the database of a name whole, each entry of which is made again, and so tested. It is taken until then. A new file is told
/// as a database without entries, and gets the title.
///
/// Takes the memory of the rows once, and of the longest record.
///
/// # Errors
/// `Folder` where the disk wasn't given. `Read` where the database wasn't read: `Damaged` and `NotALog` only where the name has no
/// file of a log.
pub fn inspect_in<F: Folder>(
    alloc: Global,
    folder: &mut F,
    name: &str,
) -> Result<Inspection, InspectFault>
where
    F::Disk: Drop,
    requires { (1 ≤ length name.now) × (length name.now ≤ 255) }
    ensures { Inspects F.Disk.tells F.Disk.faults name.now
        (F.tells folder.old) (F.tells folder.new) (F.faults folder.old) (F.faults folder.new) result }
{
    let disk = folder.take(name)?;
    let FileRead { extract, disk } = read_log(alloc, disk);
    folder.give(name, disk);
    match extract {
        Ok(extract) => Ok(Inspection {
            changes: extract.changes(),
            rows: extract.rows(),
        }),
        Err(fault) => Err(InspectFault::Read(fault)),
    }
}
