// Why a database isn't compacted.

use ifdb_io::Failed;
use ifdb_log::LogFault;
use std::error::Error;
use std::fmt;

/// Why a database isn't compacted.
#[derive(Clone, Copy, Debug, PartialEq, Eq)]
pub enum CompactFault {
    /// The folder gave no disk, or the new disk didn't get the name.
    Folder,
    /// The database wasn't read.
    Read(LogFault),
    /// The new file wasn't written.
    Write(SpareFault),
}

impl fmt::Display for CompactFault {
    fn fmt<W: fmt::Write>(&self, f: &mut fmt::Formatter<W>) -> fmt::Result {
        match self {
            CompactFault::Folder => write!(f, "the folder failed"),
            CompactFault::Read(fault) => write!(f, "the database: {fault}"),
            CompactFault::Write(fault) => write!(f, "the new file: {fault}"),
        }
    }
}

impl Error for CompactFault {}

impl From<Failed> for CompactFault {
    ghost use Rattle.std.specs.Prelude.{◌≡◌};
    ghost use Rattle.ifdb_swap.specs.declared.fault.CompactFault.{CompactFault};

    ghost from_gives = { λ _ fault. fault ≡ CompactFault.Folder };

    fn from(_: Failed) -> Self {
        CompactFault::Folder
    }
}

/// Why a new file isn't written.
#[derive(Clone, Copy, Debug, PartialEq, Eq)]
pub enum SpareFault {
    /// Another file has its name, which is neither new nor that of a log: it was left as it was.
    NotALog,
    /// The disk failed.
    Disk,
    /// There was no memory.
    OutOfMemory,
}

impl fmt::Display for SpareFault {
    fn fmt<W: fmt::Write>(&self, f: &mut fmt::Formatter<W>) -> fmt::Result {
        match self {
            SpareFault::NotALog => write!(f, "another file has its name"),
            SpareFault::Disk => write!(f, "the disk failed"),
            SpareFault::OutOfMemory => write!(f, "out of memory"),
        }
    }
}

impl Error for SpareFault {}
