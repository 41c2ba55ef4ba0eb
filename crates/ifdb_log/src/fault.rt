// Why a log isn't opened or read.
ghost use Rattle.std.specs.Prelude.{◌≡◌};

use ifdb_io::Failed;
use std::error::Error;
use std::fmt;

/// Why a log isn't opened, or gives no record.
#[derive(Clone, Copy, Debug, PartialEq, Eq)]
pub enum LogFault {
    /// The disk failed.
    Disk,
    /// The file is no log: it's another file, and was left as it was.
    NotALog,
    /// The record whose first gate stands at this byte of the file is none.
    Damaged(u64),
    /// There was no memory.
    OutOfMemory,
}

impl fmt::Display for LogFault {
    fn fmt<W: fmt::Write>(&self, f: &mut fmt::Formatter<W>) -> fmt::Result {
        match self {
            LogFault::Disk => write!(f, "the disk failed"),
            LogFault::NotALog => write!(f, "the file is no log"),
            LogFault::Damaged(at) => write!(f, "the log is damaged at byte {at}"),
            LogFault::OutOfMemory => write!(f, "out of memory"),
        }
    }
}

impl Error for LogFault {}

impl From<Failed> for LogFault {
    ghost use Rattle.ifdb_log.specs.declared.fault.LogFault.{LogFault};

    ghost from_gives = { λ _ fault. fault ≡ LogFault.Disk };

    fn from(_: Failed) -> Self {
        LogFault::Disk
    }
}
