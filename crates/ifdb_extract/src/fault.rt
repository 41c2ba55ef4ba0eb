// Why a log isn't written.

use ifdb_io::Failed;
use std::alloc::AllocError;
use std::error::Error;
use std::fmt;

/// Why a log isn't written.
#[derive(Clone, Copy, Debug, PartialEq, Eq)]
pub enum WriteFault {
    /// The disk failed.
    Disk,
    /// There was no memory.
    OutOfMemory,
}

impl fmt::Display for WriteFault {
    fn fmt<W: fmt::Write>(&self, f: &mut fmt::Formatter<W>) -> fmt::Result {
        match self {
            WriteFault::Disk => write!(f, "the disk failed"),
            WriteFault::OutOfMemory => write!(f, "out of memory"),
        }
    }
}

impl Error for WriteFault {}

impl From<Failed> for WriteFault {
    ghost use Rattle.std.specs.Prelude.{◌≡◌};
    ghost use Rattle.ifdb_extract.specs.declared.fault.WriteFault.{WriteFault};

    ghost from_gives = { λ _ fault. fault ≡ WriteFault.Disk };

    fn from(_: Failed) -> Self {
        WriteFault::Disk
    }
}

impl From<AllocError> for WriteFault {
    ghost use Rattle.std.specs.Prelude.{◌≡◌};
    ghost use Rattle.ifdb_extract.specs.declared.fault.WriteFault.{WriteFault};

    ghost from_gives = { λ _ fault. fault ≡ WriteFault.OutOfMemory };

    fn from(_: AllocError) -> Self {
        WriteFault::OutOfMemory
    }
}
