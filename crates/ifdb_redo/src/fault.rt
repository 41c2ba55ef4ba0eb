// Why bytes are not read.
use std::alloc::{AllocError, AllocFailed};
use std::error::Error;
use std::fmt;

/// Why bytes are not read.
#[derive(Clone, Copy, Debug, PartialEq, Eq)]
pub enum ReadFault {
    /// They spell nothing that is written.
    Broken,
    /// An allocation was refused.
    OutOfMemory,
}

impl fmt::Display for ReadFault {
    fn fmt<W: fmt::Write>(&self, f: &mut fmt::Formatter<W>) -> fmt::Result {
        match self {
            ReadFault::Broken => write!(f, "the bytes are no record"),
            ReadFault::OutOfMemory => write!(f, "out of memory"),
        }
    }
}

impl Error for ReadFault {}

impl From<AllocError> for ReadFault {
    ghost use Rattle.std.specs.Prelude.{◌≡◌};
    ghost use Rattle.ifdb_redo.specs.declared.fault.ReadFault.{ReadFault};

    ghost from_gives = { λ _ fault. fault ≡ ReadFault.OutOfMemory };

    fn from(_: AllocError) -> Self {
        ReadFault::OutOfMemory
    }
}

impl<T: Drop> From<AllocFailed<T>> for ReadFault {
    ghost use Rattle.std.specs.Prelude.{◌≡◌};
    ghost use Rattle.ifdb_redo.specs.declared.fault.ReadFault.{ReadFault};

    ghost from_gives = { λ _ fault. fault ≡ ReadFault.OutOfMemory };

    fn from(_: AllocFailed<T>) -> Self {
        ReadFault::OutOfMemory
    }
}
