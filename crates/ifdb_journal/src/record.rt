// The records of a journal.
ghost use Rattle.std.specs.Prelude.{◌≡◌, length, IfOk};
ghost use Rattle.ifdb_journal.specs.Kinds.{is_fine, kind_byte};

use ifdb_io::OutOfMemory;
use std::alloc::Global;
use std::error::Error;
use std::fmt;
use std::marker::Model;

/// Some bytes. Contracts see a list.
#[derive(Drop)]
pub struct Bytes {
    bytes: Vec<u8>,
}

impl Model for Bytes {
    ghost use Rattle.std.specs.Prelude.{ℕ, List};

    ghost Value = { List ℕ };

    ghost view = { λ b. b.bytes.items };
}

impl Bytes {
    /// The same bytes.
    pub fn copy(alloc: Global, bytes: &[u8]) -> Result<Bytes, OutOfMemory>
        ensures { IfOk result (λ b. b ≡ bytes.now) }
    {
        Ok(Bytes {
            bytes: bytes.to_vec(alloc)?,
        })
    }

    /// All of them.
    pub fn as_slice(&self) -> &[u8]
        ensures { result.now ≡ self.now }
    {
        &self.bytes
    }
}

/// A record: what it is of, by which session, and the line that was asked.
#[derive(Drop)]
pub struct Record {
    pub kind: RecordKind,
    pub session: u64,
    pub line: Bytes,
}

/// What a record is of.
#[derive(Clone, Copy, Debug, PartialEq, Eq)]
pub enum RecordKind {
    /// A session was opened.
    Open,
    /// A session asked a line.
    Ask,
    /// All sessions left.
    Restart,
}

impl RecordKind {
    /// Whether a record of this kind may have this session and line: an Ask any session and a line
    /// of at most 65,535 bytes, the others session 0 and no line.
    pub fn allows(self, session: u64, line: &[u8]) -> bool
        ensures { result ≡ is_fine (kind_byte self) session (length line.now) }
    {
        match self {
            RecordKind::Ask => line.len() <= 65_535,
            RecordKind::Open | RecordKind::Restart => session == 0 && line.is_empty(),
        }
    }
}

/// Why a journal gives or takes no record.
#[derive(Clone, Copy, Debug, PartialEq, Eq)]
pub enum JournalFault {
    /// The disk failed.
    Disk,
    /// An open gate at this place stands before something that is no record.
    Damaged(u64),
    /// There was no memory.
    OutOfMemory,
}

impl fmt::Display for JournalFault {
    fn fmt<W: fmt::Write>(&self, f: &mut fmt::Formatter<W>) -> fmt::Result {
        match self {
            JournalFault::Disk => write!(f, "the disk failed"),
            JournalFault::Damaged(at) => write!(f, "the journal is damaged at byte {at}"),
            JournalFault::OutOfMemory => write!(f, "out of memory"),
        }
    }
}

impl Error for JournalFault {}
