// Refusals.
ghost use Rattle.std.specs.Prelude.{◌≡◌, ◌≤◌, length};
ghost use Rattle.ifdb_wire.specs.Fault.{number_of, name_of};

use std::alloc::AllocError;
use std::error::Error;
use std::fmt;

/// Why a request was refused. A refused request changes nothing, but for a refused COMMIT, which ends its transaction.
#[derive(Clone, Copy, Debug, PartialEq, Eq)]
pub enum Fault {
    /// The line is no request: the place, in bytes from 0, of the first mistake.
    Syntax(usize),
    /// The session has no principal yet.
    NotHello,
    /// The session has a principal already.
    HelloTwice,
    /// There is no such principal, or its key is another one.
    BadKey,
    /// The new name stands already, or a column is named twice where it may be named once.
    Taken,
    /// A name stands for nothing of the kind that is wanted.
    UnknownName,
    /// The session's label isn't empty.
    LabelNotEmpty,
    /// The principal doesn't hold a tag that the request needs.
    NoAuthority,
    /// The session has a transaction.
    InTransaction,
    /// The session has no transaction.
    NoTransaction,
    /// Kinds, numbers of things or forms don't fit.
    TypeMismatch,
    /// A row that would be written has another label than the session.
    WriteLabel,
    /// A row that the session sees has this key.
    DuplicateKey,
    /// No row may be referred to.
    NoReference,
    /// A number has more than 64 bits.
    OutOfRange,
    /// The session's label doesn't flow to that of a written row.
    CommitLabel,
    /// Another transaction wrote the same key.
    Conflict,
    /// A row that is referred to is gone.
    BrokenReference,
    /// A row that would be deleted is referred to.
    StillReferenced,
    /// There was no memory for the step, which changed nothing.
    OutOfMemory,
    /// A line has more than 65,535 bytes.
    TooLong,
    /// A request passes a limit.
    Limit,
    /// The principal has made no such grant.
    NotGranted,
    /// A column of the primary key is assigned.
    KeyColumn,
    /// A tag that another one is to be made in is plain.
    NotCompound,
    /// A view stands where a table is wanted.
    NotATable,
    /// The owner of a view doesn't hold one of its tags.
    ViewAuthority,
    /// A script's line is of a session that isn't open.
    NoSession,
    /// A label doesn't flow to the session's ceiling.
    OverClearance,
    /// A closure's label doesn't flow to that of its caller.
    ClosureLabel,
}

impl Fault {
    /// The number of the fault in replies, from 1 to 30.
    pub fn number(&self) -> u8
        ensures { result ≡ number_of self.now }
    {
        self.entry().0
    }

    /// The name of the fault in replies.
    pub fn name(&self) -> &'static str
        ensures { result.now ≡ name_of self.now }
    {
        self.entry().1
    }

    // The number and the name: the one table of them.
    pub(crate) fn entry(&self) -> (u8, &'static str)
        ensures number { result.0 ≡ number_of self.now }
        ensures name { result.1.now ≡ name_of self.now }
        ensures short { length result.1.now ≤ 32 }
    {
        match self {
            Fault::Syntax(_) => (1, "Syntax"),
            Fault::NotHello => (2, "NotHello"),
            Fault::HelloTwice => (3, "HelloTwice"),
            Fault::BadKey => (4, "BadKey"),
            Fault::Taken => (5, "Taken"),
            Fault::UnknownName => (6, "UnknownName"),
            Fault::LabelNotEmpty => (7, "LabelNotEmpty"),
            Fault::NoAuthority => (8, "NoAuthority"),
            Fault::InTransaction => (9, "InTransaction"),
            Fault::NoTransaction => (10, "NoTransaction"),
            Fault::TypeMismatch => (11, "TypeMismatch"),
            Fault::WriteLabel => (12, "WriteLabel"),
            Fault::DuplicateKey => (13, "DuplicateKey"),
            Fault::NoReference => (14, "NoReference"),
            Fault::OutOfRange => (15, "OutOfRange"),
            Fault::CommitLabel => (16, "CommitLabel"),
            Fault::Conflict => (17, "Conflict"),
            Fault::BrokenReference => (18, "BrokenReference"),
            Fault::StillReferenced => (19, "StillReferenced"),
            Fault::OutOfMemory => (20, "OutOfMemory"),
            Fault::TooLong => (21, "TooLong"),
            Fault::Limit => (22, "Limit"),
            Fault::NotGranted => (23, "NotGranted"),
            Fault::KeyColumn => (24, "KeyColumn"),
            Fault::NotCompound => (25, "NotCompound"),
            Fault::NotATable => (26, "NotATable"),
            Fault::ViewAuthority => (27, "ViewAuthority"),
            Fault::NoSession => (28, "NoSession"),
            Fault::OverClearance => (29, "OverClearance"),
            Fault::ClosureLabel => (30, "ClosureLabel"),
        }
    }
}

/// The name, and behind Syntax the place.
impl fmt::Display for Fault {
    fn fmt<W: fmt::Write>(&self, f: &mut fmt::Formatter<W>) -> fmt::Result {
        match self {
            Fault::Syntax(at) => write!(f, "{} at byte {at}", self.name()),
            _ => write!(f, "{}", self.name()),
        }
    }
}

impl Error for Fault {}

impl From<AllocError> for Fault {
    ghost use Rattle.std.specs.Prelude.{◌≡◌};
    ghost use Rattle.ifdb_wire.specs.declared.fault.Fault.{Fault};

    ghost from_gives = { λ _ fault. fault ≡ Fault.OutOfMemory };

    fn from(_: AllocError) -> Self {
        Fault::OutOfMemory
    }
}
