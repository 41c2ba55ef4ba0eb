// How a connection ended.
ghost use Rattle.std.specs.Prelude.{◌≡◌};
ghost use Rattle.ifdb_session.specs.Endings.{is_orderly};

use std::fmt;

/// How the service of a connection ended.
#[derive(Clone, Copy, Debug, PartialEq, Eq)]
pub enum Ending {
    /// The session said BYE, and the reply was written.
    Bye,
    /// The input ended. Bytes without a newline at its end are no line.
    End,
    /// Reading failed, as the connection's count says.
    LinkRead,
    /// Writing failed, as the connection's count says.
    LinkWrite,
    /// The disk failed, so that what the last reply was answered from isn't known to be kept, and nothing of it was written.
    Unkept,
    /// The connection sent more bytes than the limit.
    TooMuch,
    /// A line was longer than a line may be, and was told so.
    TooLong,
    /// There was no memory for the connection: nothing was read or written, and no session opened.
    OutOfMemory,
}

impl Ending {
    /// Whether the connection ended as its client meant it to: by BYE or at the end of its input.
    pub fn is_orderly(self) -> bool
        ensures { result ≡ is_orderly self }
    {
        matches!(self, Ending::Bye | Ending::End)
    }
}

impl fmt::Display for Ending {
    fn fmt<W: fmt::Write>(&self, f: &mut fmt::Formatter<W>) -> fmt::Result {
        match self {
            Ending::Bye => write!(f, "the session said BYE"),
            Ending::End => write!(f, "the input ended"),
            Ending::LinkRead => write!(f, "reading failed"),
            Ending::LinkWrite => write!(f, "writing failed"),
            Ending::Unkept => write!(f, "the disk failed"),
            Ending::TooMuch => write!(f, "more bytes than the limit"),
            Ending::TooLong => write!(f, "a line was too long"),
            Ending::OutOfMemory => write!(f, "out of memory"),
        }
    }
}
