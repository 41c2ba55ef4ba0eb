// How a connection ended, and why a loop halts.
use std::fmt;

/// Why a loop doesn't go on, though connections may come still.
#[derive(Clone, Copy, Debug, PartialEq, Eq)]
pub enum Halt {
    /// The gate failed, as its count says.
    Gate,
    /// No more can be kept of what connections are answered from.
    Unkept,
}

impl fmt::Display for Halt {
    fn fmt<W: fmt::Write>(&self, f: &mut fmt::Formatter<W>) -> fmt::Result {
        match self {
            Halt::Gate => write!(f, "the gate failed"),
            Halt::Unkept => write!(f, "the service failed"),
        }
    }
}

/// How a connection ended.
#[derive(Clone, Copy, Debug, PartialEq, Eq)]
pub enum Ending {
    /// By the last line of its session, as BYE.
    Bye,
    /// By the end of the input. Bytes without a newline at its end are no line.
    End,
    /// Reading failed, as the connection's count says; or nothing came for too long.
    LinkRead,
    /// Writing failed, as the connection's count says; or its client took nothing for too long.
    LinkWrite,
    /// Not by itself: its loop has halted. Where no more can be kept, what the last replies were answered from isn't known to be.
    Halted(Halt),
    /// The connection sent more bytes than the limit.
    TooMuch,
    /// A line was longer than a line may be, and was told so.
    TooLong,
    /// There was no memory for the last reply, or for the bytes that came.
    OutOfMemory,
}

impl fmt::Display for Ending {
    fn fmt<W: fmt::Write>(&self, f: &mut fmt::Formatter<W>) -> fmt::Result {
        match self {
            Ending::Bye => write!(f, "the session said BYE"),
            Ending::End => write!(f, "the input ended"),
            Ending::LinkRead => write!(f, "reading failed"),
            Ending::LinkWrite => write!(f, "writing failed"),
            Ending::Halted(halt) => write!(f, "{halt}"),
            Ending::TooMuch => write!(f, "more bytes than the limit"),
            Ending::TooLong => write!(f, "a line was too long"),
            Ending::OutOfMemory => write!(f, "out of memory"),
        }
    }
}
