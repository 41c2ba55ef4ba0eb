// How a service ended.
use std::fmt;

/// How the service of a site ended.
#[derive(Clone, Copy, Debug, PartialEq, Eq)]
pub enum ServiceEnd {
    /// Every door was served, and the summary was written.
    Done,
    /// The output failed, as its count of faults says.
    WriteFault,
    /// There was no memory for the service: no connection was taken.
    OutOfMemory,
    /// The site failed, as its count of faults says: it gave no door.
    SiteFault,
}

impl fmt::Display for ServiceEnd {
    fn fmt<W: fmt::Write>(&self, f: &mut fmt::Formatter<W>) -> fmt::Result {
        match self {
            ServiceEnd::Done => write!(f, "every door was served"),
            ServiceEnd::WriteFault => write!(f, "the output failed"),
            ServiceEnd::OutOfMemory => write!(f, "out of memory"),
            ServiceEnd::SiteFault => write!(f, "the site failed"),
        }
    }
}
