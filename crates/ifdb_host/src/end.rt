// How the service of a database ends.
ghost use Rattle.std.specs.Prelude.{◌≡◌};
ghost use Rattle.ifdb_host.specs.Hosted.{end_of};

use ifdb_log::LogFault;

/// How the service of a database ended.
#[derive(Clone, Copy, Debug, PartialEq, Eq)]
pub enum HostEnd {
    /// No connection comes any more, all were served, and the output says what was done.
    Done,
    /// The output failed.
    WriteFault,
    /// There was no memory to begin, and no connection was taken.
    OutOfMemory,
    /// The site gave no gates, or one of its gates failed.
    SiteFault,
    /// The disk failed: what was acknowledged before is on it.
    DiskFault,
    /// The file is neither a database nor new, and was left as it was.
    NotADatabase,
    /// The database's log is damaged at this byte of the file.
    Damaged(u64),
}

/// How a service ends whose log wasn't read to its end.
pub(crate) fn end_of(fault: LogFault) -> HostEnd
    ensures { result ≡ end_of fault }
{
    match fault {
        LogFault::Disk => HostEnd::DiskFault,
        LogFault::NotALog => HostEnd::NotADatabase,
        LogFault::Damaged(at) => HostEnd::Damaged(at),
        LogFault::OutOfMemory => HostEnd::OutOfMemory,
    }
}
