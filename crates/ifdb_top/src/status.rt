// How the program ends.
ghost use Rattle.std.specs.Prelude.{◌≡◌};
ghost use Rattle.ifdb_top.specs.Ends.{host_code};

use crate::more::MoreStatus;

/// How the program ended.
#[derive(Clone, Copy, Debug, PartialEq, Eq)]
pub enum HostStatus {
    /// As `top_more` may end.
    More(MoreStatus),
    /// A file can't be opened, read or written; exit status 7.
    DiskFault,
    /// The file is neither a database nor new; exit status 8.
    NotADatabase,
    /// The file of the key for `admin` holds none; exit status 8.
    NoKey,
    /// The name of the file that a database is compacted to has another file; exit status 8.
    SpareTaken,
}

impl HostStatus {
    /// The exit status.
    pub fn exit_code(self) -> u8
        ensures { result ≡ host_code self }
    {
        match self {
            HostStatus::More(status) => status.exit_code(),
            HostStatus::DiskFault => 7,
            HostStatus::NotADatabase | HostStatus::NoKey | HostStatus::SpareTaken => 8,
        }
    }
}
