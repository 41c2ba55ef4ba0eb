// When a database is compacted.

/// When a database is compacted.
#[derive(Clone, Copy, Debug, PartialEq, Eq)]
pub enum When {
    /// In any case.
    Always,
    /// Where its file is longer than 64 MiB, and than four times what it comes to.
    IfWorth,
}
