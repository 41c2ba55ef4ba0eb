// What is recorded of an entry of the log.
use ifdb_row::Writes;
use ifdb_value::{Principal, Sequence};

/// A redo record: what is recorded of one entry of the log, so that a restart can make the entry again.
#[derive(Drop)]
pub enum RedoRecord {
    /// A public change: who asked for it, and by which line.
    Change {
        /// Who asked.
        asker: Principal,
        /// The line's bytes, whatever they are.
        line: Sequence<u8>,
    },
    /// A commit, by its writes.
    Commit(Writes),
}
