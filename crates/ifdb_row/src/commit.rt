// What was written at once.
use crate::writes::Writes;

/// The writes of one commit, or of one statement outside a transaction.
#[derive(Drop)]
pub struct Commit {
    /// The place of its change in the log, from 0, plus 1.
    pub stamp: u64,
    /// What it wrote.
    pub writes: Writes,
}
