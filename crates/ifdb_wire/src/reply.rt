// Replies.
use crate::fault::Fault;
use ifdb_value::{ValueRows, Word};

/// The rows of an answer.
#[derive(Debug, Drop)]
pub struct Table {
    /// How many values each row has.
    pub columns: u64,
    /// The rows, in order.
    pub rows: ValueRows,
}

/// The reply to a step.
#[derive(Debug, Drop)]
pub enum Reply {
    /// The request was done.
    Done,
    /// INSERT, UPDATE or DELETE was done, over this many rows.
    Count(u64),
    /// A session was opened, in a script.
    Opened,
    /// The names of the label's tags, in order of tag number, joined by `,`.
    Label(Word),
    /// The answer to a SELECT.
    Rows(Table),
    /// The request was refused.
    Refused(Fault),
}
