// From where a statement is asked.
use ifdb_label::{Label, Tags};

/// From where a statement is asked: what it is about, but for the rows.
#[derive(Clone, Copy)]
pub struct Standpoint<'a> {
    /// All tags that it sees.
    pub tags: &'a Tags,
    /// The session's label.
    pub label: &'a Label,
    /// The tags that it declassifies.
    pub given: &'a Label,
}
