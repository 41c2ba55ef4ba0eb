// Who reads.
use ifdb_label::{Label, Tags};
use ifdb_value::Name;
use std::alloc::Global;

/// What a reader has beside the rows.
#[derive(Drop)]
pub struct Reading<'q> {
    /// Where memory is taken.
    pub alloc: Global,
    /// The tags.
    pub tags: &'q Tags,
    /// The tags' names, each at its tag's number.
    pub names: &'q [Name],
    /// The label at which rows are seen.
    pub label: &'q Label,
}
