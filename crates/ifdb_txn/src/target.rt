// What a statement writes to.
use ifdb_bound::Schema;
use ifdb_foreign::Standpoint;
use ifdb_value::TableId;
use std::alloc::Global;

/// What a statement writes to, and from where it is asked.
#[derive(Clone, Copy)]
pub(crate) struct Target<'a> {
    /// Where memory is taken.
    pub(crate) alloc: Global,
    /// From where the statement is asked.
    pub(crate) from: Standpoint<'a>,
    /// The number of its table.
    pub(crate) table: TableId,
    /// Its table.
    pub(crate) schema: &'a Schema,
}
