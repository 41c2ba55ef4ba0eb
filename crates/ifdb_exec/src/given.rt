// Where the rows of a source are.
ghost use Rattle.std.specs.Prelude.{◌≡◌, IfSome, List, ℕ};
ghost use Rattle.ifdb_label.specs.Tags.{MadeTag};
ghost use Rattle.ifdb_row.specs.declared.row.Row.{Row as AnyRow};
ghost use Rattle.ifdb_expr.specs.View.{table_rows};
ghost use Rattle.ifdb_plan.specs.Keys.{are_keyed};
ghost use Rattle.ifdb_exec.specs.Given.{is_given_keyed, rows_given};

use crate::view_row::ViewRows;
use ifdb_value::TableId;

/// Where the rows of a source are.
#[derive(Drop)]
pub enum Given<'k> {
    /// In a table: those of its rows that the label sees.
    Table(TableId),
    /// In a table each of whose rows has its key's values in these columns: those of its rows that the label sees.
    Keyed(TableId, &'k [usize]),
    /// The rows of a view, all of them.
    View(ViewRows),
}

/// A table each of whose rows has its key's values in these columns.
#[derive(Clone, Copy)]
pub(crate) struct KeyedTable<'k> {
    /// The table.
    pub(crate) table: TableId,
    /// The places of the key's columns.
    pub(crate) key: &'k [usize],
}

impl<'k> Given<'k> {
    /// The table and the columns of its key, if it says that they are.
    pub(crate) fn keyed(&self) -> Option<KeyedTable<'k>>
        ensures keyed { IfSome result (λ it. (rows : List AnyRow)
            → is_given_keyed rows self.now ≡ are_keyed it.table it.key.now rows) }
        ensures rows { IfSome result
            (λ it. (tags : List MadeTag) (rows : List AnyRow) (label : List ℕ)
            → rows_given tags rows label self.now ≡ table_rows tags rows it.table label) }
    {
        match self {
            Given::Keyed(table, key) => Some(KeyedTable { table: *table, key }),
            _ => None,
        }
    }

    /// The table, if the rows are in one.
    pub(crate) fn table(&self) -> Option<TableId>
        ensures { IfSome result
            (λ table. (tags : List MadeTag) (rows : List AnyRow) (label : List ℕ)
            → rows_given tags rows label self.now ≡ table_rows tags rows table label) }
    {
        match self {
            Given::Table(table) => Some(*table),
            Given::Keyed(table, _) => Some(*table),
            Given::View(_) => None,
        }
    }
}
