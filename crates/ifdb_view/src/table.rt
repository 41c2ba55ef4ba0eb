// Where the rows of a table are.
ghost use Rattle.std.specs.Prelude.{◌≡◌, List, ℕ, true};
ghost use Rattle.ifdb_label.specs.Tags.{MadeTag};
ghost use Rattle.ifdb_row.specs.declared.row.Row.{Row as AnyRow};
ghost use Rattle.ifdb_bound.specs.declared.select.Relation.TheVariants as relation;
ghost use Rattle.ifdb_expr.specs.View.{table_rows};
ghost use Rattle.ifdb_exec.specs.Given.{is_given_keyed, rows_given};
ghost use Rattle.ifdb_view.specs.Keyed.{is_relation_keyed};

use ifdb_exec::Given;
use ifdb_value::TableId;

/// The rows of a table, which have their key in these columns, if there are any.
pub(crate) fn table_given(table: TableId, key: &[usize]) -> Given<'_>
    ensures rows { (tags : List MadeTag) (rows : List AnyRow) (label : List ℕ)
        → rows_given tags rows label result ≡ table_rows tags rows table label }
    ensures keyed { (rows : List AnyRow)
        → is_relation_keyed rows key.now (relation.Table table) ≡ true
        → is_given_keyed rows result ≡ true }
{
    if key.is_empty() {
        Given::Table(table)
    } else {
        Given::Keyed(table, key)
    }
}
