// Rows that stand under the keys which their values give.
ghost use Rattle.std.specs.Prelude.{◌≡◌};
ghost use Rattle.ifdb_row.specs.Slots.{key_cmp};
ghost use Rattle.ifdb_plan.specs.Keys.{are_keyed, fields};

use ifdb_expr::{ValueRef, value_in};
use ifdb_row::Row;
use ifdb_value::{Shared, TableId, Value};
use std::cmp::Ordering;

/// Whether each row of a table stands under the key that its values in these columns give. Looks at each row, and takes no
/// memory.
pub fn are_keyed(table: TableId, key: &[usize], rows: &[Shared<Row>]) -> bool
    ensures { result ≡ are_keyed table key.now rows.now }
{
    rows.iter().all(|row| {
        let row = row.get();
        row.slot.table != table
            || compare_fields(row.slot.key.items(), key, row.values.items()).is_eq()
    })
}

/// The order of a key and a row's values in some columns.
fn compare_fields(key: &[Value], columns: &[usize], values: &[Value]) -> Ordering
    ensures { result ≡ key_cmp key.now (fields columns.now values.now) }
{
    match key {
        [] => match columns {
            [] => Ordering::Equal,
            [_, ..] => Ordering::Less,
        },
        [first, rest @ ..] => match columns {
            [] => Ordering::Greater,
            [column, others @ ..] => ValueRef::of(first)
                .compare(value_in(values, *column))
                .then(compare_fields(rest, others, values)),
        },
    }
}
