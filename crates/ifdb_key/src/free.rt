// Whether a key is free.
ghost use Rattle.std.specs.Prelude.{◌≡◌, ◌&&◌, IsTrue, find, length, not};
ghost use Rattle.ifdb_label.specs.Tags.{AreMade};
ghost use Rattle.ifdb_label.specs.Label.{flows};
ghost use Rattle.ifdb_row.specs.ByReference.{option_row};
ghost use Rattle.ifdb_row.specs.Slots.{is_of_key};
ghost use Rattle.ifdb_row.specs.Seen.{are_rows_made, clash};

use ifdb_label::{Label, Tags};
use ifdb_row::{RowRef, Rows};
use ifdb_value::{TableId, Value};

/// Whether the label sees no row of the table's key. Takes no memory. Costs one look-up for each row of the key, up to the first that the
/// label sees.
#[tactic(auto, using(ifdb_row::proofs::KeyRows::any_found))]
pub fn is_free<R: Rows>(rows: &R, tags: &Tags, table: TableId, key: &[Value], label: &Label) -> bool
    requires rows_made { IsTrue (are_rows_made (length tags.now) (R.rows rows.now)) }
    requires label_made { AreMade (length tags.now) label.now }
    ensures { result ≡ not (clash tags.now (R.rows rows.now) table key.now label.now) }
{
    match first_seen(rows, tags, table, key, label) {
        Some(_) => false,
        None => true,
    }
}

/// The first row of the key that the label sees.
fn first_seen<'a, R: Rows>(
    rows: &'a R,
    tags: &Tags,
    table: TableId,
    key: &[Value],
    label: &Label,
) -> Option<RowRef<'a>>
    requires rows_made { IsTrue (are_rows_made (length tags.now) (R.rows rows.now)) }
    requires label_made { AreMade (length tags.now) label.now }
    ensures { option_row result ≡
        find (λ r. is_of_key table key.now r.slot && flows tags.now r.slot.label label.now)
        (R.rows rows.now) }
{
    let mut after: Option<&Label> = None;
    'keyed: while let Some(row) = rows.of_key(table, key, after) {
        if row.slot.label.flows(tags, label) {
            return Some(row);
        }
        after = Some(row.slot.label);
    }
    None
}
