//! What a SELECT asks of rows, tested before it is asked.
ghost use Rattle.std.specs.Prelude.{◌≡◌};
ghost use Rattle.ifdb_label.specs.Tags.{are_made};
ghost use Rattle.ifdb_row.specs.Seen.{are_rows_made};

use ifdb_label::Tag;
use ifdb_row::Row;
use ifdb_value::Shared;

/// Whether no label has a tag, where none is made.
pub(crate) fn are_public(rows: &[Shared<Row>]) -> bool
    ensures { result ≡ are_rows_made 0 rows.now }
{
    rows.iter().all(|row| are_made(row.get().slot.label.tags()))
}

fn are_made(list: &[Tag]) -> bool
    ensures { result ≡ are_made 0 list.now }
{
    list.is_empty()
}
