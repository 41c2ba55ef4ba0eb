//! What a SELECT asks of rows, tested before it is asked.
ghost use Rattle.std.specs.Prelude.{◌≡◌, length};
ghost use Rattle.ifdb_label.specs.Tags.{are_made};
ghost use Rattle.ifdb_row.specs.Seen.{are_rows_made};
ghost use Rattle.ifdb_exec.specs.Given.{are_given_keyed, is_given_keyed};

use ifdb_exec::Given;
use ifdb_label::{Tag, Tags};
use ifdb_plan::are_keyed;
use ifdb_row::Row;
use ifdb_value::Shared;

/// Whether rows are at labels of made tags.
pub(crate) fn are_rows_made(tags: &Tags, rows: &[Shared<Row>]) -> bool
    ensures { result ≡ are_rows_made (length tags.now) rows.now }
{
    rows.iter()
        .all(|row| are_made(tags, row.get().slot.label.tags()))
}

/// Whether tags are made.
fn are_made(tags: &Tags, list: &[Tag]) -> bool
    ensures { result ≡ are_made (length tags.now) list.now }
{
    list.iter().all(|tag| tag.0 < tags.count())
}

/// Whether a table has its key where its source says.
fn is_given_keyed(rows: &[Shared<Row>], given: &Given<'_>) -> bool
    ensures { result ≡ is_given_keyed rows.now given.now }
{
    match given {
        Given::Keyed(table, key) => are_keyed(*table, key, rows),
        Given::Table(_) => true,
        Given::View(_) => true,
    }
}

/// Whether tables have their keys where their sources say.
pub(crate) fn are_given_keyed(rows: &[Shared<Row>], given: &[Given<'_>]) -> bool
    ensures { result ≡ are_given_keyed rows.now given.now }
{
    given.iter().all(|one| is_given_keyed(rows, one))
}
