//! What `query` asks of rows, labels and views, tested before it is called.
ghost use Rattle.std.specs.Prelude.{◌≡◌, length};
ghost use Rattle.ifdb_label.specs.Tags.{are_made};
ghost use Rattle.ifdb_row.specs.Seen.{are_rows_made};
ghost use Rattle.ifdb_view.specs.Keyed.{are_sources_keyed, are_views_keyed, is_relation_keyed};
ghost use Rattle.ifdb_view.specs.Made.{are_views_made, is_view_made};

use ifdb_bound::{BoundSource, Relation, ViewDef};
use ifdb_label::{Tag, Tags};
use ifdb_plan::are_keyed;
use ifdb_row::Row;
use ifdb_value::Shared;

/// Whether tags are made.
fn are_made(tags: &Tags, list: &[Tag]) -> bool
    ensures { result ≡ are_made (length tags.now) list.now }
{
    list.iter().all(|tag| tag.0 < tags.count())
}

/// Whether rows are at labels of made tags.
pub(crate) fn are_rows_made(tags: &Tags, rows: &[Shared<Row>]) -> bool
    ensures { result ≡ are_rows_made (length tags.now) rows.now }
{
    rows.iter()
        .all(|row| are_made(tags, row.get().slot.label.tags()))
}

/// Whether a view declassifies made tags, and is over four sources at most.
fn is_view_made(tags: &Tags, view: &ViewDef) -> bool
    ensures { result ≡ is_view_made (length tags.now) view.now }
{
    are_made(tags, view.declassifying.tags()) && view.select.sources.len() <= 4
}

/// Whether views declassify made tags, and are over four sources at most.
pub(crate) fn are_views_made(tags: &Tags, views: &[ViewDef]) -> bool
    ensures { result ≡ are_views_made (length tags.now) views.now }
{
    views.iter().all(|view| is_view_made(tags, view))
}

/// Whether the rows of a source's table have their key where the source says.
fn is_source_keyed(rows: &[Shared<Row>], source: &BoundSource) -> bool
    ensures { result ≡ is_relation_keyed rows.now source.now.key source.now.relation }
{
    match source.relation {
        Relation::Table(table) => {
            source.key.is_empty() || are_keyed(table, source.key.items(), rows)
        }
        Relation::View(_) => true,
    }
}

/// Whether the rows of each source's table have their keys where the source says.
pub(crate) fn are_sources_keyed(rows: &[Shared<Row>], sources: &[BoundSource]) -> bool
    ensures { result ≡ are_sources_keyed rows.now sources.now }
{
    sources.iter().all(|source| is_source_keyed(rows, source))
}

/// So for each source of each view.
pub(crate) fn are_views_keyed(rows: &[Shared<Row>], views: &[ViewDef]) -> bool
    ensures { result ≡ are_views_keyed rows.now views.now }
{
    views.iter().all(|view| are_sources_keyed(rows, view.select.sources.items()))
}
