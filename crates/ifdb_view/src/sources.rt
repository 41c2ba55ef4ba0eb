// Where the rows of a SELECT's sources are.
ghost use Rattle.std.specs.Prelude.{◌≡◌, IsTrue, IfOk, List, ℕ, length, true};
ghost use Rattle.ifdb_label.specs.Tags.{AreMade, MadeTag};
ghost use Rattle.ifdb_expr.specs.Query.{is_allowed, source_rows};
ghost use Rattle.ifdb_row.specs.Seen.{are_rows_made};
ghost use Rattle.ifdb_exec.specs.Given.{are_given_keyed, is_given_keyed, seen_source, seen_sources};
ghost use Rattle.ifdb_view.specs.Faults.{TellsBy};
ghost use Rattle.ifdb_view.specs.Keyed.{are_sources_keyed, are_views_keyed, is_relation_keyed};
ghost use Rattle.ifdb_view.specs.Made.{are_views_made, setting, setting_of};
ghost use Rattle.ifdb_view.specs.Sources.{all_source_rows, are_allowed};

use crate::OutOfMemory;
use crate::table::table_given;
use crate::view_rows::rows_of;
use crate::views::Views;
use ifdb_bound::{BoundSource, Relation};
use ifdb_exec::{Given, Reading, ViewRows};
use ifdb_expr::ExprFault;
use ifdb_row::Rows;
use ifdb_value::Sequence;

/// Whether each source is a table, or a view whose owner holds each tag that the view declassifies.
pub(crate) fn all_allowed<V: Views>(views: &V, sources: &[BoundSource]) -> Result<bool, OutOfMemory>
    ensures { IfOk result (λ allowed. (tags : List MadeTag) (names : List (List ℕ)) → allowed
        ≡ are_allowed (setting tags names (V.views views.now) (V.allows views.now)) sources.now) }
{
    for source in sources {
        let is_allowed = allowed(views, source.relation)?;
        if !is_allowed {
            return Ok(false);
        }
    }
    Ok(true)
}

/// Whether a source is a table, or a view whose owner holds each tag that the view declassifies.
#[tactic(auto, using(crate::proofs::Giving::owner_allows))]
fn allowed<V: Views>(views: &V, relation: Relation) -> Result<bool, OutOfMemory>
    ensures { IfOk result (λ allowed. (tags : List MadeTag) (names : List (List ℕ)) → allowed
        ≡ is_allowed (setting tags names (V.views views.now) (V.allows views.now)) relation) }
{
    match relation {
        Relation::Table(_) => Ok(true),
        Relation::View(id) => views.is_allowed(id),
    }
}

/// Where the rows of some sources are; those of a view are computed.
pub(crate) fn given<'k, R: Rows, V: Views>(
    reading: &Reading<'_>,
    rows: &R,
    views: &V,
    sources: &'k [BoundSource],
) -> Result<Sequence<Given<'k>>, ExprFault>
    requires rows_made { IsTrue (are_rows_made (length reading.now.tags.now) (R.rows rows.now)) }
    requires label_made { AreMade (length reading.now.tags.now) reading.now.label.now }
    requires views_made { IsTrue
        (are_views_made (length reading.now.tags.now) (V.views views.now)) }
    requires views_keyed { IsTrue (are_views_keyed (R.rows rows.now) (V.views views.now)) }
    ensures rows { TellsBy (seen_sources reading.now (R.rows rows.now)) (all_source_rows
        (setting_of reading.now (V.views views.now) (V.allows views.now))
        (R.rows rows.now) reading.now.label.now sources.now) result }
    ensures keyed { IfOk result (λ given. are_sources_keyed (R.rows rows.now) sources.now ≡ true
        → are_given_keyed (R.rows rows.now) given ≡ true) }
{
    let mut all = Sequence::new(reading.alloc);
    for source in sources {
        match given_of(reading, rows, views, source) {
            Ok(one) => all.push(one)?,
            Err(fault) => return Err(fault),
        }
    }
    Ok(all)
}

/// Where the rows of a source are.
fn given_of<'k, R: Rows, V: Views>(
    reading: &Reading<'_>,
    rows: &R,
    views: &V,
    source: &'k BoundSource,
) -> Result<Given<'k>, ExprFault>
    requires rows_made { IsTrue (are_rows_made (length reading.now.tags.now) (R.rows rows.now)) }
    requires label_made { AreMade (length reading.now.tags.now) reading.now.label.now }
    requires views_made { IsTrue
        (are_views_made (length reading.now.tags.now) (V.views views.now)) }
    requires views_keyed { IsTrue (are_views_keyed (R.rows rows.now) (V.views views.now)) }
    ensures rows { TellsBy (seen_source reading.now (R.rows rows.now)) (source_rows
        (setting_of reading.now (V.views views.now) (V.allows views.now))
        (R.rows rows.now) reading.now.label.now source.now.relation) result }
    ensures keyed { IfOk result (λ given.
        is_relation_keyed (R.rows rows.now) source.now.key source.now.relation ≡ true
        → is_given_keyed (R.rows rows.now) given ≡ true) }
{
    match source.relation {
        Relation::Table(table) => Ok(table_given(table, source.key.items())),
        Relation::View(id) => match views.view(id) {
            None => Ok(Given::View(ViewRows::new(reading.alloc))),
            Some(view) => match rows_of(reading, rows, view) {
                Ok(shown) => Ok(Given::View(shown)),
                Err(fault) => Err(fault),
            },
        },
    }
}
