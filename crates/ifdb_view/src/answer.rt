// What a SELECT answers over tables and views.
ghost use Rattle.std.specs.Prelude.{◌≡◌, ◌≤◌, IsTrue, length, option_and_then, true};
ghost use Rattle.ifdb_label.specs.Tags.{AreMade};
ghost use Rattle.ifdb_bound.specs.Query.{select};
ghost use Rattle.ifdb_expr.specs.Query.{query};
ghost use Rattle.ifdb_expr.specs.Tells.{Tells};
ghost use Rattle.ifdb_row.specs.Seen.{are_rows_made};
ghost use Rattle.ifdb_exec.specs.Given.{are_given_keyed, seen_sources};
ghost use Rattle.ifdb_view.specs.Faults.{TellsQuery};
ghost use Rattle.ifdb_view.specs.Keyed.{are_sources_keyed, are_views_keyed};
ghost use Rattle.ifdb_view.specs.Made.{are_views_made, setting_of};
ghost use Rattle.ifdb_view.specs.Sources.{all_source_rows, are_allowed};

use crate::fault::ViewFault;
use crate::sources::{all_allowed, given};
use crate::views::Views;
use ifdb_bound::BoundSelect;
use ifdb_exec::{Given, Reading, answer};
use ifdb_expr::ExprFault;
use ifdb_row::Rows;
use ifdb_value::{Sequence, ValueRows};

/// The answer to a SELECT over tables and views at the reader's label.
///
/// `ViewAuthority` exactly where the owner of some view doesn't hold a tag that the view declassifies, which is tested
/// before any row is looked at. Else `OutOfRange` exactly where an item of the answer, or of some row of a view, isn't an
/// `i64`; `OutOfMemory` where an allocation is refused.
pub fn query<'q, R: Rows, V: Views>(
    reading: &'q Reading<'_>,
    rows: &'q R,
    views: &V,
    request: &'q BoundSelect,
) -> Result<ValueRows, ViewFault>
    requires rows_made { IsTrue (are_rows_made (length reading.now.tags.now) (R.rows rows.now)) }
    requires label_made { AreMade (length reading.now.tags.now) reading.now.label.now }
    requires views_made { IsTrue
        (are_views_made (length reading.now.tags.now) (V.views views.now)) }
    requires keyed { IsTrue (are_sources_keyed (R.rows rows.now) request.now.sources) }
    requires views_keyed { IsTrue (are_views_keyed (R.rows rows.now) (V.views views.now)) }
    requires room { length request.now.sources ≤ 4 }
    ensures { TellsQuery (query (setting_of reading.now (V.views views.now) (V.allows views.now))
        (R.rows rows.now) reading.now.label.now request.now) result }
{
    let are_allowed = all_allowed(views, request.sources.items())?;
    if !are_allowed {
        return Err(ViewFault::ViewAuthority);
    }
    match over_sources(reading, rows, views, request) {
        Ok(found) => Ok(found),
        Err(fault) => Err(ViewFault::from(fault)),
    }
}

/// The answer to a SELECT whose views are allowed: no row is looked at before that is known.
fn over_sources<'q, R: Rows, V: Views>(
    reading: &'q Reading<'_>,
    rows: &'q R,
    views: &V,
    query: &'q BoundSelect,
) -> Result<ValueRows, ExprFault>
    requires allowed { are_allowed
        (setting_of reading.now (V.views views.now) (V.allows views.now)) query.now.sources ≡ true }
    requires rows_made { IsTrue (are_rows_made (length reading.now.tags.now) (R.rows rows.now)) }
    requires label_made { AreMade (length reading.now.tags.now) reading.now.label.now }
    requires views_made { IsTrue
        (are_views_made (length reading.now.tags.now) (V.views views.now)) }
    requires keyed { IsTrue (are_sources_keyed (R.rows rows.now) query.now.sources) }
    requires views_keyed { IsTrue (are_views_keyed (R.rows rows.now) (V.views views.now)) }
    requires room { length query.now.sources ≤ 4 }
    ensures { Tells (option_and_then (select reading.now.names.now query.now) (all_source_rows
        (setting_of reading.now (V.views views.now) (V.allows views.now))
        (R.rows rows.now) reading.now.label.now query.now.sources)) result }
{
    match given(reading, rows, views, query.sources.items()) {
        Ok(given) => over_given(reading, rows, query, given),
        Err(fault) => Err(fault),
    }
}

/// The answer to a SELECT, where it is said of each source where its rows are.
fn over_given<'q, R: Rows>(
    reading: &'q Reading<'_>,
    rows: &'q R,
    query: &'q BoundSelect,
    given: Sequence<Given<'q>>,
) -> Result<ValueRows, ExprFault>
    requires rows_made { IsTrue (are_rows_made (length reading.now.tags.now) (R.rows rows.now)) }
    requires label_made { AreMade (length reading.now.tags.now) reading.now.label.now }
    requires keyed { IsTrue (are_given_keyed (R.rows rows.now) given) }
    requires room { length given ≤ 4 }
    ensures { Tells (select reading.now.names.now query.now
        (seen_sources reading.now (R.rows rows.now) given.entry)) result }
{
    answer(reading, rows, query, given.items())
}
