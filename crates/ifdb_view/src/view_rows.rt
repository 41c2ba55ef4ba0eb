// The rows of a view.
ghost use Rattle.std.specs.Prelude.{◌≡◌, ◌≤◌, IfOk, IsTrue, List, Bool, ℕ, length, map, true};
ghost use Rattle.std.specs.List.{list_all};
ghost use Rattle.ifdb_label.specs.Tags.{AreMade, MadeTag};
ghost use Rattle.ifdb_row.specs.declared.row.Row.{Row as AnyRow};
ghost use Rattle.ifdb_bound.specs.declared.schema.ViewDef.{ViewDef as AnyView};
ghost use Rattle.ifdb_bound.specs.Query.{all_some};
ghost use Rattle.ifdb_expr.specs.Tells.{Tells};
ghost use Rattle.ifdb_expr.specs.View.{base_rows, view_row, view_rows};
ghost use Rattle.ifdb_row.specs.Seen.{are_rows_made};
ghost use Rattle.ifdb_exec.specs.Given.{are_given_keyed, is_given_keyed, rows_given};
ghost use Rattle.ifdb_view.specs.Keyed.{are_sources_keyed, is_relation_keyed};
ghost use Rattle.ifdb_view.specs.Made.{are_all_made, is_made, setting_of};
ghost use Rattle.ifdb_view.specs.Sources.{all_base_rows};

use crate::OutOfMemory;
use crate::table::table_given;
use crate::view_label::label_of;
use ifdb_bound::{BoundSource, Relation, ViewDef};
use ifdb_exec::{Given, Reading, ViewRow, ViewRows, matching};
use ifdb_expr::{ExprFault, Frame};
use ifdb_group::answer_row;
use ifdb_row::Rows;
use std::alloc::Global;

/// The rows that a view has at the reader's label, in the order of its sources: over the rows that the label sees with the
/// tags that the view declassifies. Its owner's authority is not tested here.
///
/// `OutOfRange` exactly where an item of some row isn't an `i64`.
pub fn rows_of<R: Rows>(
    reading: &Reading<'_>,
    rows: &R,
    view: &ViewDef,
) -> Result<ViewRows, ExprFault>
    requires rows_made { IsTrue (are_rows_made (length reading.now.tags.now) (R.rows rows.now)) }
    requires label_made { AreMade (length reading.now.tags.now) reading.now.label.now }
    requires given_made { AreMade (length reading.now.tags.now) view.now.declassifying }
    requires keyed { IsTrue (are_sources_keyed (R.rows rows.now) view.now.select.sources) }
    requires room { length view.now.select.sources ≤ 4 }
    ensures { (views : List AnyView) (allows : AnyView → Bool)
        → Tells (view_rows (setting_of reading.now views allows)
        (R.rows rows.now) reading.now.label.now view.now) result }
{
    let wide = reading
        .label
        .union(reading.alloc, reading.tags, &view.declassifying)?;
    let reading = Reading {
        alloc: reading.alloc,
        tags: reading.tags,
        names: reading.names,
        label: &wide,
    };
    let bases = bases(reading.alloc, view.select.sources.items())?;
    let frames = matching(&reading, rows, &view.select.cond, &bases)?;
    each_row(&reading, view, frames.items())
}

/// Where the rows of a view's sources are, which are tables.
fn bases(alloc: Global, sources: &[BoundSource]) -> Result<Vec<Given<'_>>, OutOfMemory>
    ensures rows { IfOk result (λ all.
        (tags : List MadeTag) (rows : List AnyRow) (label : List ℕ)
        → map (rows_given tags rows label) all.items ≡ all_base_rows tags rows label sources.now) }
    ensures keyed { IfOk result (λ all. (rows : List AnyRow)
        → are_sources_keyed rows sources.now ≡ true → are_given_keyed rows all.items ≡ true) }
{
    let mut all = Vec::new(alloc);
    for source in sources {
        all.push(base(alloc, source))?;
    }
    Ok(all)
}

/// Where the rows of a view's source are. A source that is a view has none.
fn base(alloc: Global, source: &BoundSource) -> Given<'_>
    ensures rows { (tags : List MadeTag) (rows : List AnyRow) (label : List ℕ)
        → rows_given tags rows label result ≡ base_rows tags rows label source.now.relation }
    ensures keyed { (rows : List AnyRow)
        → is_relation_keyed rows source.now.key source.now.relation ≡ true
        → is_given_keyed rows result ≡ true }
{
    match source.relation {
        Relation::Table(table) => table_given(table, source.key.items()),
        Relation::View(_) => Given::View(ViewRows::new(alloc)),
    }
}

/// A row of a view for each combination.
fn each_row(
    reading: &Reading<'_>,
    view: &ViewDef,
    frames: &[Frame<'_>],
) -> Result<ViewRows, ExprFault>
    requires made { IsTrue (are_all_made (length reading.now.tags.now) frames.now) }
    requires given_made { AreMade (length reading.now.tags.now) view.now.declassifying }
    ensures { (views : List AnyView) (allows : AnyView → Bool)
        → Tells (all_some
        (map (view_row (setting_of reading.now views allows) view.now) frames.now)) result }
{
    let mut all = ViewRows::new(reading.alloc);
    for frame in frames {
        match row_of(reading, view, frame) {
            Ok(row) => all.push(row)?,
            Err(fault) => return Err(fault),
        }
    }
    Ok(all)
}

/// A view's row.
fn row_of(reading: &Reading<'_>, view: &ViewDef, frame: &Frame<'_>) -> Result<ViewRow, ExprFault>
    requires made { IsTrue (list_all (is_made (length reading.now.tags.now)) frame.now) }
    requires given_made { AreMade (length reading.now.tags.now) view.now.declassifying }
    ensures { (views : List AnyView) (allows : AnyView → Bool)
        → Tells (view_row (setting_of reading.now views allows) view.now frame.now) result }
{
    let label = label_of(reading.alloc, reading.tags, view, frame)?;
    match answer_row(
        reading.alloc,
        reading.names,
        view.select.items.items(),
        frame,
    ) {
        Ok(values) => Ok(ViewRow::new(values, label)),
        Err(fault) => Err(fault),
    }
}
