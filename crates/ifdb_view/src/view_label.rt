// The labels of a view's rows.
ghost use Rattle.std.specs.Prelude.{◌≡◌, ◌++◌, IfOk, OnOk, IsTrue, flat_map, length};
ghost use Rattle.std.specs.List.{list_all};
ghost use Rattle.ifdb_label.specs.Tags.{AreMade};
ghost use Rattle.ifdb_bound.specs.Query.{SourceRow};
ghost use Rattle.ifdb_expr.specs.ByReference.{all_shown};
ghost use Rattle.ifdb_expr.specs.View.{view_label};
ghost use Rattle.ifdb_view.specs.Made.{is_made};

use crate::OutOfMemory;
use ifdb_bound::ViewDef;
use ifdb_expr::{Frame, SeenRow};
use ifdb_label::{Label, Tag, Tags};
use std::alloc::Global;

/// The label of a view's row: the union of the labels of the rows that it is made of, without the tags below a
/// declassified one.
pub(crate) fn label_of(
    alloc: Global,
    tags: &Tags,
    view: &ViewDef,
    frame: &Frame<'_>,
) -> Result<Label, OutOfMemory>
    requires made { IsTrue (list_all (is_made (length tags.now)) frame.now) }
    requires given_made { AreMade (length tags.now) view.now.declassifying }
    ensures { IfOk result (λ label. label ≡ view_label tags.now view.now frame.now) }
{
    let mut all = Vec::new(alloc);
    push_labels(&mut all, frame.rows())?;
    let whole = Label::reduce(alloc, tags, &all)?;
    Ok(whole.strip(alloc, tags, &view.declassifying)?)
}

/// Adds the tags of the labels of some rows.
fn push_labels(all: &mut Vec<Tag>, rows: &[SeenRow<'_>]) -> Result<(), OutOfMemory>
    ensures { OnOk result (all.new.items
        ≡ all.old.items ++ flat_map (λ (r : SourceRow). r.label) (all_shown rows.now)) }
{
    for row in rows {
        all.extend_from_slice(row.label)?;
    }
    Ok(())
}
