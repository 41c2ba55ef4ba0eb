// What a statement writes, over the public state.
ghost use Rattle.std.specs.Prelude.{◌<◌, IsTrue, length};
ghost use Rattle.std.specs.Option.{option_copied};
ghost use Rattle.ifdb_label.specs.Tags.{AreMade};
ghost use Rattle.ifdb_bound.specs.declared.request.Bound.TheVariants as bound;
ghost use Rattle.ifdb_row.specs.Seen.{are_rows_made};
ghost use Rattle.ifdb_catalog.specs.Fits.{bound_fits};
ghost use Rattle.ifdb_foreign.specs.Parents.{IsMade};
ghost use Rattle.ifdb_model.specs.Writes.{counted, delete_matched, update_matched, writes_of};
ghost use Rattle.ifdb_txn.specs.Answers.{Gives};
ghost use Rattle.ifdb_txn.specs.Keyed.{are_all_keyed};
ghost use Rattle.ifdb_txn.specs.Scenes.{all_inserted, are_under_keys, matched_of, scene_of};
ghost use Rattle.ifdb_txn.specs.Tables.{IsTable, IsTarget, written_by};

use crate::insert::insert_all;
use crate::matched::{are_writable, deletions, matched};
use crate::target::Target;
use crate::update::update_all;
use crate::written::Written;
use ifdb_bound::{Bound, BoundAssignment, BoundCond, Schema};
use ifdb_catalog::Catalog;
use ifdb_foreign::Standpoint;
use ifdb_label::Label;
use ifdb_row::{Rows, Writes};
use ifdb_value::{Principal, TableId, ValueRow};
use ifdb_wire::Fault;
use std::alloc::Global;

/// Who writes.
#[derive(Clone, Copy)]
pub struct Writer<'a> {
    /// Where memory is taken.
    pub alloc: Global,
    /// The public state that the statement sees.
    pub catalog: &'a Catalog,
    /// The principal that asks.
    pub asker: Principal,
    /// The session's label.
    pub label: &'a Label,
}

/// What an INSERT, UPDATE or DELETE writes over the rows that it sees, or its first refusal. Nothing else writes.
///
/// Each row stands under the key that its values give. Where the condition of an UPDATE or DELETE gives the whole key, only the rows of
/// that key are looked at.
///
/// `NoAuthority` where the principal doesn't hold a tag that is declassified; `DuplicateKey` where the label sees a row of a new row's
/// key, an earlier one of the statement among them; `WriteLabel` where a matching row has another label; `OutOfRange` where an assigned
/// number isn't an `i64`; `NoReference` where no row may be a parent; in this order, the first row's refusal before the next row's.
pub fn writes_of<R: Rows>(writer: &Writer<'_>, rows: &R, bound: &Bound) -> Result<Written, Fault>
    requires rows_made { IsTrue
        (are_rows_made (length writer.now.catalog.now.tags) (R.rows rows.now)) }
    requires rows_keyed { IsTrue (are_all_keyed writer.now.catalog.now (R.rows rows.now)) }
    requires label_made { AreMade (length writer.now.catalog.now.tags) writer.now.label.now }
    requires fits { IsTrue (bound_fits writer.now.catalog.now bound.now) }
    ensures { Gives (writes_of writer.now.catalog.now writer.now.asker
        (R.rows rows.now) writer.now.label.now bound.now) result }
{
    match bound {
        Bound::Insert {
            table,
            rows: values,
            given,
        } => match target(writer, *table, given) {
            Ok(target) => insert_counted(&target, rows, values.items()),
            Err(fault) => Err(fault),
        },
        Bound::Update {
            table,
            assignments,
            cond,
            given,
        } => match target(writer, *table, given) {
            Ok(target) => update_matched(&target, rows, assignments.items(), cond),
            Err(fault) => Err(fault),
        },
        Bound::Delete { table, cond } => delete(writer, rows, *table, cond),
        _ => Ok(Written::new(Writes::new(writer.alloc), 0)),
    }
}

/// DELETE, which declassifies nothing.
fn delete<R: Rows>(
    writer: &Writer<'_>,
    rows: &R,
    table: TableId,
    cond: &Option<BoundCond>,
) -> Result<Written, Fault>
    requires rows_made { IsTrue
        (are_rows_made (length writer.now.catalog.now.tags) (R.rows rows.now)) }
    requires rows_keyed { IsTrue (are_all_keyed writer.now.catalog.now (R.rows rows.now)) }
    requires label_made { AreMade (length writer.now.catalog.now.tags) writer.now.label.now }
    requires table { table < length writer.now.catalog.now.tables }
    ensures { Gives (written_by writer.now (R.rows rows.now) (bound.Delete table cond.now)) result }
{
    match table_of(writer.catalog, table) {
        Some(schema) => {
            // What is declassified isn't looked at: no parent is bound.
            let from = Standpoint {
                tags: writer.catalog.tags(),
                label: writer.label,
                given: writer.label,
            };
            let target = Target {
                alloc: writer.alloc,
                from,
                table,
                schema,
            };
            delete_matched(&target, rows, cond)
        }
        None => Err(Fault::UnknownName),
    }
}

/// What a statement writes to, if the principal may declassify.
fn target<'a>(writer: &Writer<'a>, table: TableId, given: &'a Label) -> Result<Target<'a>, Fault>
    requires table { table < length writer.now.catalog.now.tables }
    requires given_made { AreMade (length writer.now.catalog.now.tags) given.now }
    ensures { IsTarget writer.now table given.now result }
{
    if !writer.catalog.has_tags(writer.asker, given.tags())? {
        return Err(Fault::NoAuthority);
    }
    match table_of(writer.catalog, table) {
        Some(schema) => Ok(Target {
            alloc: writer.alloc,
            from: Standpoint {
                tags: writer.catalog.tags(),
                label: writer.label,
                given,
            },
            table,
            schema,
        }),
        None => Err(Fault::UnknownName),
    }
}

/// The table of a number, which is there.
#[tactic(auto, using(crate::proofs::TableAt::table_is))]
fn table_of(catalog: &Catalog, table: TableId) -> Option<&Schema>
    requires { table < length catalog.now.tables }
    ensures { IsTable catalog.now table (option_copied result) }
{
    catalog.table(table)
}

/// INSERT of rows, with their number.
pub(crate) fn insert_counted<R: Rows>(
    target: &Target<'_>,
    rows: &R,
    values: &[ValueRow],
) -> Result<Written, Fault>
    requires made { IsMade target.now.from (R.rows rows.now) }
    ensures { Gives (counted (length values.now)
        (all_inserted target.now (R.rows rows.now) values.now)) result }
{
    let count = values.len() as u64;
    match insert_all(target, rows, values) {
        Ok(writes) => Ok(Written::new(writes, count)),
        Err(fault) => Err(fault),
    }
}

/// UPDATE of the rows of a table that match.
pub(crate) fn update_matched<R: Rows>(
    target: &Target<'_>,
    rows: &R,
    assignments: &[BoundAssignment],
    cond: &Option<BoundCond>,
) -> Result<Written, Fault>
    requires made { IsMade target.now.from (R.rows rows.now) }
    requires keyed { IsTrue (are_under_keys target.now (R.rows rows.now)) }
    ensures { Gives (update_matched (scene_of target.now (R.rows rows.now)) target.now.schema.now
        assignments.now (matched_of target.now (R.rows rows.now) cond.now)) result }
{
    let found = matched(target, rows, cond)?;
    if !are_writable(target.from.label, &found) {
        return Err(Fault::WriteLabel);
    }
    let count = found.len() as u64;
    match update_all(target, rows, assignments, &found) {
        Ok(writes) => Ok(Written::new(writes, count)),
        Err(fault) => Err(fault),
    }
}

/// DELETE of the rows of a table that match.
#[tactic(auto, using(crate::proofs::Deleting::rising_deletions, crate::proofs::Deleting::fitting_deletions))]
pub(crate) fn delete_matched<R: Rows>(
    target: &Target<'_>,
    rows: &R,
    cond: &Option<BoundCond>,
) -> Result<Written, Fault>
    requires made { IsMade target.now.from (R.rows rows.now) }
    requires keyed { IsTrue (are_under_keys target.now (R.rows rows.now)) }
    ensures { Gives (delete_matched target.now.from.label.now
        (matched_of target.now (R.rows rows.now) cond.now)) result }
{
    let found = matched(target, rows, cond)?;
    if !are_writable(target.from.label, &found) {
        return Err(Fault::WriteLabel);
    }
    let writes = deletions(target.alloc, &found)?;
    Ok(Written::new(Writes::from_vec(writes), found.len() as u64))
}
