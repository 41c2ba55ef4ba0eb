//! What a statement writes over a public state.
ghost use Rattle.std.specs.Prelude.{◌≡◌, ◌∷◌, [], IfOk, IsTrue};
ghost use Rattle.ifdb_bound.specs.declared.request.Bound.TheVariants as bound;
ghost use Rattle.ifdb_catalog.specs.Fits.{bound_fits, is_table};
ghost use Rattle.ifdb_catalog.specs.Public.{table_at};
ghost use Rattle.ifdb_catalog.specs.Statements.{fills};

use super::rows::values_of;
use super::tables::{are_of_kinds, note_of};
use crate::statement::{Writer, writes_of};
use crate::written::Written;
use ifdb_bound::{Bound, Change};
use ifdb_catalog::{Catalog, are_given};
use ifdb_label::Label;
use ifdb_row::{ListRows, OutOfMemory};
use ifdb_value::{Principal, TableId, Value, ValueRow, ValueRows};
use ifdb_wire::Fault;
use std::alloc::Global;
use std::process::Abort;
use std::test::Fail;

#[test]
fn a_statement_writes_over_a_public_state(rt: HostRuntime) -> Result<(), Fail> {
    let alloc = rt.alloc();
    let catalog = with_notes(&rt, alloc)?;
    let written = first_note(&rt, alloc, &catalog);
    drop(catalog);
    let written = written?;
    assert_eq!(rt; written.count(), 1);
    assert_eq!(rt; written.into_writes().len(), 1);
    Ok(())
}

/// The public state with the table of notes alone.
fn with_notes(rt: &impl Abort, alloc: Global) -> Result<Catalog, Fail> {
    let mut catalog = Catalog::opening(alloc)?;
    match add_notes(rt, alloc, &mut catalog) {
        Ok(()) => Ok(catalog),
        Err(fail) => {
            drop(catalog);
            Err(fail)
        }
    }
}

/// Adds the table of notes to a public state without it.
fn add_notes(rt: &impl Abort, alloc: Global, catalog: &mut Catalog) -> Result<(), Fail> {
    let schema = note_of(alloc)?;
    assert!(rt; catalog.relation(&schema.name).is_none());
    catalog.apply(Change::Table {
        asker: Principal(0),
        schema,
    })?;
    Ok(())
}

/// What an INSERT of one note writes, where there is none.
fn first_note(rt: &impl Abort, alloc: Global, catalog: &Catalog) -> Result<Written, Fail> {
    let values = values_of(alloc, 1, Value::Int(2))?;
    assert!(rt; takes(catalog, TableId(0), values.items()));
    let insert = insert_of(alloc, values)?;
    let written = written_by(alloc, catalog, &insert);
    drop(insert);
    Ok(written?)
}

/// An INSERT of one row into the first table.
fn insert_of(alloc: Global, values: ValueRow) -> Result<Bound, OutOfMemory>
    ensures { IfOk result (λ found. found ≡ bound.Insert 0 (values ∷ []) []) }
{
    Ok(Bound::Insert {
        table: TableId(0),
        rows: ValueRows::single(alloc, values)?,
        given: Label::empty(),
    })
}

/// What a statement writes where there are no rows.
fn written_by(alloc: Global, catalog: &Catalog, found: &Bound) -> Result<Written, Fault>
    requires { IsTrue (bound_fits catalog.now found.now) }
{
    let label = Label::empty();
    let writer = Writer {
        alloc,
        catalog,
        asker: Principal(0),
        label: &label,
    };
    writes_of(&writer, &ListRows::new(Vec::new(alloc)), found)
}

/// Whether a table takes a row.
#[tactic(auto, using(crate::proofs::TableAt::table_is))]
fn takes(catalog: &Catalog, table: TableId, values: &[Value]) -> bool
    ensures { IsTrue result → IsTrue (is_table catalog.now table)
        × IsTrue (fills (table_at catalog.now table) values.now) }
{
    match catalog.table(table) {
        Some(schema) => {
            are_of_kinds(schema.columns.items(), values) && are_given(values, schema.key.items())
        }
        None => false,
    }
}
