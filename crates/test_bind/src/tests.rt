// Requests over one catalog, each with the tree that its names stand for or its first refusal, written by hand.
mod changes;
mod queries;
mod shown;
mod writes;

use ifdb_bind::bind;
use ifdb_bound::Bound;
use ifdb_catalog::{Catalog, bound_changes_are_new};
use ifdb_parse::parse;
use ifdb_syntax::Request;
use ifdb_value::Principal;
use ifdb_wire::Fault;
use shown::shown;
use std::alloc::Global;
use std::process::Abort;
use std::test::Fail;

/// Who made what the catalog is made of.
const MAKER: Principal = Principal(0);

/// Who asks.
const ASKER: Principal = Principal(1);

/// What the catalog is made of, in the order of the numbers.
static MADE: [&[u8]; 11] = [
    b"CREATE PRINCIPAL doctor KEY 'd'",
    b"CREATE COMPOUND TAG patients",
    b"CREATE TAG alice IN (patients)",
    b"CREATE TAG bob",
    b"CREATE TABLE note (id INT, body TEXT, PRIMARY KEY (id))",
    b"CREATE TABLE visit (id INT, pid INT, why TEXT, fee INT, PRIMARY KEY (pid, id))",
    b"CREATE TABLE answer (id INT, note INT, PRIMARY KEY (id), FOREIGN KEY (note) REFERENCES note)",
    b"CREATE TABLE drug (code TEXT, dose INT, name TEXT, PRIMARY KEY (dose, code))",
    b"CREATE VIEW fees AS SELECT id, fee FROM visit WITH DECLASSIFYING (patients)",
    b"CREATE VIEW pairs AS SELECT note.id AS a, visit.id AS b FROM note, visit WITH DECLASSIFYING (bob)",
    b"CREATE VIEW whys AS SELECT why AS w, id + 1 AS n FROM visit v WHERE v.fee > 0 WITH DECLASSIFYING (alice, bob)",
];

/// A line, and the tree or the refusal that it is to have, as a text.
type Row = (&'static [u8], &'static str);

/// The catalog that the requests are bound in.
fn catalog(alloc: Global) -> Result<Catalog, Fail> {
    let mut catalog = Catalog::opening(alloc)?;
    match make_all(alloc, &mut catalog) {
        Ok(()) => Ok(catalog),
        Err(fail) => {
            drop(catalog);
            Err(fail)
        }
    }
}

/// Makes what the catalog is made of.
fn make_all(alloc: Global, catalog: &mut Catalog) -> Result<(), Fail> {
    for line in &MADE {
        let request = parse(alloc, line)?;
        make(alloc, catalog, MAKER, request)?;
    }
    Ok(())
}

/// Makes the change that is asked for.
fn make(
    alloc: Global,
    catalog: &mut Catalog,
    asker: Principal,
    request: Request,
) -> Result<(), Fault> {
    let bound = bind(alloc, catalog, asker, request)?;
    bound_changes_are_new();
    match bound {
        Bound::Change(change) => catalog.apply(change),
        other => {
            drop(other);
            Ok(())
        }
    }
}

/// What a line is bound to, or its refusal, as a text.
fn bound_text(alloc: Global, catalog: &Catalog, line: &[u8]) -> Result<String, Fail> {
    let request = parse(alloc, line)?;
    let answer = bind(alloc, catalog, ASKER, request);
    let text = shown(alloc, &answer);
    drop(answer);
    Ok(text?)
}

/// Checks that each line of some tables is bound to its tree, or meets its refusal first.
fn are_bound(
    rt: &impl Abort,
    alloc: Global,
    catalog: &Catalog,
    tables: &[&[Row]],
) -> Result<(), Fail> {
    for rows in tables {
        for (line, want) in *rows {
            let found = bound_text(alloc, catalog, line)?;
            assert_eq!(rt; found.as_str(), *want, "{line:?}");
        }
    }
    Ok(())
}

/// Checks the same in a catalog, which is over then.
fn are_bound_in(
    rt: &impl Abort,
    alloc: Global,
    catalog: Catalog,
    tables: &[&[Row]],
) -> Result<(), Fail> {
    let checked = are_bound(rt, alloc, &catalog, tables);
    drop(catalog);
    checked
}

#[test]
fn changes_are_bound(rt: HostRuntime) -> Result<(), Fail> {
    let tables: [&[Row]; 3] = [&changes::NAMES, &changes::TABLES, &changes::VIEWS];
    are_bound_in(&rt, rt.alloc(), catalog(rt.alloc())?, &tables)
}

#[test]
fn queries_are_bound(rt: HostRuntime) -> Result<(), Fail> {
    let tables: [&[Row]; 3] = [&queries::TREES, &queries::NAMES, &queries::FORMS];
    are_bound_in(&rt, rt.alloc(), catalog(rt.alloc())?, &tables)
}

#[test]
fn writes_are_bound(rt: HostRuntime) -> Result<(), Fail> {
    let tables: [&[Row]; 3] = [&writes::INSERTS, &writes::UPDATES, &writes::DELETES];
    are_bound_in(&rt, rt.alloc(), catalog(rt.alloc())?, &tables)
}

/// In a copy of the catalog names stand for the same.
#[test]
fn a_copy_binds_alike(rt: HostRuntime) -> Result<(), Fail> {
    let tables: [&[Row]; 3] = [&queries::TREES, &changes::VIEWS, &writes::INSERTS];
    are_bound_in(&rt, rt.alloc(), copied(rt.alloc())?, &tables)
}

/// A copy of the catalog.
fn copied(alloc: Global) -> Result<Catalog, Fail> {
    let catalog = catalog(alloc)?;
    let copy = catalog.copy();
    drop(catalog);
    Ok(copy?)
}

/// Changes that are made of a copy are there in it alone.
#[test]
fn changes_are_made(rt: HostRuntime) -> Result<(), Fail> {
    let catalog = catalog(rt.alloc())?;
    let checked = are_made_in_a_copy(&rt, rt.alloc(), &catalog);
    drop(catalog);
    checked
}

/// Changes a copy, and checks what names stand for in the catalog then.
fn are_made_in_a_copy(rt: &impl Abort, alloc: Global, catalog: &Catalog) -> Result<(), Fail> {
    change_a_copy(rt, alloc, catalog)?;
    are_bound(rt, alloc, catalog, &[&changes::EARLIER])
}

/// Changes a copy, and checks what names stand for in it then.
fn change_a_copy(rt: &impl Abort, alloc: Global, catalog: &Catalog) -> Result<(), Fail> {
    let mut copy = catalog.copy()?;
    let checked = change(rt, alloc, &mut copy);
    drop(copy);
    checked
}

/// Changes a catalog, and checks what names stand for in it then.
fn change(rt: &impl Abort, alloc: Global, catalog: &mut Catalog) -> Result<(), Fail> {
    are_made(rt, alloc, catalog)?;
    are_bound(rt, alloc, catalog, &[&changes::LATER])
}

/// Checks that each change is made, or meets its refusal.
fn are_made(rt: &impl Abort, alloc: Global, catalog: &mut Catalog) -> Result<(), Fail> {
    for (line, want) in &changes::MADE {
        let request = parse(alloc, line)?;
        assert_eq!(rt; make(alloc, catalog, ASKER, request), *want, "{line:?}");
    }
    Ok(())
}
