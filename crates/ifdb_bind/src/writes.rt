// Binding of UPDATE and DELETE.
ghost use Rattle.std.specs.Prelude.{◌≡◌, ◌&&◌, ◌∷◌, [], true, map, Ok, Err, IfOk};
ghost use Rattle.std.specs.List.{list_all, list_any};
ghost use Rattle.ifdb_syntax.specs.declared.request.Assignment.{Assignment};
ghost use Rattle.ifdb_bound.specs.Kinds.{where_fits};
ghost use Rattle.ifdb_wire.specs.Refused.{RefusedAs};
ghost use Rattle.ifdb_catalog.specs.Binding.{delete};
ghost use Rattle.ifdb_catalog.specs.Queries.{are_distinct};
ghost use Rattle.ifdb_catalog.specs.Public.{table_at};
ghost use Rattle.ifdb_catalog.specs.Scope.{kinds_in};
ghost use Rattle.ifdb_catalog.specs.Statements.{assignment_fits, bound_assignment, label_named};
ghost use Rattle.ifdb_catalog.specs.Terms.{bound_where};
ghost use Rattle.ifdb_select.specs.Lacks.{RefusedUnless};
ghost use Rattle.ifdb_bind.specs.Written.{all_assigned, are_known, are_known_in, assigned, takes_what_is_given, is_known_in, is_of_key, updated_by};

use crate::names::label_named;
use ifdb_bound::{Bound, BoundAssignment, BoundAssignments, BoundCond, Relation};
use ifdb_catalog::Catalog;
use ifdb_label::Label;
use ifdb_select::{
    ScopeSource, accepts, are_distinct, bound_expr, bound_where, expr_kind, key_places,
    relation_named, source, where_fits,
};
use ifdb_syntax::{Assignment, Cond};
use ifdb_value::{Name, TableId};
use ifdb_wire::Fault;
use std::alloc::Global;
use std::slice::from_ref;

/// DELETE.
#[tactic(auto, unfolding(ifdb_catalog::specs::Check::judged))]
pub(crate) fn delete<'a>(
    alloc: Global,
    catalog: &'a Catalog,
    table: &'a Name,
    cond: &Option<Cond>,
) -> Result<Bound, Fault>
    ensures bound { IfOk result (λ b. delete catalog.now table.now cond.now ≡ Ok b) }
    ensures refused { RefusedAs (delete catalog.now table.now cond.now) result }
{
    let relation = relation_named(catalog, table)?;
    let target = source(alloc, catalog, table, relation)?;
    let cond = bound_where(alloc, from_ref(&target), cond)?;
    let Relation::Table(table) = &relation else {
        drop(cond);
        return Err(Fault::NotATable);
    };
    if !where_fits(from_ref(&target), &cond) {
        drop(cond);
        return Err(Fault::TypeMismatch);
    }
    Ok(Bound::Delete {
        table: *table,
        cond,
    })
}

/// What an UPDATE writes, and where.
#[derive(Clone, Copy)]
pub(crate) struct Changes<'a> {
    /// What is written.
    pub(crate) assignments: &'a [Assignment],
    /// Which rows.
    pub(crate) cond: &'a Option<Cond>,
    /// The tags that are given up.
    pub(crate) tags: &'a [Name],
}

/// What an UPDATE writes, and where, with numbers for its names.
#[derive(Drop)]
struct KnownChanges {
    assignments: BoundAssignments,
    cond: Option<BoundCond>,
    given: Label,
}

/// UPDATE.
#[tactic(auto, unfolding(ifdb_catalog::specs::Check::judged), using(crate::proofs::WrittenKeys::keys_are_written))]
pub(crate) fn update<'a>(
    alloc: Global,
    catalog: &'a Catalog,
    table: &'a Name,
    changes: Changes<'_>,
) -> Result<Bound, Fault>
    ensures bound { IfOk result (λ b. updated_by catalog.now table.now changes.entry ≡ Ok b) }
    ensures refused { RefusedAs (updated_by catalog.now table.now changes.entry) result }
{
    let relation = relation_named(catalog, table)?;
    let target = source(alloc, catalog, table, relation)?;
    let known = known_changes(alloc, catalog, &target, changes)?;
    let Relation::Table(table) = &relation else {
        drop(known);
        return Err(Fault::NotATable);
    };
    if writes_key(catalog, *table, known.assignments.items()) {
        drop(known);
        return Err(Fault::KeyColumn);
    }
    if !fits(&target, changes.assignments, &known) {
        drop(known);
        return Err(Fault::TypeMismatch);
    }
    let KnownChanges {
        assignments,
        cond,
        given,
    } = known;
    Ok(Bound::Update {
        table: *table,
        assignments,
        cond,
        given,
    })
}

/// The changes with numbers for their names.
fn known_changes(
    alloc: Global,
    catalog: &Catalog,
    target: &ScopeSource<'_>,
    changes: Changes<'_>,
) -> Result<KnownChanges, Fault>
    ensures known { IfOk result (λ _. are_known catalog.now target.now changes.entry ≡ true) }
    ensures assignments { IfOk result (λ known. known.assignments
        ≡ map (bound_assignment target.now.columns (target.now ∷ [])) changes.entry.assignments.now) }
    ensures cond { IfOk result
        (λ known. known.cond ≡ bound_where (target.now ∷ []) changes.entry.cond.now) }
    ensures given { IfOk result
        (λ known. known.given ≡ label_named catalog.now changes.entry.tags.now) }
    ensures lacks { RefusedUnless (are_known catalog.now target.now changes.entry) result }
{
    let assignments = bound_assignments(alloc, target, changes.assignments)?;
    let cond = bound_where(alloc, from_ref(target), changes.cond)?;
    let given = label_named(alloc, catalog, changes.tags)?;
    Ok(KnownChanges {
        assignments,
        cond,
        given,
    })
}

/// The assignments with places for their columns.
fn bound_assignments(
    alloc: Global,
    target: &ScopeSource<'_>,
    assignments: &[Assignment],
) -> Result<BoundAssignments, Fault>
    ensures known { IfOk result (λ _. are_known_in target.now assignments.now ≡ true) }
    ensures trees { IfOk result (λ trees. trees ≡ all_assigned target.now assignments.now) }
    ensures lacks { RefusedUnless (are_known_in target.now assignments.now) result }
{
    let mut trees = BoundAssignments::new(alloc);
    for assignment in assignments {
        trees.push(bound_assignment(alloc, target, assignment)?)?;
    }
    Ok(trees)
}

/// An assignment with places for its columns.
fn bound_assignment(
    alloc: Global,
    target: &ScopeSource<'_>,
    assignment: &Assignment,
) -> Result<BoundAssignment, Fault>
    ensures known { IfOk result (λ _. is_known_in target.now assignment.now ≡ true) }
    ensures tree { IfOk result (λ tree. tree ≡ assigned target.now assignment.now) }
    ensures lacks { RefusedUnless (is_known_in target.now assignment.now) result }
{
    let Some(column) = target.place(&assignment.column) else {
        return Err(Fault::UnknownName);
    };
    let expr = bound_expr(alloc, from_ref(target), &assignment.expr)?;
    Ok(BoundAssignment { column, expr })
}

/// Whether a column of the primary key is written.
fn writes_key(catalog: &Catalog, table: TableId, assignments: &[BoundAssignment]) -> bool
    ensures { result ≡ list_any (is_of_key (table_at catalog.now table).key) assignments.now }
{
    let key = key_places(catalog, table);
    for assignment in assignments {
        if is_of_key(key, assignment) {
            return true;
        }
    }
    false
}

/// Whether the column that is written is of the key.
fn is_of_key(key: &[usize], assignment: &BoundAssignment) -> bool
    ensures { result ≡ is_of_key key.now assignment.now }
{
    key.iter().any(|place| *place == assignment.column)
}

/// Whether no column is written twice, each takes what it is given, and the condition fits.
fn fits(target: &ScopeSource<'_>, assignments: &[Assignment], known: &KnownChanges) -> bool
    ensures { result ≡ (are_distinct (map (λ (a : Assignment). a.column) assignments.now)
        && list_all (assignment_fits target.now.columns (kinds_in (target.now ∷ [])))
        known.now.assignments)
        && where_fits (kinds_in (target.now ∷ [])) known.now.cond }
{
    are_distinct(assignments)
        && assignments_fit(target, known.assignments.items())
        && where_fits(from_ref(target), &known.cond)
}

/// Whether each column that is written takes what it is given.
fn assignments_fit(target: &ScopeSource<'_>, trees: &[BoundAssignment]) -> bool
    ensures { result ≡ list_all (takes_what_is_given target.now) trees.now }
{
    for tree in trees {
        if !assignment_fits(target, tree) {
            return false;
        }
    }
    true
}

/// Whether a column that is written takes what it is given.
fn assignment_fits(target: &ScopeSource<'_>, tree: &BoundAssignment) -> bool
    ensures { result ≡ takes_what_is_given target.now tree.now }
{
    accepts(
        target.kind(tree.column),
        expr_kind(from_ref(target), &tree.expr),
    )
}
